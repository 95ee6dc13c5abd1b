//! `Audit`: an audit that takes a history entry by entry, so that no entry is kept.

ghost use Rattle.std.specs.Prelude.{◌≡◌, ◌≤◌, ◌<◌, ◌+◌, ◌++◌, ◌∷◌, [], All, List as Items, length, IfOk, OnOk};
ghost use Rattle.init_core.specs.Core.{opening_of};
ghost use Rattle.init_machine.specs.State.{Opening};
ghost use Rattle.init_machine.specs.WellFormed.{IsWellFormed};
ghost use Rattle.init_machine.specs.declared.report.Entry.{Entry as Happened};
ghost use Rattle.script_lang.specs.Laws.{IsAskAmong};
ghost use Rattle.trace_audit.specs.Audited.{Says};
ghost use Rattle.trace_audit.specs.Taken.{HasGathered, HasTaken, HasTakenSome, with_history};
ghost use Rattle.trace_audit.specs.declared.verdict.Verdict.TheVariants as Verdict;

use crate::clients::clients_of;
use crate::legal::{has_outputs, open};
use crate::merge::Merge;
use crate::readings::readings_fault;
use crate::same::first_difference;
use crate::told::{Gathered, Told};
use crate::verdict::{Verdict, Why};
use init_base::{List, NoMemory};
use init_core::Core;
use init_machine::{Config, Diagnostic, Entry, Output, Report};
use list_store::ListStore;
use prop_contexts::Policy;
use script_lang::Script;
use std::alloc::Global;
use std::mem;

/// What is known of the entries that were taken.
#[derive(Drop)]
pub struct Audit {
    pub merge: Merge,
    core: Core<ListStore, List<Output>>,
    /// The outputs of the entry that was taken last.
    outputs: List<Output>,
    /// The number of the first entry whose outputs aren't those of the machine.
    illegal: Option<u64>,
    /// What the entries tell, where some client may have read it.
    told: Gathered,
}

impl Audit {
    /// Nothing was taken.
    pub fn new(
        alloc: Global,
        config: Config,
        policy: Policy,
        script: &Script,
    ) -> Result<Audit, NoMemory>
        requires config { IsWellFormed config }
        requires domains { length script.now.clients ≤ length config.domains }
        requires asks { All (IsAskAmong (length script.now.clients)) script.now.acts }
        ensures { IfOk result (HasTaken (opening_of config policy script.now.words) script.now []) }
    {
        Ok(Audit {
            merge: Merge::new(alloc, script)?,
            core: open(alloc, config, policy, script.words)?,
            outputs: List::new(alloc),
            illegal: None,
            told: Gathered::new(alloc),
        })
    }

    /// Takes the next entry. The machine takes its input where a merging of the script's parts begins with it, and all entries
    /// before it are legal.
    pub fn take(&mut self, script: &Script, entry: &Entry) -> Result<(), NoMemory>
        requires asks { All (IsAskAmong (length script.now.clients)) script.now.acts }
        requires few { self.old.merge.taken < 18446744073709551615 }
        requires begun { HasTakenSome script.now self.old }
        ensures counted { OnOk result (self.new.merge.taken ≡ self.old.merge.taken + 1) }
        ensures taken { (o : Opening) → (history : Items Happened) → HasTaken o script.now history self.old
            → OnOk result (HasTaken o script.now (history ++ entry.now ∷ []) self.new) }
    {
        self.merge.take(script, &entry.input);
        gather(&mut self.told, script, entry)?;
        if self.merge.strays.is_some() || self.illegal.is_some() {
            return Ok(());
        }
        if !has_outputs(&mut self.core, &mut self.outputs, entry)? {
            self.illegal = Some(self.merge.taken);
        }
        Ok(())
    }

    /// The verdict, where no further entry comes. Of the report its diagnostics and its clients are looked at.
    pub fn verdict(
        &mut self,
        alloc: Global,
        diagnostics: &List<Diagnostic>,
        script: &Script,
        report: &Report,
    ) -> Result<Verdict, NoMemory>
        requires asks { All (IsAskAmong (length script.now.clients)) script.now.acts }
        requires few { self.old.merge.taken < 18446744073709551615 }
        ensures { (o : Opening) → (history : Items Happened) → HasTaken o script.now history self.old
            → IfOk result (Says o diagnostics.now script.now (with_history history report.now)) }
    {
        if let Some(number) = first_difference(diagnostics.items(), report.diagnostics.items()) {
            return Ok(no(Why::Diagnostics, number));
        }
        let clients = clients_of(alloc, report.clients.items())?;
        if let Some(number) = first_difference(script.clients.items(), clients.as_slice()) {
            return Ok(no(Why::Clients, number));
        }
        if let Some(number) = self.merge.end(script) {
            return Ok(no(Why::Merge, number));
        }
        if let Some(number) = self.illegal {
            return Ok(no(Why::Legal, number));
        }
        if script.clients.is_empty() {
            return Ok(Verdict::Yes);
        }
        let told = Told::of(alloc, mem::replace(&mut self.told, Gathered::new(alloc)))?;
        match readings_fault(alloc, script, &told, report.clients.items())? {
            Some(number) => Ok(no(Why::Readings, number)),
            None => Ok(Verdict::Yes),
        }
    }
}

/// Adds what an entry tells, where some client may have read it.
fn gather(told: &mut Gathered, script: &Script, entry: &Entry) -> Result<(), NoMemory>
    ensures { OnOk result ((history : Items Happened) → 0 < length script.now.clients → HasGathered history told.old
        → HasGathered (history ++ entry.now ∷ []) told.new) }
{
    if script.clients.is_empty() {
        return Ok(());
    }
    told.add(entry)
}

fn no(why: Why, number: u64) -> Verdict
    ensures { result ≡ Verdict.No why number }
{
    Verdict::No { why, number }
}
