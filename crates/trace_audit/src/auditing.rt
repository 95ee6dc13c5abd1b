//! `audit` and `audit_text`: whether the documented machine can have written a trace.

ghost use Rattle.std.specs.Prelude.{◌≡◌, ◌≤◌, ◌<◌, ◌+◌, ◌↔◌, All, [], length, IfOk, List as Items};
ghost use Rattle.init_core.specs.Core.{opening_of};
ghost use Rattle.init_machine.specs.State.{Opening};
ghost use Rattle.init_machine.specs.WellFormed.{IsWellFormed};
ghost use Rattle.script_lang.specs.Laws.{IsAskAmong};
ghost use Rattle.script_lang.specs.declared.script.Script.{Script as Acts};
ghost use Rattle.trace_audit.specs.Audited.{Audited, Says};
ghost use Rattle.trace_audit.specs.Taken.{EndsWith, HasTaken, HasTakenNone};
ghost use Rattle.trace_audit.specs.Texts.{SaysOf, SaysOfReport};
ghost use Rattle.trace_audit.specs.declared.verdict.Verdict.TheVariants as Verdict;
ghost use Rattle.trace_reader.specs.Pieces.{left_of, most_entries};

use crate::taking::Audit;
use crate::verdict::Verdict;
use init_base::{List, NoMemory};
use init_machine::{Config, Diagnostic, Report};
use prop_contexts::Policy;
use script_lang::Script;
use std::alloc::Global;
use trace_reader::{Fault, Piece, Pieces};

/// An audit that has taken no entry. `audit` and `audit_text` hand theirs on by this bound, behind which it ends: so their proofs have
/// nothing to do with letting go of a machine.
trait Judges {
    // it has taken no entry of a script's history, from some opening
    ghost begun: { Acts → Self → Type 0 };

    // the same, from this opening
    ghost opened: { Opening → Acts → Self → Type 0 };

    /// The verdict on a report.
    fn judge(
        &mut self,
        alloc: Global,
        diagnostics: &List<Diagnostic>,
        script: &Script,
        report: &Report,
    ) -> Result<Verdict, NoMemory>
        requires asks { All (IsAskAmong (length script.now.clients)) script.now.acts }
        requires begun { begun script.now self.old }
        ensures { (o : Opening) → opened o script.now self.old → IfOk result (Says o diagnostics.now script.now report.now) };

    /// The verdict on a text.
    fn judge_text(
        &mut self,
        alloc: Global,
        diagnostics: &List<Diagnostic>,
        script: &Script,
        text: &[u8],
    ) -> Result<Verdict, Fault>
        requires asks { All (IsAskAmong (length script.now.clients)) script.now.acts }
        requires begun { begun script.now self.old }
        ensures { (o : Opening) → opened o script.now self.old → SaysOf o diagnostics.now script.now text.now result };
}

impl Judges for Audit {
    ghost begun = { HasTakenNone };

    ghost opened = { λ o script audit. HasTaken o script [] audit };

    fn judge(
        &mut self,
        alloc: Global,
        diagnostics: &List<Diagnostic>,
        script: &Script,
        report: &Report,
    ) -> Result<Verdict, NoMemory> {
        judge(alloc, self, diagnostics, script, report)
    }

    fn judge_text(
        &mut self,
        alloc: Global,
        diagnostics: &List<Diagnostic>,
        script: &Script,
        text: &[u8],
    ) -> Result<Verdict, Fault> {
        judge_text(alloc, self, diagnostics, script, text)
    }
}

/// The verdict on a report. The audit ends here.
fn judged<J: Judges + Drop>(
    alloc: Global,
    mut audit: J,
    diagnostics: &List<Diagnostic>,
    script: &Script,
    report: &Report,
) -> Result<Verdict, NoMemory>
    requires asks { All (IsAskAmong (length script.now.clients)) script.now.acts }
    requires begun { J.begun script.now audit }
    ensures { (o : Opening) → J.opened o script.now audit → IfOk result (Says o diagnostics.now script.now report.now) }
{
    audit.judge(alloc, diagnostics, script, report)
}

/// The verdict on a text. The audit ends here.
fn text_judged<J: Judges + Drop>(
    alloc: Global,
    mut audit: J,
    diagnostics: &List<Diagnostic>,
    script: &Script,
    text: &[u8],
) -> Result<Verdict, Fault>
    requires asks { All (IsAskAmong (length script.now.clients)) script.now.acts }
    requires begun { J.begun script.now audit }
    ensures { (o : Opening) → J.opened o script.now audit → SaysOf o diagnostics.now script.now text.now result }
{
    audit.judge_text(alloc, diagnostics, script, text)
}

/// Whether the documented machine can have written the report of a script.
///
/// It is so exactly where the diagnostics are these, the clients are the script's in order, the history merges the parts of
/// the script's actors and is legal, and the readings of each client hold. Otherwise the answer tells the first of these five
/// that fails, and the number of the first thing in it that is wrong: of the diagnostic or the client that differs; of the
/// entry with which no merging begins any more, or one more than that of the last where the history ends too early; of the
/// entry whose outputs differ; or of the client whose readings fail.
pub fn audit(
    alloc: Global,
    config: Config,
    policy: Policy,
    diagnostics: &List<Diagnostic>,
    script: &Script,
    report: &Report,
) -> Result<Verdict, NoMemory>
    requires config { IsWellFormed config }
    requires domains { length script.now.clients ≤ length config.domains }
    requires asks { All (IsAskAmong (length script.now.clients)) script.now.acts }
    ensures says { let opening = opening_of config policy script.now.words in
        IfOk result (Says opening diagnostics.now script.now report.now) }
    ensures yes { let opening = opening_of config policy script.now.words in
        IfOk result (λ verdict. (verdict ≡ Verdict.Yes) ↔ Audited opening diagnostics.now script.now report.now) }
{
    let audit = Audit::new(alloc, config, policy, script)?;
    judged(alloc, audit, diagnostics, script, report)
}

/// The verdict on a report, by an audit that has taken no entry.
fn judge(
    alloc: Global,
    audit: &mut Audit,
    diagnostics: &List<Diagnostic>,
    script: &Script,
    report: &Report,
) -> Result<Verdict, NoMemory>
    requires asks { All (IsAskAmong (length script.now.clients)) script.now.acts }
    requires begun { HasTakenNone script.now audit.old }
    ensures { (o : Opening) → HasTaken o script.now [] audit.old → IfOk result (Says o diagnostics.now script.now report.now) }
{
    for entry in report.history.items() {
        audit.take(script, entry)?;
    }
    audit.verdict(alloc, diagnostics, script, report)
}

/// The same of the report that bytes are the text of. Bad exactly where they are the text of none. It reads the text entry by
/// entry, and keeps none: of the history it holds the sets.
pub fn audit_text(
    alloc: Global,
    config: Config,
    policy: Policy,
    diagnostics: &List<Diagnostic>,
    script: &Script,
    text: &[u8],
) -> Result<Verdict, Fault>
    requires config { IsWellFormed config }
    requires domains { length script.now.clients ≤ length config.domains }
    requires asks { All (IsAskAmong (length script.now.clients)) script.now.acts }
    ensures { SaysOf (opening_of config policy script.now.words) diagnostics.now script.now text.now result }
{
    let audit = Audit::new(alloc, config, policy, script)?;
    text_judged(alloc, audit, diagnostics, script, text)
}

/// The verdict on a text, by an audit that has taken no entry.
fn judge_text(
    alloc: Global,
    audit: &mut Audit,
    diagnostics: &List<Diagnostic>,
    script: &Script,
    text: &[u8],
) -> Result<Verdict, Fault>
    requires asks { All (IsAskAmong (length script.now.clients)) script.now.acts }
    requires begun { HasTakenNone script.now audit.old }
    ensures { (o : Opening) → HasTaken o script.now [] audit.old → SaysOf o diagnostics.now script.now text.now result }
{
    let Some(mut pieces) = Pieces::of(alloc, text) else {
        return Err(Fault::Bad);
    };
    judge_pieces(alloc, audit, diagnostics, script, &mut pieces)
}

/// The verdict on the pieces of a text.
fn judge_pieces(
    alloc: Global,
    audit: &mut Audit,
    diagnostics: &List<Diagnostic>,
    script: &Script,
    pieces: &mut Pieces<'_>,
) -> Result<Verdict, Fault>
    requires asks { All (IsAskAmong (length script.now.clients)) script.now.acts }
    requires begun { HasTakenNone script.now audit.old }
    requires few { most_entries pieces.old < 18446744073709551615 }
    ensures { (o : Opening) → HasTaken o script.now [] audit.old
        → SaysOfReport o diagnostics.now script.now (left_of pieces.old) result }
{
    let rest = take_all(alloc, audit, script, pieces)?;
    Ok(audit.verdict(alloc, diagnostics, script, &rest)?)
}

/// Takes all entries, and answers the rest of the report. Bad where the text is that of no report.
fn take_all(
    alloc: Global,
    audit: &mut Audit,
    script: &Script,
    pieces: &mut Pieces<'_>,
) -> Result<Report, Fault>
    requires asks { All (IsAskAmong (length script.now.clients)) script.now.acts }
    requires begun { HasTakenNone script.now audit.old }
    requires few { most_entries pieces.old < 18446744073709551615 }
    ensures ends { (o : Opening) → HasTaken o script.now [] audit.old → EndsWith o script.now (left_of pieces.old) audit.new result }
    ensures few { IfOk result (λ _. audit.new.merge.taken < 18446744073709551615) }
{
    loop {
        match pieces.next(alloc)? {
            Piece::Entry(entry) => audit.take(script, &entry)?,
            Piece::Rest(rest) => return Ok(rest),
        }
    }
}
