//! `dispatch`: the machine with one worker, which serves the sets of clients on threads of their own.

ghost use Rattle.std.specs.Prelude.{◌≡◌, ℕ, All, IfSome, List as Items, Option, Some};
ghost use Rattle.init_driver.specs.Keeper.{seen_by};
ghost use Rattle.init_trace.specs.Report.{TextOf};
ghost use Rattle.command_line.specs.declared.form.Form.TheVariants as Form;
ghost use Rattle.init_forms.specs.Outcome.{Ends, TellRun, Told, shown_as, sources_of};
ghost use Rattle.init_forms.specs.Racing.{IsRelayedReport, PerformsRace};
ghost use Rattle.init_forms.specs.Top.{IsAsBefore};
ghost use Rattle.job_reader.specs.Counts.{AreCounted, counts_of};
ghost use Rattle.job_reader.specs.Endings.{IsRunStatus};
ghost use Rattle.job_reader.specs.Prepared.{IsFit, WritesText, course_of};
ghost use Rattle.job_reader.specs.Script.{ScriptSays};
ghost use Rattle.job_reader.specs.Store.{StoreSays};
ghost use Rattle.job_reader.specs.Tree.{IsWorldOf, TreeSays};
ghost use Rattle.job_reader.specs.Tree.Purpose.{ToRun};
ghost use Rattle.job_reader.specs.declared.grammar.Grammar.TheVariants.{Sets};
ghost use Rattle.rc_import.specs.World.{World};
ghost use Rattle.script_lang.specs.Sets.{IsSetOrMain};

use crate::reports::write_report;
use init_base::{Files, Keeper, Sink, Source};
use init_dispatch::run_dispatch;
use init_race::{RaceRefusal, Raced};
use job_reader::{Grammar, Job, Status, prepare};
use std::alloc::Global;
use std::sync::Wait;
use std::thread::Threads;

/// Writes the report of a dispatch. The seat of its area's writer isn't given.
fn write_dispatched<K: Sink>(alloc: Global, raced: Raced, out: &mut K) -> Status
    ensures writes { WritesText (TextOf raced.report) (K.taken out.old) (K.taken out.new) result }
    ensures counts { (files script trace keeper : ℕ) → AreCounted result
        (counts_of files script trace keeper (K.fault_count out.old))
        (counts_of files script trace keeper (K.fault_count out.new)) }
{
    let Raced { report, seat } = raced;
    drop(seat);
    write_report(alloc, &report, out)
}

/// Dispatches a job: the main actor acts, one worker serves the clients' sets, and then the text of the report is written.
fn perform_dispatch<R: Threads + Wait + Sync, P: Keeper, K: Sink>(
    rt: &R,
    alloc: Global,
    job: Job,
    keeper: &mut P,
    out: &mut K,
) -> Status
    requires fit { IsFit job }
    requires sets { All IsSetOrMain job.script.acts }
    ensures leaves { let seen = seen_by P.held P.TellsCrash P.moment P.MayLeave in
        PerformsRace IsRelayedReport (course_of job) (K.taken out.old) (K.taken out.new) (seen keeper.old) (seen keeper.new) result }
    ensures counts { (files script trace : ℕ) → AreCounted result
        (counts_of files script trace (P.fault_count keeper.old) (K.fault_count out.old))
        (counts_of files script trace (P.fault_count keeper.new) (K.fault_count out.new)) }
{
    match run_dispatch(rt, alloc, job.setup, &job.script, keeper) {
        Ok(raced) => write_dispatched(alloc, raced, out),
        Err(RaceRefusal::Keeper) => Status::ReadFault,
        Err(RaceRefusal::NoMemory) => Status::NoMemory,
    }
}

/// `dispatch`: reads a script whose clients only set, the tree and the store, runs the machine with one worker for the clients' sets, and
/// writes the report. Its parameters are those of `initsim`, without the words, the trace and the gate.
pub fn dispatch_script<R: Threads + Wait + Sync, F: Files, S: Source, P: Keeper, K: Sink>(
    rt: &R,
    alloc: Global,
    files: &mut F,
    script: &mut S,
    keeper: &mut P,
    out: &mut K,
) -> Status
    ensures script { IfSome (S.left script.old) (λ bytes. ScriptSays Sets bytes (S.left script.new) result) }
    ensures tree { (world : World) → IsWorldOf (F.tree files.old) world → TreeSays ToRun world result }
    ensures store { IfSome (P.held keeper.old) (λ held. StoreSays held result) }
    ensures ends { let seen = seen_by P.held P.TellsCrash P.moment P.MayLeave in
        (trace : Option (Items ℕ)) (told : Told) →
        TellRun (sources_of (S.left script.old) (F.tree files.old) (P.held keeper.old) trace) told →
        Ends (Some Form.Dispatch) told result (shown_as (K.taken out.old) (K.taken out.new) (seen keeper.old) (seen keeper.new)) }
    ensures counts { (trace : ℕ) → AreCounted result
        (counts_of (F.fault_count files.old) (S.fault_count script.old) trace (P.fault_count keeper.old) (K.fault_count out.old))
        (counts_of (F.fault_count files.new) (S.fault_count script.new) trace (P.fault_count keeper.new) (K.fault_count out.new)) }
    ensures unwritten { IsAsBefore (K.taken out.old) (K.taken out.new) result (P.fault_count keeper.old) (P.fault_count keeper.new) }
    ensures unkept { IsAsBefore (P.held keeper.old) (P.held keeper.new) result (P.fault_count keeper.old) (P.fault_count keeper.new) }
    ensures formed { IsRunStatus result }
{
    match prepare(alloc, Grammar::Sets, files, script, keeper) {
        Ok(job) => perform_dispatch(rt, alloc, job, keeper, out),
        Err(stop) => stop.status(),
    }
}
