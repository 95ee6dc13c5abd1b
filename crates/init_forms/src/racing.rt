//! `race`: the machine with each client on a thread of its own.

ghost use Rattle.std.specs.Prelude.{◌≡◌, ℕ, IfSome, List as Items, Option, Some};
ghost use Rattle.init_driver.specs.Keeper.{seen_by};
ghost use Rattle.init_trace.specs.Report.{TextOf};
ghost use Rattle.command_line.specs.declared.form.Form.TheVariants as Form;
ghost use Rattle.init_forms.specs.Outcome.{Ends, TellRun, Told, shown_as, sources_of};
ghost use Rattle.init_forms.specs.Racing.{IsAudited, PerformsRace};
ghost use Rattle.init_forms.specs.Seats.{GivesOwn, GivesSeat, RaceGives, Records};
ghost use Rattle.init_forms.specs.Top.{IsAsBefore};
ghost use Rattle.job_reader.specs.Counts.{AreCounted, counts_of};
ghost use Rattle.job_reader.specs.Endings.{IsRunStatus};
ghost use Rattle.job_reader.specs.Prepared.{IsFit, WritesText, course_of};
ghost use Rattle.job_reader.specs.Script.{ScriptSays};
ghost use Rattle.job_reader.specs.Store.{StoreSays};
ghost use Rattle.job_reader.specs.Tree.{IsWorldOf, TreeSays};
ghost use Rattle.job_reader.specs.Tree.Purpose.{ToRun};
ghost use Rattle.job_reader.specs.declared.grammar.Grammar.TheVariants.{Whole};
ghost use Rattle.rc_import.specs.World.{World};

use crate::reports::write_report;
use init_base::{Files, Keeper, Sink, Source};
use init_race::{Gate, RaceRefusal, Raced, race};
use job_reader::{Grammar, Job, Status, prepare};
use property_area::WriterSeat;
use std::alloc::Global;
use std::sync::Wait;
use std::thread::Threads;

/// Writes the report of a race, and gives the seat of its area's writer where it is written whole.
fn write_raced<K: Sink>(alloc: Global, raced: Raced, out: &mut K) -> (Status, Option<WriterSeat>)
    ensures writes { WritesText (TextOf raced.report) (K.taken out.old) (K.taken out.new) result.0 }
    ensures seat { GivesOwn raced.seat result.0 result.1 }
    ensures counts { (files script trace keeper : ℕ) → AreCounted result.0
        (counts_of files script trace keeper (K.fault_count out.old))
        (counts_of files script trace keeper (K.fault_count out.new)) }
{
    let Raced { report, seat } = raced;
    match write_report(alloc, &report, out) {
        Status::Done => (Status::Done, Some(seat)),
        other => (other, None),
    }
}

/// Races a job: its clients and the main actor act beside each other, and then the text of the report is written.
fn perform_race<R: Threads + Wait + Sync, P: Keeper, K: Sink, G: Gate>(
    rt: &R,
    alloc: Global,
    job: Job,
    keeper: &mut P,
    out: &mut K,
    gate: &G,
) -> (Status, Option<WriterSeat>)
    requires { IsFit job }
    ensures leaves { let seen = seen_by P.held P.TellsCrash P.moment P.MayLeave in
        PerformsRace IsAudited (course_of job) (K.taken out.old) (K.taken out.new) (seen keeper.old) (seen keeper.new) result.0 }
    ensures seat { let seen = seen_by P.held P.TellsCrash P.moment P.MayLeave in
        RaceGives (course_of job) (shown_as (K.taken out.old) (K.taken out.new) (seen keeper.old) (seen keeper.new)) result.0 result.1 }
    ensures counts { (files script trace : ℕ) → AreCounted result.0
        (counts_of files script trace (P.fault_count keeper.old) (K.fault_count out.old))
        (counts_of files script trace (P.fault_count keeper.new) (K.fault_count out.new)) }
{
    match race(rt, alloc, job.setup, &job.script, keeper, gate) {
        Ok(raced) => write_raced(alloc, raced, out),
        Err(RaceRefusal::Keeper) => (Status::ReadFault, None),
        Err(RaceRefusal::NoMemory) => (Status::NoMemory, None),
    }
}

/// `race`: reads the script, the tree and the store, runs the machine with each client on a thread, and writes the report. Its
/// parameters are those of `initsim`, without the words and the trace.
pub fn race_script<R: Threads + Wait + Sync, F: Files, S: Source, P: Keeper, K: Sink, G: Gate>(
    rt: &R,
    alloc: Global,
    files: &mut F,
    script: &mut S,
    keeper: &mut P,
    out: &mut K,
    gate: &G,
) -> (Status, Option<WriterSeat>)
    ensures script { IfSome (S.left script.old) (λ bytes. ScriptSays Whole bytes (S.left script.new) result.0) }
    ensures tree { (world : World) → IsWorldOf (F.tree files.old) world → TreeSays ToRun world result.0 }
    ensures store { IfSome (P.held keeper.old) (λ held. StoreSays held result.0) }
    ensures ends { let seen = seen_by P.held P.TellsCrash P.moment P.MayLeave in
        (trace : Option (Items ℕ)) (told : Told) →
        TellRun (sources_of (S.left script.old) (F.tree files.old) (P.held keeper.old) trace) told →
        Ends (Some Form.Race) told result.0 (shown_as (K.taken out.old) (K.taken out.new) (seen keeper.old) (seen keeper.new)) }
    ensures seat { GivesSeat (Some Form.Race) result.0 result.1 }
    ensures recorded { let seen = seen_by P.held P.TellsCrash P.moment P.MayLeave in
        (trace : Option (Items ℕ)) (told : Told) →
        TellRun (sources_of (S.left script.old) (F.tree files.old) (P.held keeper.old) trace) told →
        Records (Some Form.Race) told result.0 (shown_as (K.taken out.old) (K.taken out.new) (seen keeper.old) (seen keeper.new)) result.1 }
    ensures counts { (trace : ℕ) → AreCounted result.0
        (counts_of (F.fault_count files.old) (S.fault_count script.old) trace (P.fault_count keeper.old) (K.fault_count out.old))
        (counts_of (F.fault_count files.new) (S.fault_count script.new) trace (P.fault_count keeper.new) (K.fault_count out.new)) }
    ensures unwritten { IsAsBefore (K.taken out.old) (K.taken out.new) result.0 (P.fault_count keeper.old) (P.fault_count keeper.new) }
    ensures unkept { IsAsBefore (P.held keeper.old) (P.held keeper.new) result.0 (P.fault_count keeper.old) (P.fault_count keeper.new) }
    ensures formed { IsRunStatus result.0 }
{
    match prepare(alloc, Grammar::Whole, files, script, keeper) {
        Ok(job) => perform_race(rt, alloc, job, keeper, out, gate),
        Err(stop) => (stop.status(), None),
    }
}
