//! The top call: all that the program does.

ghost use Rattle.std.specs.Prelude.{◌≡◌, ℕ, IfSome, List as Items, Option, Some};
ghost use Rattle.init_driver.specs.Keeper.{seen_by};
ghost use Rattle.init_trace.specs.Report.{DiagnosticsText};
ghost use Rattle.command_line.specs.Form as spec;
ghost use Rattle.command_line.specs.declared.form.Form.TheVariants as Form;
ghost use Rattle.init_forms.specs.Outcome.{Ends, TellRun, Told, shown_as, sources_of};
ghost use Rattle.init_forms.specs.Promise.{Promise, objects_of};
ghost use Rattle.init_forms.specs.Seats.{GivesSeat, Records, RunGives};
ghost use Rattle.init_forms.specs.Top.{IsAsBefore};
ghost use Rattle.job_reader.specs.Check.{CheckWrites, IsCheckStatus};
ghost use Rattle.job_reader.specs.Counts.{AreCounted, counts_of};
ghost use Rattle.job_reader.specs.Endings.{IsRunStatus};
ghost use Rattle.job_reader.specs.Prepared.{IsFit, Performs, WritesText, course_of};
ghost use Rattle.job_reader.specs.Script.{ScriptSays};
ghost use Rattle.job_reader.specs.Store.{StoreSays};
ghost use Rattle.job_reader.specs.Tree.{IsWorldOf, TreeSays};
ghost use Rattle.job_reader.specs.Tree.Purpose.{ToCheck, ToRun};
ghost use Rattle.job_reader.specs.declared.grammar.Grammar.TheVariants.{Whole};
ghost use Rattle.rc_import.specs.World.{World};

use crate::auditing::audit_trace;
use crate::dispatching::dispatch_script;
use crate::racing::race_script;
use crate::serving::serve_messages;
use crate::soaking::soak;
use command_line::{Form, WordsRefusal, read_words};
use init_base::{Files, IoRefusal, Keeper, List, Sink, Source, Text};
use init_driver::{DriveRefusal, run};
use init_machine::Diagnostic;
use init_race::Gate;
use init_trace::print_diagnostics;
use job_reader::{Grammar, Job, Status, diagnose, prepare};
use property_area::WriterSeat;
use std::alloc::Global;
use std::sync::Wait;
use std::thread::Threads;

/// Runs a job: the machine takes the script's inputs, and the text of the report is written.
fn perform<P: Keeper, K: Sink>(
    alloc: Global,
    job: Job,
    keeper: &mut P,
    out: &mut K,
) -> (Status, Option<WriterSeat>)
    requires { IsFit job }
    ensures leaves { let seen = seen_by P.held P.TellsCrash P.moment P.MayLeave in
        Performs (course_of job) (K.taken out.old) (K.taken out.new) (seen keeper.old) (seen keeper.new) result.0 }
    ensures seat { RunGives (course_of job) result.0 result.1 }
    ensures counts { (files script trace : ℕ) → AreCounted result.0
        (counts_of files script trace (P.fault_count keeper.old) (K.fault_count out.old))
        (counts_of files script trace (P.fault_count keeper.new) (K.fault_count out.new)) }
{
    match run(alloc, job.setup, &job.script, keeper, out) {
        Ok(seat) => (Status::Done, Some(seat)),
        Err(DriveRefusal::Keeper) => (Status::ReadFault, None),
        Err(DriveRefusal::Write) => (Status::WriteFault, None),
        Err(DriveRefusal::NoMemory) => (Status::NoMemory, None),
    }
}

/// `run`: reads the script, the tree and the store, runs the machine, and writes the report.
fn run_script<F: Files, S: Source, P: Keeper, K: Sink>(
    alloc: Global,
    files: &mut F,
    script: &mut S,
    keeper: &mut P,
    out: &mut K,
) -> (Status, Option<WriterSeat>)
    ensures script { IfSome (S.left script.old) (λ bytes. ScriptSays Whole bytes (S.left script.new) result.0) }
    ensures tree { (world : World) → IsWorldOf (F.tree files.old) world → TreeSays ToRun world result.0 }
    ensures store { IfSome (P.held keeper.old) (λ held. StoreSays held result.0) }
    ensures ends { let seen = seen_by P.held P.TellsCrash P.moment P.MayLeave in
        (trace : Option (Items ℕ)) (told : Told) →
        TellRun (sources_of (S.left script.old) (F.tree files.old) (P.held keeper.old) trace) told →
        Ends (Some Form.Run) told result.0 (shown_as (K.taken out.old) (K.taken out.new) (seen keeper.old) (seen keeper.new)) }
    ensures seat { GivesSeat (Some Form.Run) result.0 result.1 }
    ensures recorded { let seen = seen_by P.held P.TellsCrash P.moment P.MayLeave in
        (trace : Option (Items ℕ)) (told : Told) →
        TellRun (sources_of (S.left script.old) (F.tree files.old) (P.held keeper.old) trace) told →
        Records (Some Form.Run) told result.0 (shown_as (K.taken out.old) (K.taken out.new) (seen keeper.old) (seen keeper.new)) result.1 }
    ensures counts { (trace : ℕ) → AreCounted result.0
        (counts_of (F.fault_count files.old) (S.fault_count script.old) trace (P.fault_count keeper.old) (K.fault_count out.old))
        (counts_of (F.fault_count files.new) (S.fault_count script.new) trace (P.fault_count keeper.new) (K.fault_count out.new)) }
    ensures unwritten { IsAsBefore (K.taken out.old) (K.taken out.new) result.0 (P.fault_count keeper.old) (P.fault_count keeper.new) }
    ensures unkept { IsAsBefore (P.held keeper.old) (P.held keeper.new) result.0 (P.fault_count keeper.old) (P.fault_count keeper.new) }
    ensures formed { IsRunStatus result.0 }
{
    match prepare(alloc, Grammar::Whole, files, script, keeper) {
        Ok(job) => perform(alloc, job, keeper, out),
        Err(stop) => (stop.status(), None),
    }
}

/// Writes the diagnostics alone.
fn write_diagnostics<K: Sink>(alloc: Global, diagnostics: &List<Diagnostic>, out: &mut K) -> Status
    ensures writes { WritesText (DiagnosticsText diagnostics.now) (K.taken out.old) (K.taken out.new) result }
    ensures counts { (files script trace keeper : ℕ) → AreCounted result
        (counts_of files script trace keeper (K.fault_count out.old))
        (counts_of files script trace keeper (K.fault_count out.new)) }
{
    match print_diagnostics(alloc, diagnostics, out) {
        Ok(()) => Status::Done,
        Err(IoRefusal::Failed) => Status::WriteFault,
        Err(IoRefusal::NoMemory) => Status::NoMemory,
    }
}

/// `check`: reads the build files and the rc files, and writes what is wrong in them.
fn check<F: Files, K: Sink>(alloc: Global, files: &mut F, out: &mut K) -> Status
    ensures tree { (world : World) → IsWorldOf (F.tree files.old) world → TreeSays ToCheck world result }
    ensures writes { (world : World) → IsWorldOf (F.tree files.old) world
        → CheckWrites world (K.taken out.old) (K.taken out.new) result }
    ensures counts { (script trace keeper : ℕ) → AreCounted result
        (counts_of (F.fault_count files.old) script trace keeper (K.fault_count out.old))
        (counts_of (F.fault_count files.new) script trace keeper (K.fault_count out.new)) }
    ensures unwritten { (keeper : ℕ) → IsAsBefore (K.taken out.old) (K.taken out.new) result keeper keeper }
    ensures formed { IsCheckStatus result }
{
    match diagnose(alloc, files) {
        Ok(diagnostics) => write_diagnostics(alloc, &diagnostics, out),
        Err(stop) => stop.status(),
    }
}

/// Does all that the program does. `words` are those of the command line, without the program's own name; the status is
/// `Usage` exactly where they have no form.
///
/// `run ROOT SCRIPT` reads the script, the tree's policy, build files and rc files, and the persistent store, in this order;
/// the first refusal ends it. Then it runs the documented machine, and writes the text of the report entry by entry: the
/// diagnostics of the tree, the one legal history of the script's inputs, and what the clients read. `race ROOT SCRIPT` reads
/// the same, and runs the machine with the main actor and each client on a thread of its own. Then it writes the text of a
/// report that the audit answers Yes to: some order of all requests, which keeps each actor's own, is its history.
/// `dispatch ROOT SCRIPT` reads the same, of a script whose clients only set. The machine takes the boot and the main actor's
/// inputs, and then one worker serves all clients' sets, which sessions on threads push into a queue; its report is so too, with
/// the main actor's entries first. `wire ROOT MESSAGES` reads the tree and the store, boots the machine with one client of the
/// domain `shell`, and then reads the client's messages from `script`; each is a set, whose reply is written before more is read.
/// `check ROOT` reads the build files and the rc files alone, and writes their diagnostics. `audit ROOT SCRIPT TRACE` reads what a run
/// reads, and then the trace, and writes whether the machine can have written it, or what is wrong in it first. `soak N` reads
/// nothing: it generates a tree and a script of so many services, runs them as `run` does with a store that isn't kept, and writes
/// the summary of the report in its place.
///
/// How the call ends is said of what is told: the status, what the sink took, and what the keeper holds, or may leave after a
/// crash, are those of an outcome that words, script, tree, store and trace come to, the only one but with `race` and `dispatch`;
/// unless a count of faults rose, or memory ran out: then nothing is written, or a prefix of the outcome's text, and the keeper stands
/// as at the last entry that is written whole, or at the next one. In a race, as in a dispatch, the keeper is given its text before
/// anything is written, so nothing is where it fails. A refusal is that of a reader which refuses what is told, where those before it
/// don't. With `wire` all replies to the messages before the first bad byte are written. (`Promise` of `specs/Promise.antt` has these
/// sentences, and what holds where nothing is told.)
///
/// A run, a race or a soak that is done gives the seat of the area's writer, which has recorded the report that was written, or whose
/// summary was. A check leaves the script and the keeper alone, `wire` what the keeper holds, and a soak all but the sink; no form
/// but `audit` touches the trace.
///
/// With `race` and `dispatch` alone the call may wait, and the clauses hold if it returns. `rt` makes its threads, and each actor of a
/// race passes `gate` before and after each of its inputs and requests. The parameters are all that the program has of the system,
/// each by itself, so that the clauses say of each what it gave or took.
pub fn initsim<
    R: Threads + Wait + Sync,
    F: Files,
    S: Source,
    T: Source,
    P: Keeper,
    K: Sink,
    G: Gate,
>(
    rt: &R,
    alloc: Global,
    words: &List<Text>,
    files: &mut F,
    script: &mut S,
    trace: &mut T,
    keeper: &mut P,
    out: &mut K,
    gate: &G,
) -> (Status, Option<WriterSeat>)
    ensures promise { let seen = seen_by P.held P.TellsCrash P.moment P.MayLeave in
        let before = objects_of (F.tree files.old) (S.left script.old) (T.left trace.old) (seen keeper.old) (K.taken out.old)
        (counts_of (F.fault_count files.old) (S.fault_count script.old) (T.fault_count trace.old)
        (P.fault_count keeper.old) (K.fault_count out.old)) in
        let after = objects_of (F.tree files.new) (S.left script.new) (T.left trace.new) (seen keeper.new) (K.taken out.new)
        (counts_of (F.fault_count files.new) (S.fault_count script.new) (T.fault_count trace.new)
        (P.fault_count keeper.new) (K.fault_count out.new)) in
        Promise (spec.form_of words.now) before after result.0 result.1 }
    ensures unread { spec.form_of words.now ≡ Some Form.Check → script.new ≡ script.old }
    ensures unloaded { spec.form_of words.now ≡ Some Form.Check → keeper.new ≡ keeper.old }
    ensures soaked { (services : ℕ) → spec.form_of words.now ≡ Some (Form.Soak services) →
        (files.new ≡ files.old) × (script.new ≡ script.old) × (keeper.new ≡ keeper.old) }
    ensures untraced { ¬ (spec.form_of words.now ≡ Some Form.Audit) → trace.new ≡ trace.old }
{
    match read_words(alloc, words) {
        Ok(Form::Run) => run_script(alloc, files, script, keeper, out),
        Ok(Form::Race) => race_script(rt, alloc, files, script, keeper, out, gate),
        Ok(Form::Dispatch) => (dispatch_script(rt, alloc, files, script, keeper, out), None),
        Ok(Form::Wire) => (serve_messages(alloc, files, script, keeper, out), None),
        Ok(Form::Check) => (check(alloc, files, out), None),
        Ok(Form::Audit) => (audit_trace(alloc, files, script, trace, keeper, out), None),
        Ok(Form::Soak { services }) => soak(alloc, services, out),
        Err(WordsRefusal::Usage) => (Status::Usage, None),
        Err(WordsRefusal::NoMemory) => (Status::NoMemory, None),
    }
}
