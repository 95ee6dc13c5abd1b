//! `soak`: the machine over a generated boot, of whose report the summary is written.

ghost use Rattle.std.specs.Prelude.{◌≡◌, ◌≤◌, ℕ, [], IfOk, Some};
ghost use Rattle.init_base.specs.Faults.{Counted, write_failed};
ghost use Rattle.init_trace.specs.Written.{Writes};
ghost use Rattle.init_forms.specs.Outcome.{TellRun, Told, generated_sources};
ghost use Rattle.init_forms.specs.Seats.{GivesOwn, IsGiven, RunGives};
ghost use Rattle.init_forms.specs.SoakEnds.{EndsSoak};
ghost use Rattle.init_forms.specs.Soaking.{generated_script, generated_tree, soak_text};
ghost use Rattle.init_forms.specs.Top.{CanRun, CanSoak, IsAsBefore};
ghost use Rattle.job_reader.specs.Counts.{AreCounted, IsDoneUnlessRisen, counts_of};
ghost use Rattle.job_reader.specs.Endings.{IsRunStatus};
ghost use Rattle.job_reader.specs.Prepared.{IsFit, WritesText, course_of};
ghost use Rattle.job_reader.specs.Tree.{IsWorldOf};
ghost use Rattle.rc_import.specs.World.{World};
ghost use Rattle.soak_summary.specs.Summary.{SummaryText};

use init_base::{IoRefusal, List, NoMemory, Sink, SteadyFiles, SteadyKeeper, SteadySource, Text};
use init_driver::count;
use init_trace::send;
use job_reader::{Grammar, Job, Status, prepare};
use property_area::WriterSeat;
use script_lang::{Generated, generate};
use soak_summary::Summary;
use std::alloc::Global;

const ROOT_PATH: &[u8] = b"/system/etc/init/hw/init.rc";

const CONTEXTS_PATH: &[u8] = b"/property_contexts";

const ALLOW_PATH: &[u8] = b"/property_allow";

/// What is read of a generated boot.
#[derive(Drop)]
struct Boot {
    files: SteadyFiles,
    script: SteadySource,
    keeper: SteadyKeeper,
}

/// Generates a boot, with a store without pairs.
#[tactic(auto, unfolding(crate::specs::Soaking::generated_tree, crate::specs::Soaking::generated_script))]
fn boot_of(alloc: Global, services: u32) -> Result<Boot, NoMemory>
    requires some { 1 ≤ services }
    requires few { services ≤ 1000 }
    ensures files { IfOk result (λ boot. boot.files ≡ generated_tree services) }
    ensures script { IfOk result (λ boot. boot.script ≡ generated_script services) }
    ensures keeper { IfOk result (λ boot. boot.keeper ≡ []) }
{
    let Generated {
        root,
        contexts,
        allow,
        script,
    } = generate(alloc, services)?;
    let mut entries = List::new(alloc);
    entries.push((Text::of(alloc, ROOT_PATH)?, root))?;
    entries.push((Text::of(alloc, CONTEXTS_PATH)?, contexts))?;
    entries.push((Text::of(alloc, ALLOW_PATH)?, allow))?;
    Ok(Boot {
        files: SteadyFiles::new(entries),
        script: SteadySource::new(script),
        keeper: SteadyKeeper::new(Text::empty()),
    })
}

fn print_summary<K: Sink>(alloc: Global, summary: &Summary, out: &mut K) -> Result<(), IoRefusal>
    ensures written { Writes (K.taken out.old) (K.taken out.new) result (SummaryText summary.now) }
    ensures cause { Counted (write_failed result) (K.fault_count out.old) (K.fault_count out.new) }
{
    let text = summary.text(alloc)?;
    send(alloc, out, text.bytes())
}

/// Writes the text of a summary.
fn write_summary<K: Sink>(alloc: Global, summary: &Summary, out: &mut K) -> Status
    ensures writes { WritesText (SummaryText summary.now) (K.taken out.old) (K.taken out.new) result }
    ensures counts { (files script trace keeper : ℕ) → AreCounted result
        (counts_of files script trace keeper (K.fault_count out.old))
        (counts_of files script trace keeper (K.fault_count out.new)) }
{
    match print_summary(alloc, summary, out) {
        Ok(()) => Status::Done,
        Err(IoRefusal::Failed) => Status::WriteFault,
        Err(IoRefusal::NoMemory) => Status::NoMemory,
    }
}

/// Writes a summary, and gives the seat of the area's writer where it is written whole.
fn write_counted<K: Sink>(
    alloc: Global,
    summary: Summary,
    seat: WriterSeat,
    out: &mut K,
) -> (Status, Option<WriterSeat>)
    ensures writes { WritesText (SummaryText summary) (K.taken out.old) (K.taken out.new) result.0 }
    ensures seat { GivesOwn seat result.0 result.1 }
    ensures counts { (files script trace keeper : ℕ) → AreCounted result.0
        (counts_of files script trace keeper (K.fault_count out.old))
        (counts_of files script trace keeper (K.fault_count out.new)) }
{
    match write_summary(alloc, &summary, out) {
        Status::Done => (Status::Done, Some(seat)),
        other => (other, None),
    }
}

/// Runs a job, and writes the summary of its report.
fn perform_soak<K: Sink>(
    alloc: Global,
    services: u32,
    job: Job,
    out: &mut K,
) -> (Status, Option<WriterSeat>)
    requires { IsFit job }
    ensures writes { WritesText (soak_text services (course_of job)) (K.taken out.old) (K.taken out.new) result.0 }
    ensures seat { RunGives (course_of job) result.0 result.1 }
    ensures counts { (files script trace keeper : ℕ) → AreCounted result.0
        (counts_of files script trace keeper (K.fault_count out.old))
        (counts_of files script trace keeper (K.fault_count out.new)) }
{
    match count(alloc, job.setup, &job.script) {
        Ok((tally, seat)) => write_counted(alloc, Summary { services, tally }, seat, out),
        Err(NoMemory) => (Status::NoMemory, None),
    }
}

/// Reads a generated boot as a run reads what the outside has, runs it, and writes the summary of its report.
fn soak_boot<K: Sink>(
    alloc: Global,
    services: u32,
    boot: &mut Boot,
    out: &mut K,
) -> (Status, Option<WriterSeat>)
    requires files { boot.old.files ≡ generated_tree services }
    requires script { boot.old.script ≡ generated_script services }
    requires keeper { boot.old.keeper ≡ [] }
    ensures ends { (told : Told) → TellRun (generated_sources services) told →
        EndsSoak services told (K.taken out.old) (K.taken out.new) result.0 result.1 }
    ensures seat { IsGiven result.0 result.1 }
    ensures counts { (files script trace keeper : ℕ) → AreCounted result.0
        (counts_of files script trace keeper (K.fault_count out.old))
        (counts_of files script trace keeper (K.fault_count out.new)) }
    ensures unwritten { (keeper : ℕ) → IsAsBefore (K.taken out.old) (K.taken out.new) result.0 keeper keeper }
    ensures formed { IsRunStatus result.0 }
    ensures complete { CanSoak services → (files script trace keeper : ℕ) → IsDoneUnlessRisen result.0
        (counts_of files script trace keeper (K.fault_count out.old))
        (counts_of files script trace keeper (K.fault_count out.new)) }
{
    match prepare(
        alloc,
        Grammar::Whole,
        &mut boot.files,
        &mut boot.script,
        &mut boot.keeper,
    ) {
        Ok(job) => perform_soak(alloc, services, job, out),
        Err(stop) => (stop.status(), None),
    }
}

/// `soak`: generates a boot of so many services, runs it, and writes the summary of its report.
pub fn soak<K: Sink>(alloc: Global, services: u32, out: &mut K) -> (Status, Option<WriterSeat>)
    requires some { 1 ≤ services }
    requires few { services ≤ 1000 }
    ensures ends { (told : Told) → TellRun (generated_sources services) told →
        EndsSoak services told (K.taken out.old) (K.taken out.new) result.0 result.1 }
    ensures seat { IsGiven result.0 result.1 }
    ensures counts { (files script trace keeper : ℕ) → AreCounted result.0
        (counts_of files script trace keeper (K.fault_count out.old))
        (counts_of files script trace keeper (K.fault_count out.new)) }
    ensures unwritten { (keeper : ℕ) → IsAsBefore (K.taken out.old) (K.taken out.new) result.0 keeper keeper }
    ensures formed { IsRunStatus result.0 }
    ensures complete { CanSoak services → (files script trace keeper : ℕ) → IsDoneUnlessRisen result.0
        (counts_of files script trace keeper (K.fault_count out.old))
        (counts_of files script trace keeper (K.fault_count out.new)) }
{
    match boot_of(alloc, services) {
        Ok(mut boot) => soak_boot(alloc, services, &mut boot, out),
        Err(NoMemory) => (Status::NoMemory, None),
    }
}
