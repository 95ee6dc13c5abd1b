//! `wire`: the machine and one client, whose messages it serves.

ghost use Rattle.std.specs.Prelude.{◌≡◌, ℕ, List as Items, Option, Some};
ghost use Rattle.command_line.specs.declared.form.Form.TheVariants as Form;
ghost use Rattle.init_driver.specs.Keeper.{seen_by};
ghost use Rattle.init_forms.specs.Outcome.{Ends, TellRun, Told, shown_as, sources_of};
ghost use Rattle.init_forms.specs.Serving.{PerformsWire};
ghost use Rattle.init_forms.specs.Top.{IsUnwritten};
ghost use Rattle.init_forms.specs.internal.Serving.{IsOfStream, status_after};
ghost use Rattle.init_wire.specs.Opening.{wire_script};
ghost use Rattle.job_reader.specs.Counts.{AreCounted, counts_of};
ghost use Rattle.job_reader.specs.Endings.{IsWireStatus};
ghost use Rattle.job_reader.specs.Prepared.{IsFit, course_of};

use init_base::{Files, Keeper, Sink, Source};
use init_machine::Limit;
use init_wire::{one_client, run_wire};
use job_reader::{Job, Status, prepare_with};
use prop_wire::WireRefusal;
use std::alloc::Global;

/// The status after a stream that isn't served to its end.
fn refused(refusal: WireRefusal) -> Status
    ensures { result ≡ status_after refusal }
{
    match refusal {
        WireRefusal::BadCommand { at, .. }
        | WireRefusal::BadLength { at, .. }
        | WireRefusal::Torn { at } => Status::BadWire { at },
        WireRefusal::TooLong { taken } => Status::TooLarge {
            limit: Limit::ScriptBytes,
            number: taken,
        },
        WireRefusal::ReadFault => Status::ReadFault,
        WireRefusal::WriteFault => Status::WriteFault,
        WireRefusal::Spent | WireRefusal::NoMemory => Status::NoMemory,
    }
}

/// Boots the machine of a job, and serves the messages that the source holds.
fn serve_job<S: Source, K: Sink>(alloc: Global, job: Job, messages: &mut S, out: &mut K) -> Status
    requires fit { IsFit job }
    requires script { job.script ≡ wire_script }
    ensures served { (bytes : Items ℕ) → S.left messages.old ≡ Some bytes
        → PerformsWire (course_of job).opening bytes (K.taken out.old) (K.taken out.new) result }
    ensures counts { (files trace keeper : ℕ) → AreCounted result
        (counts_of files (S.fault_count messages.old) trace keeper (K.fault_count out.old))
        (counts_of files (S.fault_count messages.new) trace keeper (K.fault_count out.new)) }
    ensures formed { IsOfStream result }
{
    let Job { setup, script } = job;
    match run_wire(alloc, setup, script.words, messages, out) {
        Ok(_) => Status::Done,
        Err(refusal) => refused(refusal),
    }
}

/// `wire`: reads the tree and the store, boots the machine with one client, and serves the client's messages, each of which is answered
/// before more is read. Its parameters are those of `initsim`, with the messages in the script's place.
pub fn serve_messages<F: Files, S: Source, P: Keeper, K: Sink>(
    alloc: Global,
    files: &mut F,
    messages: &mut S,
    keeper: &mut P,
    out: &mut K,
) -> Status
    ensures ends { let seen = seen_by P.held P.TellsCrash P.moment P.MayLeave in
        (trace : Option (Items ℕ)) (told : Told) →
        TellRun (sources_of (S.left messages.old) (F.tree files.old) (P.held keeper.old) trace) told →
        Ends (Some Form.Wire) told result (shown_as (K.taken out.old) (K.taken out.new) (seen keeper.old) (seen keeper.new)) }
    ensures counts { (trace : ℕ) → AreCounted result
        (counts_of (F.fault_count files.old) (S.fault_count messages.old) trace (P.fault_count keeper.old) (K.fault_count out.old))
        (counts_of (F.fault_count files.new) (S.fault_count messages.new) trace (P.fault_count keeper.new) (K.fault_count out.new)) }
    ensures unwritten { (trace : ℕ) → IsUnwritten (Some Form.Wire) (K.taken out.old) (K.taken out.new) result
        (counts_of (F.fault_count files.old) (S.fault_count messages.old) trace (P.fault_count keeper.old) (K.fault_count out.old))
        (counts_of (F.fault_count files.new) (S.fault_count messages.new) trace (P.fault_count keeper.new) (K.fault_count out.new)) }
    ensures held { P.held keeper.new ≡ P.held keeper.old }
    ensures formed { IsWireStatus result }
{
    let Ok(script) = one_client(alloc) else {
        return Status::NoMemory;
    };
    match prepare_with(alloc, script, files, keeper) {
        Ok(job) => serve_job(alloc, job, messages, out),
        Err(stop) => stop.status(),
    }
}
