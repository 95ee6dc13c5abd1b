//! The text of a report.

ghost use Rattle.std.specs.Prelude.{ℕ};
ghost use Rattle.init_trace.specs.Report.{TextOf};
ghost use Rattle.job_reader.specs.Counts.{AreCounted, counts_of};
ghost use Rattle.job_reader.specs.Prepared.{WritesText};

use init_base::{IoRefusal, Sink};
use init_machine::Report;
use init_trace::print;
use job_reader::Status;
use std::alloc::Global;

/// Writes the text of a report.
pub fn write_report<K: Sink>(alloc: Global, report: &Report, out: &mut K) -> Status
    ensures writes { WritesText (TextOf report.now) (K.taken out.old) (K.taken out.new) result }
    ensures counts { (files script trace keeper : ℕ) → AreCounted result
        (counts_of files script trace keeper (K.fault_count out.old))
        (counts_of files script trace keeper (K.fault_count out.new)) }
{
    match print(alloc, report, out) {
        Ok(()) => Status::Done,
        Err(IoRefusal::Failed) => Status::WriteFault,
        Err(IoRefusal::NoMemory) => Status::NoMemory,
    }
}
