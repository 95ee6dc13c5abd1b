//! The text of a verdict, and its writing.

ghost use Rattle.std.specs.Prelude.{◌≡◌, ℕ, ◌++◌, IfOk, OnOk};
ghost use Rattle.init_base.specs.Faults.{Counted, write_failed};
ghost use Rattle.init_trace.specs.Written.{Writes};
ghost use Rattle.init_forms.specs.Verdict.{verdict_text, why_text};
ghost use Rattle.job_reader.specs.Counts.{AreCounted, counts_of};
ghost use Rattle.job_reader.specs.Prepared.{WritesText};

use init_base::{IoRefusal, NoMemory, Sink};
use init_trace::{put, put_number, send};
use job_reader::Status;
use std::alloc::Global;
use trace_audit::{Verdict, Why};

fn why_name(why: Why) -> &'static [u8]
    ensures { result.now ≡ why_text why }
{
    match why {
        Why::Diagnostics => b"Diagnostics",
        Why::Clients => b"Clients",
        Why::Merge => b"Merge",
        Why::Legal => b"Legal",
        Why::Readings => b"Readings",
    }
}

/// The text of a verdict.
fn text_of(alloc: Global, verdict: Verdict) -> Result<Vec<u8>, NoMemory>
    ensures { IfOk result (λ text. text.items ≡ verdict_text verdict) }
{
    let mut text = Vec::new(alloc);
    match verdict {
        Verdict::Yes => put(&mut text, b"yes\n")?,
        Verdict::No { why, number } => put_fault(&mut text, why, number)?,
    }
    Ok(text)
}

/// Adds what is wrong first.
fn put_fault(line: &mut Vec<u8>, why: Why, number: u64) -> Result<(), NoMemory>
    ensures { OnOk result (line.new.items ≡ line.old.items ++ verdict_text (Verdict.No why number)) }
{
    put(line, b"no ")?;
    put(line, why_name(why))?;
    put(line, b" ")?;
    put_number(line, number)?;
    put(line, b"\n")
}

fn print_verdict<K: Sink>(alloc: Global, verdict: Verdict, out: &mut K) -> Result<(), IoRefusal>
    ensures written { Writes (K.taken out.old) (K.taken out.new) result (verdict_text verdict) }
    ensures cause { Counted (write_failed result) (K.fault_count out.old) (K.fault_count out.new) }
{
    let text = text_of(alloc, verdict)?;
    send(alloc, out, text.as_slice())
}

/// Writes the text of a verdict.
pub fn write_verdict<K: Sink>(alloc: Global, verdict: Verdict, out: &mut K) -> Status
    ensures writes { WritesText (verdict_text verdict) (K.taken out.old) (K.taken out.new) result }
    ensures counts { (files script trace keeper : ℕ) → AreCounted result
        (counts_of files script trace keeper (K.fault_count out.old))
        (counts_of files script trace keeper (K.fault_count out.new)) }
{
    match print_verdict(alloc, verdict, out) {
        Ok(()) => Status::Done,
        Err(IoRefusal::Failed) => Status::WriteFault,
        Err(IoRefusal::NoMemory) => Status::NoMemory,
    }
}
