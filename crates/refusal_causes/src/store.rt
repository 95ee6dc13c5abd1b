//! Why a line of the persistent store's text is bad, in words. What is said is defined in `specs/Store.antt`.

ghost use Rattle.std.specs.Prelude.{◌≡◌, ◌≤◌, ◌==◌, ℕ, IfOk, List as Bytes, MatchOption, if◌then◌else◌, length};
ghost use Rattle.persist_file.specs.Causes.{IsRefused, IsUnfitAt};
ghost use Rattle.persist_file.specs.declared.refusal.StoreCause.{StoreCause as AnyCause};
ghost use Rattle.refusal_causes.specs.Store.{IsStoreFault};
ghost use Rattle.refusal_causes.specs.Store as spec;

pub mod cause;
mod words;

use crate::lines::lines;
use cause::StoreFault;
use init_base::{List, NoMemory, Text};
use persist_file::{
    StoreCause, StoreRefusal, Version, Words, each_text_has_one_reading, version_of, words_in,
};
use std::alloc::Global;
use words::{name_fault, name_in, order_fault, value_fault};

/// What is wrong with the line with this number, where it is the first of a store's text that doesn't fit, from 1. None exactly
/// where it isn't.
#[tactic(auto, using(crate::proofs::StoreFaults::is_told))]
pub fn store_cause(alloc: Global, bytes: &[u8], number: u32) -> Result<Option<StoreFault>, NoMemory>
    requires { length bytes.now ≤ 33554432 }
    ensures { IfOk result (λ fault. MatchOption fault ((why : AnyCause) → ¬ IsUnfitAt bytes.now number why)
        (IsStoreFault bytes.now number)) }
{
    match first_cause(alloc, bytes, number)? {
        Some(cause) => Ok(Some(fault_of(alloc, bytes, number, cause)?)),
        None => Ok(None),
    }
}

/// Why the line with this number doesn't fit, where it is the first that doesn't.
fn first_cause(alloc: Global, bytes: &[u8], number: u32) -> Result<Option<StoreCause>, NoMemory>
    requires { length bytes.now ≤ 33554432 }
    ensures { IfOk result (λ cause. MatchOption cause ((why : AnyCause) → ¬ IsUnfitAt bytes.now number why)
        (IsUnfitAt bytes.now number)) }
{
    match refusal_of(alloc, bytes) {
        Some(refusal) => cause_at(refusal, number),
        None => Ok(None),
    }
}

/// Why bytes are no store.
fn refusal_of(alloc: Global, bytes: &[u8]) -> Option<StoreRefusal>
    requires { length bytes.now ≤ 33554432 }
    ensures { MatchOption result ((number : ℕ) (why : AnyCause) → ¬ IsUnfitAt bytes.now number why) (IsRefused bytes.now) }
{
    each_text_has_one_reading();
    persist_file::read(alloc, bytes).err()
}

/// The cause of a refusal that is of this line.
fn cause_at(refusal: StoreRefusal, number: u32) -> Result<Option<StoreCause>, NoMemory>
    ensures { (bytes : Bytes ℕ) → IsRefused bytes refusal →
        IfOk result (λ cause. MatchOption cause ((why : AnyCause) → ¬ IsUnfitAt bytes number why) (IsUnfitAt bytes number)) }
{
    each_text_has_one_reading();
    match refusal {
        StoreRefusal::BadLine { line, cause } => Ok(at_line(line, cause, number)),
        StoreRefusal::NoMemory => Err(NoMemory),
    }
}

/// The cause of a line, if it is this one.
fn at_line(line: u32, cause: StoreCause, number: u32) -> Option<StoreCause>
    ensures { result ≡ (if line == number then Some cause else None) }
{
    if line == number { Some(cause) } else { None }
}

/// What is wrong with a line, by its cause.
fn fault_of(
    alloc: Global,
    bytes: &[u8],
    number: u32,
    cause: StoreCause,
) -> Result<StoreFault, NoMemory>
    ensures { IfOk result (λ fault. fault ≡ spec.fault_of bytes.now number cause) }
{
    let lines = lines(alloc, bytes)?;
    let is_cut = lacks_end(bytes, lines.len(), number);
    fault_at(alloc, &lines, is_cut, number, cause)
}

fn fault_at(
    alloc: Global,
    lines: &List<Text>,
    is_cut: bool,
    number: u32,
    cause: StoreCause,
) -> Result<StoreFault, NoMemory>
    ensures { IfOk result (λ fault. fault ≡ spec.fault_at lines.now is_cut number cause) }
{
    let version = version_in(lines);
    match cause {
        StoreCause::Head => Ok(StoreFault::NoHead),
        StoreCause::Shape => Ok(shape_fault(version, is_cut)),
        _ => match words_in(version, line_at(lines, number)) {
            Some(words) => {
                let earlier = number.saturating_sub(1);
                let before = name_in(version, line_at(lines, earlier));
                words_fault(alloc, version, before, earlier, words, cause)
            }
            None => Ok(shape_fault(version, is_cut)),
        },
    }
}

/// What is wrong with the words of a line behind one that has this name and number.
fn words_fault(
    alloc: Global,
    version: Version,
    before: &[u8],
    earlier: u32,
    words: Words<'_>,
    cause: StoreCause,
) -> Result<StoreFault, NoMemory>
    ensures { IfOk result (λ fault. fault ≡ spec.words_fault version before.now earlier
        (record { name = words.entry.name.now; kind = words.entry.kind.now; value = words.entry.value.now }) cause) }
{
    match cause {
        StoreCause::Order => order_fault(alloc, before, earlier, words.name),
        StoreCause::Kind => Ok(StoreFault::NoKind {
            given: Text::of(alloc, words.kind)?,
        }),
        StoreCause::Value => value_fault(alloc, version, words.kind, words.value),
        _ => name_fault(alloc, words.name),
    }
}

/// What is wrong with a line that hasn't its version's words, or its end.
fn shape_fault(version: Version, is_cut: bool) -> StoreFault
    ensures { result ≡ spec.shape_fault version is_cut }
{
    if is_cut {
        StoreFault::NoEnd
    } else {
        StoreFault::NoWords { version }
    }
}

/// The version of a text. One whose first line is that of none counts as version 1.
fn version_in(lines: &List<Text>) -> Version
    ensures { result ≡ spec.version_in lines.now }
{
    match version_of(line_at(lines, 1)) {
        Some(version) => version,
        None => Version::First,
    }
}

/// The line with a number, from 1; the empty one where there is none.
fn line_at(lines: &List<Text>, number: u32) -> &[u8]
    ensures { result.now ≡ spec.line_at lines.now number }
{
    match lines.at(number.saturating_sub(1) as usize) {
        Some(line) => line.bytes(),
        None => b"",
    }
}

/// Whether the line with this number is the last of so many, and the text doesn't end with LF.
fn lacks_end(bytes: &[u8], count: usize, number: u32) -> bool
    ensures { result ≡ spec.lacks_end bytes.now count number }
{
    !bytes.ends_with(b"\n") && count == number as usize
}
