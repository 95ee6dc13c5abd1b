//! Baselines that come from a source and go to a keeper.

ghost use Rattle.std.specs.Prelude.{IfSome, OnOk};
ghost use Rattle.init_base.specs.Faults.{Counted, write_failed};
ghost use Rattle.lint_findings.specs.Outside.{GivesBaseline, HoldsBaselineOf, is_read_fault};

use crate::finding::Finding;
use crate::printing::print;
use crate::reading::{Baseline, read};
use crate::refusal::BaselineRefusal;
use init_base::{IoRefusal, Keeper, ReadRefusal, Source, read_all};
use std::alloc::Global;

/// The most bytes of a baseline.
const MOST_BYTES: usize = 33_554_432;

/// Reads a baseline to its end. A fault comes only where the count of the source's faults rose.
pub fn load<S: Source>(alloc: Global, source: &mut S) -> Result<Baseline, BaselineRefusal>
    ensures baseline { IfSome (S.left source.old) (λ bytes. GivesBaseline bytes result) }
    ensures cause { Counted (is_read_fault result) (S.fault_count source.old) (S.fault_count source.new) }
{
    match read_all(alloc, source, MOST_BYTES) {
        Ok(text) => read(alloc, text.bytes()),
        Err(ReadRefusal::TooLarge) => Err(BaselineRefusal::TooLarge),
        Err(ReadRefusal::Failed) => Err(BaselineRefusal::ReadFault),
        Err(ReadRefusal::NoMemory) => Err(BaselineRefusal::NoMemory),
    }
}

/// Puts the baseline of findings in the place of what a keeper holds.
pub fn keep<K: Keeper>(alloc: Global, findings: &[Finding], keeper: &mut K) -> Result<(), IoRefusal>
    ensures held { OnOk result (HoldsBaselineOf findings.now (K.held keeper.old) (K.held keeper.new)) }
    ensures cause { Counted (write_failed result) (K.fault_count keeper.old) (K.fault_count keeper.new) }
{
    let Ok(text) = print(alloc, findings) else {
        return Err(IoRefusal::NoMemory);
    };
    keeper.replace(alloc, &text)
}
