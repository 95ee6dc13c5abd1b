//! Counting of faults.

ghost use Rattle.std.specs.Prelude.{◌≡◌, Bool};
ghost use Rattle.init_base.specs.Faults.{Counted, read_failed, write_failed, source_failed};

use crate::outside::refusal::{Failed, IoRefusal, ReadRefusal};

/// The count after a call.
pub(crate) fn count(faults: u64, failed: bool) -> u64
    ensures { Counted failed faults result }
{
    if failed {
        faults.saturating_add(1)
    } else {
        faults
    }
}

pub(crate) fn has_source_failed(outcome: &Result<usize, Failed>) -> bool
    ensures { result ≡ source_failed outcome.now }
{
    outcome.is_err()
}

pub(crate) fn has_write_failed<T>(outcome: &Result<T, IoRefusal>) -> bool
    ensures { result ≡ write_failed outcome.now }
{
    matches!(outcome, Err(IoRefusal::Failed))
}

pub(crate) fn has_read_failed<T>(outcome: &Result<T, ReadRefusal>) -> bool
    ensures { result ≡ read_failed outcome.now }
{
    matches!(outcome, Err(ReadRefusal::Failed))
}
