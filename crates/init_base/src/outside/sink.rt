//! Sinks of bytes.

ghost use Rattle.std.specs.Prelude.{◌≡◌, ℕ, List, Option};
ghost use Rattle.init_base.specs.Faults.{Counted, write_failed};
ghost use Rattle.init_base.specs.Outside.{TakesPrefix, TakesSome};

use super::refusal::IoRefusal;
use std::alloc::Global;

/// What bytes are written to.
pub trait Sink {
    // the bytes that were taken, where they are told
    ghost taken: { Self → Option (List ℕ) };

    ghost fault_count: { Self → ℕ };

    /// How often a write failed. It never falls.
    fn faults(&self) -> u64
        ensures { result ≡ fault_count self.now };

    /// Takes a prefix of `piece` and answers its length, which is at least 1 where `piece` isn't empty. An error
    /// takes nothing.
    fn write(&mut self, alloc: Global, piece: &[u8]) -> Result<usize, IoRefusal>
        ensures bound { TakesSome result piece.now }
        ensures taken { TakesPrefix (taken self.old) (taken self.new) result piece.now }
        ensures cause { Counted (write_failed result) (fault_count self.old) (fault_count self.new) };
}
