//! Sources of bytes.

ghost use Rattle.std.specs.Prelude.{◌≡◌, ℕ, List, Option};
ghost use Rattle.std.specs.Io.{ReadsAtMost};
ghost use Rattle.std.specs.Io.KnownBytes.{ReadConsumes};
ghost use Rattle.init_base.specs.Faults.{Counted, source_failed};

use super::refusal::Failed;

/// What bytes are read from.
pub trait Source {
    // the bytes that are left, where they are told
    ghost left: { Self → Option (List ℕ) };

    ghost fault_count: { Self → ℕ };

    /// How often a read failed. It never falls.
    fn faults(&self) -> u64
        ensures { result ≡ fault_count self.now };

    /// Puts a prefix of what is left into `buf` and answers its length. 0 for a buffer that isn't empty means that
    /// nothing is left. An error takes nothing.
    fn read(&mut self, buf: &mut [u8]) -> Result<usize, Failed>
        ensures bound { ReadsAtMost result buf.new }
        ensures bytes { ReadConsumes (left self.old) (left self.new) result buf.new }
        ensures cause { Counted (source_failed result) (fault_count self.old) (fault_count self.new) };
}
