//! Words: numbers in four bytes, lowest first.

ghost use Rattle.std.specs.Prelude.{◌≡◌, ◌+◌, ◌≤◌, length};
ghost use Rattle.std.specs.Int.{w32, to_le_bytes};
ghost use Rattle.wire_format.specs.Format.{word_from};

/// The command of form one.
pub(crate) const FIRST: u32 = 1;

/// The command of form two.
pub(crate) const SECOND: u32 = 0x0002_0001;

/// The word that begins at a place.
pub(crate) fn word_from(bytes: &[u8], at: usize) -> u32
    requires { at + 4 ≤ length bytes.now }
    ensures { result ≡ word_from bytes.now at }
{
    u32::from_le_bytes([bytes[at], bytes[at + 1], bytes[at + 2], bytes[at + 3]])
}
