//! Comparing bytes, eight at a time.

ghost use Rattle.std.specs.Prelude.{◌≡◌, ◌≢◌, ◌+◌, ◌<◌, ◌≤◌, length};
ghost use Rattle.std.specs.Bool.{MatchBool};
ghost use Rattle.std.specs.Str.{bytes_eq};
ghost use Rattle.std.specs.Int.{w32, w64, from_le_bytes};
ghost use Rattle.init_base.specs.internal.SameBytes.{AreSameIn, eight_at, four_at};

/// Whether bytes are the same. Lists of 4 to 32 bytes, as most names are, are compared word by word; words may overlap.
pub fn same_bytes(one: &[u8], other: &[u8]) -> bool
    ensures { result ≡ bytes_eq one.now other.now }
{
    let len = one.len();
    if len != other.len() {
        return false;
    }
    if len < 4 || len > 32 {
        return one == other;
    }
    if len < 8 {
        return same_halves(one, other);
    }
    same_words(one, other)
}

/// Whether 4 to 7 bytes are the same.
fn same_halves(one: &[u8], other: &[u8]) -> bool
    requires least { 4 ≤ length one.now }
    requires most { length one.now < 8 }
    requires many { length one.now ≡ length other.now }
    ensures { result ≡ bytes_eq one.now other.now }
{
    same_half(one, other, 0) & same_half(one, other, one.len() - 4)
}

/// Whether the four bytes from a place on are the same.
fn same_half(one: &[u8], other: &[u8], at: usize) -> bool
    requires one { at + 4 ≤ length one.now }
    requires other { at + 4 ≤ length other.now }
    ensures { MatchBool result (AreSameIn at (at + 4) one.now other.now) (one.now ≢ other.now) }
{
    half_at(one, at) == half_at(other, at)
}

/// The four bytes from a place on, in one half of a word.
fn half_at(bytes: &[u8], at: usize) -> u32
    requires { at + 4 ≤ length bytes.now }
    ensures { result ≡ from_le_bytes w32 (four_at bytes.now at) }
{
    u32::from_le_bytes([bytes[at], bytes[at + 1], bytes[at + 2], bytes[at + 3]])
}

/// Whether 8 to 32 bytes are the same.
fn same_words(one: &[u8], other: &[u8]) -> bool
    requires most { length one.now ≤ 32 }
    requires least { 8 ≤ length one.now }
    requires many { length one.now ≡ length other.now }
    ensures { result ≡ bytes_eq one.now other.now }
{
    let last = one.len() - 8;
    same_word(one, other, 0)
        & same_word(one, other, last.min(8))
        & same_word(one, other, last.min(16))
        & same_word(one, other, last)
}

/// Whether the eight bytes from a place on are the same.
fn same_word(one: &[u8], other: &[u8], at: usize) -> bool
    requires one { at + 8 ≤ length one.now }
    requires other { at + 8 ≤ length other.now }
    ensures { MatchBool result (AreSameIn at (at + 8) one.now other.now) (one.now ≢ other.now) }
{
    word_at(one, at) == word_at(other, at)
}

/// The eight bytes from a place on, in one word.
fn word_at(bytes: &[u8], at: usize) -> u64
    requires { at + 8 ≤ length bytes.now }
    ensures { result ≡ from_le_bytes w64 (eight_at bytes.now at) }
{
    u64::from_le_bytes([
        bytes[at],
        bytes[at + 1],
        bytes[at + 2],
        bytes[at + 3],
        bytes[at + 4],
        bytes[at + 5],
        bytes[at + 6],
        bytes[at + 7],
    ])
}
