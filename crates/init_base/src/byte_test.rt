//! Tests of all bytes of a list, many at a time.

ghost use Rattle.std.specs.Prelude.{◌≡◌, ◌+◌, ◌≤◌, ℕ, Bool, length, take};
ghost use Rattle.std.specs.List.{list_all};

/// A test of one byte.
pub(crate) trait ByteTest {
    ghost holds: { ℕ → Bool };

    fn holds_of(byte: u8) -> bool
        ensures { result ≡ holds byte };
}

/// Whether the test holds of all bytes.
#[tactic(auto, using(crate::proofs::Blocks::all_of_both))]
pub(crate) fn all_hold<T: ByteTest>(bytes: &[u8]) -> bool
    ensures { result ≡ list_all T.holds bytes.now }
{
    if bytes.len() < 4 {
        return all_hold_in_turn::<T>(bytes);
    }
    if bytes.len() <= 8 {
        return hold_in_ends::<T, 4>(bytes);
    }
    if bytes.len() <= 16 {
        return hold_in_ends::<T, 8>(bytes);
    }
    let mut rest = bytes;
    while rest.len() > 32 {
        if !hold_in_front::<T, 16>(rest) {
            return false;
        }
        rest = &rest[16..];
    }
    hold_in_ends::<T, 16>(rest)
}

/// `all_hold`, one after another.
fn all_hold_in_turn<T: ByteTest>(bytes: &[u8]) -> bool
    ensures { result ≡ list_all T.holds bytes.now }
{
    let mut all = true;
    for byte in bytes {
        all = all & T::holds_of(*byte);
    }
    all
}

/// `all_hold`, where the first `N` bytes and the last `N`, which may overlap, are all bytes.
#[inline(always)]
#[tactic(auto, using(crate::proofs::Blocks::all_of_ends))]
fn hold_in_ends<T: ByteTest, const N: usize>(bytes: &[u8]) -> bool
    requires least { N ≤ length bytes.now }
    requires most { length bytes.now ≤ N + N }
    ensures { result ≡ list_all T.holds bytes.now }
{
    hold_in_front::<T, N>(bytes) & hold_in_front::<T, N>(&bytes[bytes.len() - N..])
}

/// `all_hold`, of the first `N` bytes. They are tested together.
#[inline(always)]
#[tactic(auto, using(crate::proofs::Blocks::all_of_next))]
fn hold_in_front<T: ByteTest, const N: usize>(bytes: &[u8]) -> bool
    requires { N ≤ length bytes.now }
    ensures { result ≡ list_all T.holds (take N bytes.now) }
{
    let mut all = true;
    for place in 0..N {
        all = all & T::holds_of(bytes[place]);
    }
    all
}
