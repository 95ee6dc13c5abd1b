//! The parts of a serial.

ghost use Rattle.std.specs.Prelude.{◌≡◌};
ghost use Rattle.init_machine.specs.Serial as spec;
ghost use Rattle.init_machine.specs.Serial as spec;

use init_base::Text;

/// The weight of a serial's top byte.
const TOP: u64 = 1 << 56;

/// The top byte of a value's serial.
pub fn top_byte(value: &Text) -> u64
    ensures { result ≡ spec.top_byte value.now }
{
    if value.len() <= 91 {
        value.len() as u64
    } else {
        255
    }
}

pub fn top_in(word: u64) -> u64
    ensures { result ≡ spec.top_in word }
{
    word / TOP
}

/// A serial without its top byte.
pub fn rank(word: u64) -> u64
    ensures { result ≡ spec.rank word }
{
    word % TOP
}

/// The number of the set of a serial.
pub fn number_in(word: u64) -> u64
    ensures { result ≡ spec.number_in word }
{
    rank(word) / 2
}

pub fn is_dirty(word: u64) -> bool
    ensures { result ≡ spec.is_dirty word }
{
    word % 2 == 1
}
