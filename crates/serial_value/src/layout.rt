//! The serial of a cell. Its layout is `specs/Serial.antt` of `init_machine`.

ghost use Rattle.std.specs.Prelude.{◌≡◌, ◌<◌, ◌≤◌, ◌⊎◌, ◌^◌, false, length};
ghost use Rattle.init_machine.specs.Serial.{top_byte as top_byte_of, clean_serial, top_in, number_in, is_dirty};

/// The place value of a serial's top byte.
pub(crate) const TOP_UNIT: u64 = 1 << 56;

/// The most bytes of a value in a short cell.
pub(crate) const SHORT: usize = 91;

/// The top byte of a long cell's serial.
pub(crate) const LONG: u64 = 255;

/// The top byte of the serial of a value's cell: its length, or, where that is past 91 bytes, 255.
pub fn top_byte(value: &[u8]) -> u8
    ensures value { result ≡ top_byte_of value.now }
    ensures kind { (result ≤ 91) ⊎ (result ≡ 255) }
{
    if value.len() <= SHORT {
        value.len() as u8
    } else {
        LONG as u8
    }
}

/// The clean serial of the set with this number, whose value has this length, or, where that is 255, more than 91 bytes.
#[tactic(auto, using(crate::specs::impl_laws::Serials::layout))]
pub fn serial(len: u8, number: u64) -> u64
    requires len { (len ≤ 91) ⊎ (len ≡ 255) }
    requires number { number < 2 ^ 55 }
    ensures layout { result ≡ clean_serial len number }
    ensures parts { (top_in result ≡ len) × (number_in result ≡ number) × (is_dirty result ≡ false) }
{
    len as u64 * TOP_UNIT + number * 2
}

/// The length, the number and whether it is dirty, of a serial.
pub fn parts(word: u64) -> (u8, u64, bool)
    ensures { result ≡ (top_in word, number_in word, is_dirty word) }
{
    ((word / TOP_UNIT) as u8, word % TOP_UNIT / 2, word % 2 == 1)
}
