//! Serials, which are 16 hexadecimal digits.

ghost use Rattle.std.specs.Prelude.{◌≡◌, ◌<◌, IfOk, MatchResult, Some};
ghost use Rattle.trace_reader.specs.Reading.{IsReading, IsUnread};
ghost use Rattle.trace_reader.specs.Words.{byte_in, bytes_in, digit_in, serial_in};

use init_base::List;
use script_lang::Fault;
use std::alloc::Global;

/// The serial that a word is: its eight bytes, the highest first.
pub fn serial(alloc: Global, word: &[u8]) -> Result<u64, Fault>
    ensures { IsReading result (serial_in word.now) }
{
    let bytes = spelled_bytes(alloc, word)?;
    match bytes.items() {
        [a, b, c, d, e, f, g, h] => Ok(u64::from_be_bytes([*a, *b, *c, *d, *e, *f, *g, *h])),
        _ => Err(Fault::Bad),
    }
}

/// The bytes that a word spells, each as two digits.
fn spelled_bytes(alloc: Global, word: &[u8]) -> Result<List<u8>, Fault>
    ensures { MatchResult result (λ bytes. bytes_in word.now ≡ Some bytes) (IsUnread (bytes_in word.now)) }
{
    let mut bytes = List::new(alloc);
    let mut rest = word;
    while let [high, low, behind @ ..] = rest {
        bytes.push(spelled_byte(*high, *low)?)?;
        rest = behind;
    }
    if rest.is_empty() {
        Ok(bytes)
    } else {
        Err(Fault::Bad)
    }
}

/// The byte with these two digits.
fn spelled_byte(high: u8, low: u8) -> Result<u8, Fault>
    ensures { IsReading result (byte_in high low) }
{
    Ok(16 * digit_value(high)? + digit_value(low)?)
}

/// The value of a lower-case hexadecimal digit.
fn digit_value(digit: u8) -> Result<u8, Fault>
    ensures value { IsReading result (digit_in digit) }
    ensures small { IfOk result (λ value. value < 16) }
{
    match digit {
        b'0'..=b'9' => Ok(digit - b'0'),
        b'a'..=b'f' => Ok(digit - b'a' + 10),
        _ => Err(Fault::Bad),
    }
}
