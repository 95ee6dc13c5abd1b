//! Numbers in decimal, without leading zeros.

ghost use Rattle.std.specs.Prelude.{◌≡◌, ◌+◌, ◌*◌, ◌<◌, ◌≤◌, MatchResult};
ghost use Rattle.script_lang.specs.Statements.{number_in, status_in};
ghost use Rattle.trace_reader.specs.Reading.{IsBad, IsReading};
ghost use Rattle.trace_reader.specs.Words.{large_in, small_in};

use script_lang::{Fault, is_canonical};

/// The number of at most 64 bits that a word is.
pub fn large(word: &[u8]) -> Result<u64, Fault>
    ensures { IsReading result (large_in word.now) }
{
    number(word, u64::MAX)
}

/// The number of at most 32 bits that a word is.
pub fn small(word: &[u8]) -> Result<u32, Fault>
    ensures { IsReading result (small_in word.now) }
{
    Ok(number(word, u64::from(u32::MAX))? as u32)
}

/// The status of a process that a word is.
pub fn status(word: &[u8]) -> Result<u8, Fault>
    ensures { IsReading result (status_in word.now) }
{
    Ok(number(word, u64::from(u8::MAX))? as u8)
}

/// The number up to the most that a word is.
fn number(word: &[u8], most: u64) -> Result<u64, Fault>
    ensures { IsReading result (number_in 0 most word.now) }
{
    if !is_canonical(word) {
        return Err(Fault::Bad);
    }
    let mut number = 0;
    for digit in word {
        number = with_digit(number, *digit - b'0', most)?;
    }
    Ok(number)
}

/// A number with one digit more behind it. Bad exactly where it is past the most.
fn with_digit(number: u64, digit: u8, most: u64) -> Result<u64, Fault>
    requires { digit < 10 }
    ensures { MatchResult result (λ more. (more ≡ 10 * number + digit) × (more ≤ most))
        (λ fault. IsBad fault × (most < 10 * number + digit)) }
{
    let more = number
        .checked_mul(10)
        .and_then(|tens| tens.checked_add(u64::from(digit)));
    match more {
        Some(more) if more <= most => Ok(more),
        _ => Err(Fault::Bad),
    }
}
