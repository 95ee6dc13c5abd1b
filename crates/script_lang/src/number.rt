//! Numbers of lines.

ghost use Rattle.std.specs.Prelude.{◌≡◌, ◌^◌, ◌<◌};
ghost use Rattle.std.specs.Char.{is_ascii_digit};
ghost use Rattle.std.specs.List.{list_all};
ghost use Rattle.script_lang.specs.Reading.{IsReading};
ghost use Rattle.script_lang.specs.Statements.{number_in, status_in};
ghost use Rattle.script_lang.specs.Statements as spec;

use crate::fault::Fault;

/// The number from the least to the most that a word is in decimal, without leading zeros.
pub fn decimal(word: &[u8], least: u64, most: u64) -> Option<u64>
    requires { most < 2 ^ 54 }
    ensures { result ≡ number_in least most word.now }
{
    if !is_canonical(word) {
        return None;
    }
    let mut number = 0;
    for digit in word {
        number = 10 * number + u64::from(*digit - b'0');
        if number > most {
            return None;
        }
    }
    if number < least { None } else { Some(number) }
}

/// The number of `decimal`. Bad exactly where there is none.
pub fn number(word: &[u8], least: u64, most: u64) -> Result<u64, Fault>
    requires { most < 2 ^ 54 }
    ensures { IsReading result (number_in least most word.now) }
{
    decimal(word, least, most).ok_or(Fault::Bad)
}

/// The status of a process that a word is.
pub fn status(word: &[u8]) -> Result<u8, Fault>
    ensures { IsReading result (status_in word.now) }
{
    Ok(number(word, 0, 255)? as u8)
}

/// Whether a word is one digit, or more of which the first isn't 0.
pub fn is_canonical(word: &[u8]) -> bool
    ensures { result ≡ spec.is_canonical word.now }
{
    match word {
        [] => false,
        [b'0', rest @ ..] => rest.is_empty(),
        _ => has_only_digits(word),
    }
}

fn has_only_digits(word: &[u8]) -> bool
    ensures { result ≡ list_all is_ascii_digit word.now }
{
    word.iter().all(|byte| byte.is_ascii_digit())
}
