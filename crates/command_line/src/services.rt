//! The number of services that `soak` generates.

ghost use Rattle.std.specs.Prelude.{◌≡◌, nat_le, true, if◌then◌else◌, None, Some};
ghost use Rattle.std.specs.Char.{is_ascii_digit};
ghost use Rattle.std.specs.List.{list_all};
ghost use Rattle.std.specs.Str.Parse.{digits_value};
ghost use Rattle.command_line.specs.Services as spec;

/// The most services.
const MOST: u32 = 1000;

/// The number of services that a word is: from 1 to 1000 in decimal, without leading zeros.
pub fn services_in(word: &[u8]) -> Option<u32>
    ensures { result ≡ spec.services_in word.now }
{
    if !begins_number(word) || !has_only_digits(word) {
        return None;
    }
    match value_of(word)? {
        0 => None,
        services => Some(services),
    }
}

/// Whether the word isn't empty and its first byte isn't 0.
fn begins_number(word: &[u8]) -> bool
    ensures { result ≡ spec.begins_number word.now }
{
    match word {
        [] => false,
        [first, ..] => *first != b'0',
    }
}

fn has_only_digits(word: &[u8]) -> bool
    ensures { result ≡ list_all is_ascii_digit word.now }
{
    word.iter().all(|byte| byte.is_ascii_digit())
}

/// The value of digits, if it isn't past the most services.
fn value_of(word: &[u8]) -> Option<u32>
    requires { list_all is_ascii_digit word.now ≡ true }
    ensures { result ≡ (if nat_le (digits_value 10 word.now) 1000 then Some (digits_value 10 word.now) else None) }
{
    let mut number = 0;
    for digit in word {
        number = 10 * number + u32::from(*digit - b'0');
        if number > MOST {
            return None;
        }
    }
    Some(number)
}
