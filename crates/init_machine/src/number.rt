//! Decimal numbers, as `specs/Typed.antt` has them.

ghost use Rattle.std.specs.Prelude.{◌≡◌, ◌≤◌, IsTrue, Some, None, length, if◌then◌else◌};
ghost use Rattle.std.specs.List.{list_all};
ghost use Rattle.init_machine.specs.Typed.{is_decimal, number_of};
ghost use Rattle.init_machine.specs.Typed as spec;

fn is_digit(byte: u8) -> bool
    ensures { result ≡ spec.is_digit byte }
{
    byte.is_ascii_digit()
}

fn has_only_digits(text: &[u8]) -> bool
    ensures { result ≡ list_all spec.is_digit text.now }
{
    text.iter().all(|byte| is_digit(*byte))
}

/// What these digits mean.
fn number(digits: &[u8]) -> u128
    requires digits { IsTrue (list_all spec.is_digit digits.now) }
    requires few { length digits.now ≤ 20 }
    ensures { result ≡ number_of digits.now }
{
    let mut number = 0;
    for digit in digits {
        number = number * 10 + u128::from(digit - b'0');
    }
    number
}

/// The number of a text of decimal digits, one at least and so many at most. None exactly for another text.
pub fn decimal(most: usize, text: &[u8]) -> Option<u128>
    requires { most ≤ 20 }
    ensures { result ≡ (if is_decimal most text.now then Some (number_of text.now) else None) }
{
    if text.is_empty() || text.len() > most || !has_only_digits(text) {
        return None;
    }
    Some(number(text))
}
