//! The forms of modes and times (this project's profile).

ghost use Rattle.std.specs.Prelude.{◌≡◌, ◌≤◌, ◌<◌, ◌++◌, ◌==◌, ◌&&◌, ◌+◌, ◌-◌, ◌*◌, IsTrue, IfSome, Some, None, codes, length, nat_le, take, if◌then◌else◌};
ghost use Rattle.std.specs.List.{list_all, position};
ghost use Rattle.init_base.specs.declared.units.Millis.{Millis as MillisLem};
ghost use Rattle.init_machine.specs.Tasks.{is_mode, is_seconds, millis_of, octal_of, whole_part};
ghost use Rattle.init_machine.specs.Tasks as spec;
ghost use Rattle.init_machine.specs.Typed.{is_decimal, is_digit, number_of};

use init_base::Millis;
use init_machine::decimal;

const MOST_MODE_DIGITS: usize = 6;

const LAST_MODE: u32 = 0o7777;

const MOST_WHOLE_DIGITS: usize = 7;

const MOST_FRACTION_DIGITS: usize = 9;

/// The longest wait, in milliseconds.
const LONGEST: u128 = 1_000_000_000;

fn is_octal_digit(byte: u8) -> bool
    ensures { result ≡ spec.is_octal_digit byte }
{
    matches!(byte, b'0'..=b'7')
}

fn has_only_octal_digits(text: &[u8]) -> bool
    ensures { result ≡ list_all spec.is_octal_digit text.now }
{
    text.iter().all(|byte| is_octal_digit(*byte))
}

/// What these digits mean.
fn octal(digits: &[u8]) -> u32
    requires digits { IsTrue (list_all spec.is_octal_digit digits.now) }
    requires few { length digits.now ≤ 6 }
    ensures { result ≡ octal_of digits.now }
{
    let mut number = 0;
    for digit in digits {
        number = number * 8 + u32::from(digit - b'0');
    }
    number
}

/// A mode: one to six octal digits, up to 07777. None exactly for another text.
pub fn mode(text: &[u8]) -> Option<u16>
    ensures { result ≡ (if is_mode text.now then Some (octal_of text.now) else None) }
{
    if text.is_empty() || text.len() > MOST_MODE_DIGITS || !has_only_octal_digits(text) {
        return None;
    }
    let mode = octal(text);
    if mode <= LAST_MODE {
        Some(mode as u16)
    } else {
        None
    }
}

/// The place of the first `.`.
fn point(text: &[u8]) -> Option<usize>
    ensures { result ≡ position (λ b. b == 46) text.now }
{
    text.iter().position(|byte| *byte == b'.')
}

/// The number of a digit.
fn value(digit: u8) -> u128
    requires { IsTrue (is_digit digit) }
    ensures { result ≡ digit - 48 }
{
    u128::from(digit - b'0')
}

/// The first three digits of a fraction, as thousandths. None exactly where it isn't one to nine decimal digits.
fn thousandths(fraction: &[u8]) -> Option<u128>
    ensures number { result ≡ (if is_decimal 9 fraction.now then Some (number_of (take 3 (fraction.now ++ codes "000"))) else None) }
    ensures below { IfSome result (λ thousandths. thousandths < 1000) }
{
    decimal(MOST_FRACTION_DIGITS, fraction)?;
    match fraction {
        [] => Some(0),
        [tenth] => Some(value(*tenth) * 100),
        [tenth, hundredth] => Some(value(*tenth) * 100 + value(*hundredth) * 10),
        [tenth, hundredth, thousandth, ..] => {
            Some(value(*tenth) * 100 + value(*hundredth) * 10 + value(*thousandth))
        }
    }
}

/// So many whole seconds and thousandths. None exactly where the seconds aren't one to seven decimal digits, or it is
/// longer than the longest wait.
fn millis(whole: &[u8], thousandths: u128) -> Option<Millis>
    requires { thousandths < 1000 }
    ensures { result ≡ (if is_decimal 7 whole.now && nat_le (number_of whole.now * 1000 + thousandths) 1000000000 then Some
        (record { 0 = number_of whole.now * 1000 + thousandths }) else None) }
{
    let whole = decimal(MOST_WHOLE_DIGITS, whole)?;
    if whole > LONGEST / 1000 {
        return None;
    }
    let millis = whole * 1000 + thousandths;
    if millis <= LONGEST {
        Some(Millis(millis as u64))
    } else {
        None
    }
}

/// A time in seconds: one to seven decimal digits, and then nothing, or a point and one to nine digits. It means whole
/// milliseconds, 1,000,000,000 at most. None exactly for another text.
pub fn seconds(text: &[u8]) -> Option<Millis>
    ensures { result ≡ (if is_seconds text.now then Some (record { 0 = millis_of (whole_part text.now) (spec.fraction text.now) })
        else None) }
{
    let Some(at) = point(text) else {
        return millis(text, 0);
    };
    match thousandths(&text[at + 1..]) {
        Some(thousandths) => millis(&text[..at], thousandths),
        None => None,
    }
}
