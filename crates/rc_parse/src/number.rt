//! Numbers of options.

ghost use Rattle.std.specs.Prelude.{◌≡◌};
ghost use Rattle.rc_parse.specs.Values as spec;

use init_machine::decimal;

const MOST_DIGITS: usize = 7;

const MOST: u32 = 1_000_000;

/// A number of at least this one: one to seven decimal digits, of at most 1,000,000.
pub fn number_from(least: u32, text: &[u8]) -> Option<u32>
    ensures { result ≡ spec.number_from least text.now }
{
    let number = decimal(MOST_DIGITS, text)?;
    if u128::from(least) <= number && number <= u128::from(MOST) {
        Some(number as u32)
    } else {
        None
    }
}
