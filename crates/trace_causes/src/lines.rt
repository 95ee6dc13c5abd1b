//! The lines of a text, which count from 1.

ghost use Rattle.std.specs.Prelude.{◌≡◌, ◌-◌, drop, length, slice_get};
ghost use Rattle.std.specs.Option.{option_copied};
ghost use Rattle.init_base.specs.Lines.{lines_of};
ghost use Rattle.trace_causes.specs.Lines as spec;

use init_base::first_line;

/// A text from its line with this number on. Empty where it has fewer lines. The number 0 is as 1.
pub fn lines_from(text: &[u8], number: u64) -> &[u8]
    ensures { lines_of result.now ≡ drop (number - 1) (lines_of text.entry.now) }
{
    let mut rest = text;
    let mut left = number.saturating_sub(1);
    while left > 0 && !rest.is_empty() {
        rest = first_line(rest).1;
        left -= 1;
    }
    rest
}

/// The line with this number, without its LF. None exactly where the text has fewer lines. The number 0 is as 1.
pub fn line_at(text: &[u8], number: u64) -> Option<&[u8]>
    ensures { option_copied result ≡ slice_get (lines_of text.entry.now) (number - 1) }
{
    let rest = lines_from(text, number);
    if rest.is_empty() {
        None
    } else {
        Some(first_line(rest).0)
    }
}

/// How many lines a text has.
pub fn count_lines(text: &[u8]) -> u64
    ensures { result ≡ length (lines_of text.now) }
{
    let mut rest = text;
    let mut count: u64 = 0;
    while !rest.is_empty() {
        rest = first_line(rest).1;
        count += 1;
    }
    count
}

/// The number of the line that begins at a place of a text.
pub fn number_at(text: &[u8], at: usize) -> u64
    ensures { result ≡ spec.number_at text.now at }
{
    let before = &text[..at.min(text.len())];
    before.iter().filter(|byte| **byte == b'\n').count() as u64 + 1
}
