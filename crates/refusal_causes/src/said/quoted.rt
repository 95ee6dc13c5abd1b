//! Words and paths as they are printed.

ghost use Rattle.std.specs.Prelude.{◌≤◌};

use std::fmt;

/// The most bytes that are printed of a word.
const MOST_OF_WORD: usize = 64;

/// The most bytes that are printed of a path.
const MOST_OF_PATH: usize = 130;

/// A word of any bytes, in double quotes and in one line: a byte that isn't printable is `%` and two digits, and `..` stands for
/// what isn't printed of a long one.
#[derive(Clone, Copy)]
pub(super) struct Quoted<'a>(pub &'a [u8]);

impl fmt::Display for Quoted<'_> {
    fn fmt<W: fmt::Write>(&self, f: &mut fmt::Formatter<W>) -> fmt::Result {
        f.write_char('"')?;
        let mut room = MOST_OF_WORD;
        for byte in self.0 {
            if room < 3 {
                f.write_str("..")?;
                break;
            }
            room -= width(*byte);
            write_byte(f, *byte)?;
        }
        f.write_char('"')
    }
}

/// A path as it is printed: like a word, without quotes, and of a long one its end.
#[derive(Clone, Copy)]
pub struct ShownPath<'a>(pub &'a [u8]);

impl fmt::Display for ShownPath<'_> {
    fn fmt<W: fmt::Write>(&self, f: &mut fmt::Formatter<W>) -> fmt::Result {
        let end = shown_end(self.0);
        if end.len() < self.0.len() {
            f.write_str("..")?;
        }
        for byte in end {
            write_byte(f, *byte)?;
        }
        Ok(())
    }
}

/// The end of a path that is printed.
fn shown_end(path: &[u8]) -> &[u8] {
    let mut room = MOST_OF_PATH;
    let mut start = path.len();
    for byte in path.iter().rev() {
        if room < 3 {
            break;
        }
        room -= width(*byte);
        start = start.saturating_sub(1);
    }
    path.get(start..).unwrap_or(path)
}

fn is_printable(byte: u8) -> bool {
    byte >= 0x20 && byte <= 0x7e
}

/// How many bytes a byte is printed as.
fn width(byte: u8) -> usize
    ensures { result ≤ 3 }
{
    if is_printable(byte) { 1 } else { 3 }
}

fn write_byte<W: fmt::Write>(f: &mut fmt::Formatter<W>, byte: u8) -> fmt::Result {
    if is_printable(byte) {
        f.write_char(byte as char)
    } else {
        write!(f, "%{byte:02X}")
    }
}
