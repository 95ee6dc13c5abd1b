//! Lines of a trace as they are printed.

use std::fmt;

/// The most bytes that are printed of a line.
const MOST_OF_LINE: usize = 200;

/// A line of a trace in single quotes. `..` stands for what isn't printed of a long one.
#[derive(Clone, Copy)]
pub struct Wanted<'a>(pub &'a [u8]);

impl fmt::Display for Wanted<'_> {
    fn fmt<W: fmt::Write>(&self, f: &mut fmt::Formatter<W>) -> fmt::Result {
        f.write_char('\'')?;
        for byte in self.0.get(..MOST_OF_LINE).unwrap_or(self.0) {
            write_byte(f, *byte)?;
        }
        if self.0.len() > MOST_OF_LINE {
            f.write_str("..")?;
        }
        f.write_char('\'')
    }
}

/// A byte that isn't printable, which no line of a trace has, is `%` and two digits.
fn write_byte<W: fmt::Write>(f: &mut fmt::Formatter<W>, byte: u8) -> fmt::Result {
    if byte >= 0x20 && byte <= 0x7e {
        f.write_char(byte as char)
    } else {
        write!(f, "%{byte:02X}")
    }
}
