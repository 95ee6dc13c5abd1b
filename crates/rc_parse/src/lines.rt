//! The lines of a section, cut from the front of a file's.

ghost use Rattle.std.specs.Prelude.{◌≡◌};
ghost use Rattle.std.specs.List.{position_or_len};
ghost use Rattle.rc_parse.specs.internal.Adding.{from_header};
ghost use Rattle.rc_parse.specs.Lines.{lines_before_header};
ghost use Rattle.rc_parse.specs.Lines as spec;

use crate::words::is_header;
use rc_tokens::{Line, LineSlice};

/// A section: its header, and the lines behind it up to the next one.
#[derive(Drop)]
pub struct Section<'a> {
    pub header: Line<'a>,
    pub body: LineSlice<'a>,
}

/// The number of lines before the first header.
fn section_len(lines: &LineSlice<'_>) -> usize
    ensures { result ≡ position_or_len spec.is_header lines.now }
{
    let mut left = lines.again();
    while let Some(line) = left.pop() {
        if is_header(&line) {
            return lines.len() - left.len() - 1;
        }
    }
    lines.len()
}

/// Takes the lines before the first header away.
#[tactic(auto, using(crate::proofs::Headers::section_fits))]
pub fn take_section<'a>(lines: &mut LineSlice<'a>) -> LineSlice<'a>
    ensures section { result ≡ lines_before_header lines.old }
    ensures rest { lines.new ≡ from_header lines.old }
{
    let count = section_len(lines);
    lines.take_front(count)
}

/// The lines before the first header.
pub fn before_header<'a>(lines: &LineSlice<'a>) -> LineSlice<'a>
    ensures { result ≡ lines_before_header lines.now }
{
    let mut left = lines.again();
    take_section(&mut left)
}
