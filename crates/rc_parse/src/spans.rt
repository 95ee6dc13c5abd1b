//! What a line is by its words, and where its section ends, where the words are ranges of the file's buffer.

ghost use Rattle.std.specs.Prelude.{◌≡◌};
ghost use Rattle.std.specs.List.{position_or_len};
ghost use Rattle.rc_parse.specs.internal.Adding.{from_header};
ghost use Rattle.rc_parse.specs.Lines.{lines_before_header};
ghost use Rattle.rc_parse.specs.Lines as spec;

use crate::words::is_header_word;
use rc_tokens::{SpanLine, SpanSlice};

/// The first word, or the empty word.
#[tactic(auto, using(crate::proofs::Firsts::first_got, crate::proofs::Firsts::none_got))]
pub fn first_of<'a>(line: &SpanLine<'a>) -> &'a [u8]
    ensures { result.now ≡ spec.first_word line.now.words }
{
    match line.at(0) {
        Some(word) => word,
        None => &[],
    }
}

/// The first of the words behind it, or the empty word.
#[tactic(auto, using(crate::proofs::Firsts::second_got, crate::proofs::Firsts::no_second))]
pub fn second_of<'a>(line: &SpanLine<'a>) -> &'a [u8]
    ensures { result.now ≡ spec.first_word (spec.arguments line.now.words) }
{
    match line.at(1) {
        Some(word) => word,
        None => &[],
    }
}

/// Whether a line begins a section.
pub fn is_span_header(line: &SpanLine<'_>) -> bool
    ensures { result ≡ spec.is_header line.now }
{
    is_header_word(first_of(line))
}

/// The number of lines before the first header.
fn span_section_len(lines: &SpanSlice<'_>) -> usize
    ensures { result ≡ position_or_len spec.is_header lines.now }
{
    let mut left = lines.again();
    while let Some(line) = left.pop() {
        if is_span_header(&line) {
            return lines.len() - left.len() - 1;
        }
    }
    lines.len()
}

/// Takes the lines before the first header away.
#[tactic(auto, using(crate::proofs::Headers::section_fits))]
pub fn take_span_section<'a>(lines: &mut SpanSlice<'a>) -> SpanSlice<'a>
    ensures section { result ≡ lines_before_header lines.old }
    ensures rest { lines.new ≡ from_header lines.old }
{
    let count = span_section_len(lines);
    lines.take_front(count)
}
