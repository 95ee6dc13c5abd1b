//! Where the parts of a trace stand. What a part is, and where it begins, is in `specs/Places.antt`.

ghost use Rattle.std.specs.Prelude.{◌≡◌};
ghost use Rattle.std.specs.Option.{option_map};
ghost use Rattle.init_base.specs.Lines.{lines_of};
ghost use Rattle.trace_causes.specs.Places as spec;
ghost use Rattle.trace_causes.specs.declared.place.Part.TheVariants as part;

use init_base::first_line;

/// A line of a trace, and the one that should stand there. None where none should.
#[derive(Clone, Copy)]
pub struct Place<'a> {
    pub line: u64,
    pub wanted: Option<&'a [u8]>,
}

/// A kind of parts of a trace.
#[derive(Clone, Copy)]
enum Part {
    Entry,
    Client,
}

fn is_inner(line: &[u8]) -> bool
    ensures { result ≡ spec.is_inner line.now }
{
    line.starts_with(b" ")
}

fn is_client(line: &[u8]) -> bool
    ensures { result ≡ spec.is_client line.now }
{
    line.starts_with(b"client ")
}

fn is_title(line: &[u8]) -> bool
    ensures { result ≡ spec.is_title line.now }
{
    line == b"initsim 1".as_slice()
}

fn is_end(line: &[u8]) -> bool
    ensures { result ≡ spec.is_end line.now }
{
    line == b"end".as_slice()
}

fn is_head(line: &[u8]) -> bool
    ensures { result ≡ spec.is_head line.now }
{
    !(is_inner(line)
        || line.starts_with(b"diag ")
        || is_title(line)
        || is_client(line)
        || is_end(line))
}

/// Whether a line begins a part of this kind.
fn begins(kind: Part, line: &[u8]) -> bool
    ensures { result ≡ spec.begins kind line.now }
{
    match kind {
        Part::Entry => is_head(line),
        Part::Client => is_client(line),
    }
}

/// Whether a line stands behind all parts of this kind.
fn ends(kind: Part, line: &[u8]) -> bool
    ensures { result ≡ spec.ends kind line.now }
{
    match kind {
        Part::Entry => is_client(line) || is_end(line),
        Part::Client => is_end(line),
    }
}

/// The number of the line at which the part of a kind with this number begins; of the line behind the last one where there are fewer.
/// None where the text has no such line.
fn part_line(text: &[u8], number: u64, kind: Part) -> Option<u64>
    ensures { result ≡ spec.part_line kind number 1 (lines_of text.now) }
{
    let mut rest = text;
    let mut line: u64 = 0;
    let mut left = number;
    while !rest.is_empty() {
        let (first, behind) = first_line(rest);
        rest = behind;
        line += 1;
        let begins = begins(kind, first);
        if ends(kind, first) || (begins && left == 1) {
            return Some(line);
        }
        if begins {
            left = left.saturating_sub(1);
        }
    }
    None
}

/// The number of the line at which the entry with this number begins; of the line behind the last entry where there are fewer.
/// None where the text has no such line.
pub fn entry_line(text: &[u8], number: u64) -> Option<u64>
    ensures { result ≡ spec.part_line part.Entry number 1 (lines_of text.now) }
{
    part_line(text, number, Part::Entry)
}

/// The number of the line at which the part of the client with this number begins; of the last line where there are fewer.
/// None where the text has no such line.
pub fn client_line(text: &[u8], number: u64) -> Option<u64>
    ensures { result ≡ spec.part_line part.Client number 1 (lines_of text.now) }
{
    part_line(text, number, Part::Client)
}

/// The first of some lines that differs from the one that should stand there, where this is the number of the first. None where
/// they begin with all that should stand there, and no further output follows.
pub fn first_difference<'a>(lines: &[u8], first: u64, wanted: &'a [u8]) -> Option<Place<'a>>
    ensures { option_map spec.told result ≡ spec.first_difference (lines_of lines.now) first (lines_of wanted.entry.now) }
{
    let mut rest = lines;
    let mut left = wanted;
    let mut line = first;
    while !left.is_empty() {
        let (should, behind) = first_line(left);
        if rest.is_empty() {
            return Some(expected(line, should));
        }
        let (is, after) = first_line(rest);
        if should != is {
            return Some(expected(line, should));
        }
        left = behind;
        rest = after;
        line = line.saturating_add(1);
    }
    if begins_inside(rest) {
        return Some(Place { line, wanted: None });
    }
    None
}

fn expected(line: u64, wanted: &[u8]) -> Place<'_>
    ensures { spec.told result ≡ (line, Some wanted.entry.now) }
{
    Place {
        line,
        wanted: Some(wanted),
    }
}

/// Whether the first line of a text is that of an output.
fn begins_inside(text: &[u8]) -> bool
    ensures { result ≡ spec.begins_inside (lines_of text.now) }
{
    !text.is_empty() && is_inner(first_line(text).0)
}
