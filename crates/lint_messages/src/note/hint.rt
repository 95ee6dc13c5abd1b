//! Hints: what makes other mistakes hard to see.

use super::{NoteKind, Notes};
use crate::message::Message;
use init_base::{NoMemory, Text};
use lint_findings::HintKind;
use lint_sources::{Seen, Source};
use rc_parse::first_word;

/// Adds the hints on the files that were read.
///
/// A header with a capital is an unknown word or stands in no section, so that its file is one of those with diagnostics.
pub fn add(notes: &mut Notes<'_>, seen: &[Seen], sources: &[Source]) -> Result<(), NoMemory> {
    for file in seen {
        if file.begins_with_mark {
            add_byte_order_mark(notes, file)?;
        }
        if !file.spanned_lines.is_empty() {
            add_spanned_lines(notes, file)?;
        }
    }
    for source in sources {
        add_capital_headers(notes, source)?;
    }
    Ok(())
}

fn add_byte_order_mark(notes: &mut Notes<'_>, file: &Seen) -> Result<(), NoMemory> {
    let message = Message::of(
        notes.alloc,
        b"the file begins with a byte order mark, which is read as a part of its first word",
    )?
    .end()?;
    let kind = NoteKind::Hint(HintKind::ByteOrderMark);
    notes.add(&file.path, 1, kind, message)
}

/// Adds a hint on each line on which quotes begin that go over its end. They share their message, since a file may have very many.
fn add_spanned_lines(notes: &mut Notes<'_>, file: &Seen) -> Result<(), NoMemory> {
    let message = Message::of(
        notes.alloc,
        b"quotes that begin here go over the end of the line; is a quote missing?",
    )?
    .end()?;
    let kind = NoteKind::Hint(HintKind::SpannedLines);
    for line in file.spanned_lines.iter() {
        notes.add(&file.path, *line, kind, message.share()?)?;
    }
    Ok(())
}

/// The word of a header, where this is one but for its capitals.
fn header_meant(word: &[u8]) -> Option<&'static [u8]> {
    let header: &[u8] = match word.len() {
        2 => b"on",
        6 => b"import",
        7 => b"service",
        _ => return None,
    };
    if word != header && word.eq_ignore_ascii_case(header) {
        Some(header)
    } else {
        None
    }
}

fn add_capital_headers(notes: &mut Notes<'_>, source: &Source) -> Result<(), NoMemory> {
    let mut lines = source.tokens.lines();
    while let Some(line) = lines.pop() {
        let word = first_word(line.words());
        if let Some(header) = header_meant(word) {
            add_capital_header(notes, &source.file, line.number(), word, header)?;
        }
    }
    Ok(())
}

fn add_capital_header(
    notes: &mut Notes<'_>,
    file: &Text,
    line: u32,
    word: &[u8],
    header: &[u8],
) -> Result<(), NoMemory> {
    let message = Message::of(notes.alloc, b"")?
        .quote(word)?
        .say(b" is no header; is ")?
        .quote(header)?
        .say(b" meant?")?
        .end()?;
    let kind = NoteKind::Hint(HintKind::CapitalHeader);
    notes.add(file, line, kind, message)
}
