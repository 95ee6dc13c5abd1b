//! Quotes that go over the end of a line.

use init_base::NoMemory;
use memchr::{memchr, memchr_iter, memchr2, memrchr_iter};
use std::alloc::Global;

/// Where a scan of a file stands.
#[derive(Clone, Copy, Debug, PartialEq, Eq)]
enum Place {
    Between,
    InToken,
    BehindBackslash,
    /// Behind a backslash and a CR, with which a fold begins where an LF is next.
    BehindFoldedReturn,
    /// Among the spaces and tabs that a fold drops.
    InFold,
    InComment,
    /// In quotes that begin at this byte.
    InQuotes { begun: usize },
}

/// Where the scan stands behind a byte outside quotes, which is no quote of its own. Behind a fold the token goes on, so that a `#`
/// there begins no comment.
fn behind(place: Place, byte: u8) -> Place {
    match place {
        Place::InComment if byte != b'\n' => place,
        Place::BehindBackslash => behind_escaped(byte),
        Place::BehindFoldedReturn if byte == b'\n' => Place::InFold,
        Place::InFold if byte == b' ' || byte == b'\t' => place,
        Place::Between if byte == b'#' => Place::InComment,
        _ => behind_plain(byte),
    }
}

fn behind_escaped(byte: u8) -> Place {
    match byte {
        b'\n' => Place::InFold,
        b'\r' => Place::BehindFoldedReturn,
        _ => Place::InToken,
    }
}

fn behind_plain(byte: u8) -> Place {
    match byte {
        b' ' | b'\t' | b'\r' | b'\n' => Place::Between,
        b'\\' => Place::BehindBackslash,
        _ => Place::InToken,
    }
}

/// Where the scan stands behind bytes that have no quote. What stands before the last line feed that can't be a fold's decides
/// nothing.
fn behind_all(place: Place, bytes: &[u8]) -> Place {
    for feed in memrchr_iter(b'\n', bytes) {
        let before = bytes.get(..feed).unwrap_or_default();
        if !before.ends_with(b"\\") && !before.ends_with(b"\\\r") {
            let line = bytes.get(feed.saturating_add(1)..).unwrap_or_default();
            return behind_line(Place::Between, line);
        }
    }
    behind_line(place, bytes)
}

/// The same, byte by byte where a comment or a backslash may be among them.
fn behind_line(place: Place, bytes: &[u8]) -> Place {
    if place != Place::InComment && memchr2(b'#', b'\\', bytes).is_none() {
        return Place::InToken;
    }
    bytes.iter().fold(place, |place, byte| behind(place, *byte))
}

/// Where the scan stands behind a quote.
fn behind_quote(place: Place, quote: usize) -> Place {
    match place {
        Place::Between | Place::InToken | Place::BehindFoldedReturn | Place::InFold => {
            Place::InQuotes { begun: quote }
        }
        Place::BehindBackslash | Place::InQuotes { .. } => Place::InToken,
        Place::InComment => Place::InComment,
    }
}

/// Where the quotes begin that go over the end of a line, in order.
fn spanned_quotes(alloc: Global, text: &[u8]) -> Result<Vec<usize>, NoMemory> {
    let mut spanned = Vec::new(alloc);
    let mut place = Place::Between;
    let mut passed = 0;
    for quote in memchr_iter(b'"', text) {
        let between = text.get(passed..quote).unwrap_or_default();
        match place {
            Place::InQuotes { begun } if memchr(b'\n', between).is_some() => spanned.push(begun)?,
            Place::InQuotes { .. } => {}
            _ => place = behind_all(place, between),
        }
        place = behind_quote(place, quote);
        passed = quote.saturating_add(1);
    }
    match place {
        Place::InQuotes { begun } if text.get(passed..).unwrap_or_default().contains(&b'\n') => {
            spanned.push(begun)?
        }
        _ => {}
    }
    Ok(spanned)
}

/// The lines on which quotes begin that go over the end of a line, in order and each once.
pub fn spanned_lines(alloc: Global, text: &[u8]) -> Result<Vec<u32>, NoMemory> {
    let mut lines = Vec::new(alloc);
    let mut line = 1u32;
    let mut counted = 0;
    for quote in spanned_quotes(alloc, text)?.iter() {
        let feeds = memchr_iter(b'\n', text.get(counted..*quote).unwrap_or_default()).count();
        line = line.saturating_add(u32::try_from(feeds).unwrap_or(u32::MAX));
        lines.push(line)?;
        counted = *quote;
    }
    Ok(lines)
}
