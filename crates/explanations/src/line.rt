//! What is printed: where something is wrong, and what.

use init_base::Text;
use refusal_causes::ShownPath;
use std::alloc::Global;
use std::fmt;
use trace_causes::{Place, Wanted};

/// What is wrong with a line of a trace.
#[derive(Clone, Copy)]
enum LineFault<'a> {
    /// Another line should stand there.
    Expected(&'a [u8]),
    Other(&'a str),
}

impl fmt::Display for LineFault<'_> {
    fn fmt<W: fmt::Write>(&self, f: &mut fmt::Formatter<W>) -> fmt::Result {
        match self {
            LineFault::Expected(wanted) => write!(f, "expected {}", Wanted(wanted)),
            LineFault::Other(said) => f.write_str(said),
        }
    }
}

/// What is wrong in a line of a file.
pub fn line_of<C: fmt::Display>(
    alloc: Global,
    path: &Text,
    line: u64,
    cause: &C,
) -> Option<String> {
    format!(in alloc; "{}:{line}: {cause}", ShownPath(path.bytes())).ok()
}

/// What is wrong with a file as a whole.
pub fn file_line<C: fmt::Display>(alloc: Global, path: &Text, cause: &C) -> Option<String> {
    format!(in alloc; "{}: {cause}", ShownPath(path.bytes())).ok()
}

/// What a file has too much of.
pub fn file_has(alloc: Global, path: &Text, what: &str) -> Option<String> {
    format!(in alloc; "{} has more than {what}", ShownPath(path.bytes())).ok()
}

/// What should stand in a place of a trace, or else what is wrong there.
pub fn place_line(alloc: Global, path: &Text, place: &Place<'_>, said: &str) -> Option<String> {
    let fault = match place.wanted {
        Some(wanted) => LineFault::Expected(wanted),
        None => LineFault::Other(said),
    };
    line_of(alloc, path, place.line, &fault)
}

/// The cause of a bad line, where one is found. It ends here.
pub fn cause_of<C: fmt::Display + Drop, E: Drop>(
    alloc: Global,
    path: &Text,
    line: u32,
    cause: Result<Option<C>, E>,
) -> Option<String> {
    match cause {
        Ok(Some(cause)) => line_of(alloc, path, u64::from(line), &cause),
        _ => None,
    }
}
