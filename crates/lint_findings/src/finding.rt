//! Findings, and what they are about.

use init_base::Text;
use init_machine::DiagKind;

/// What is told of a line of a file.
#[derive(Debug, Drop)]
pub struct Finding {
    pub file: Text,
    pub line: u32,
    pub about: About,
    /// It has no line's number, so that edits elsewhere leave it as it is.
    pub message: Text,
    /// Where the message leads to.
    pub other: Option<Place>,
}

/// A line of a file.
#[derive(Debug, Drop)]
pub struct Place {
    pub file: Text,
    pub line: u32,
}

/// The kind of a finding, and how grave it is by itself.
#[derive(Clone, Copy, Debug, PartialEq, Eq)]
pub enum About {
    /// A documented diagnostic.
    Error(DiagKind),
    Warning(WarningKind),
    Hint(HintKind),
}

/// What may be meant otherwise.
#[derive(Clone, Copy, Debug, PartialEq, Eq)]
pub enum WarningKind {
    /// AOSP's init takes the line, or the caller allows its word, and this machine doesn't model it.
    NotModelled,
    /// A command names a service that no file declares.
    NoService,
    /// A command names a class that no service has.
    NoClass,
    /// An event is triggered that no action waits for.
    UnheardEvent,
    /// An action waits for an event that nothing triggers.
    UnsentEvent,
}

/// What makes other mistakes hard to see.
#[derive(Clone, Copy, Debug, PartialEq, Eq)]
pub enum HintKind {
    /// A file begins with a byte order mark.
    ByteOrderMark,
    /// Quotes go over the end of a line.
    SpannedLines,
    /// The word of a header is written with a capital.
    CapitalHeader,
}
