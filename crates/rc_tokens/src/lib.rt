//! The tokens and lines of rc files: any bytes are read as init reads them.
//!
//! `lines` answers the one reading that a text has. What a reading is stands in `specs/Grammar.antt`, a grammar
//! of the whole text, and `specs/Lines.antt`, the lines that it spells; `one_reading` says that each text has
//! exactly one. The words of a file stand in one list, of which its lines are ranges, as the words were ranges of one buffer
//! before it was whole; `span_lines` answers the same lines with the words left as such ranges. What the code's loops say
//! of themselves is in `specs/internal/` and is no part of any promise.
#![tactic(auto)]

mod line;
mod range;
mod read;
mod reader;
mod run;
mod span;
mod spelled;
mod tokens;

pub use line::{Line, LineSlice};
pub use read::{lines, lines_ascend, one_reading, span_lines};
pub use span::{SpanLine, SpanSlice, SpanTokens};
pub use tokens::{TokenRefusal, Tokens};
