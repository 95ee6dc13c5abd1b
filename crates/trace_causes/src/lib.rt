//! What a second line says of a trace that is no report's text, or isn't the machine's: the place in the trace, and what should
//! stand there.
//!
//! `fault_in` finds the first line of a text that no report has there, by the reader that judged the text. The others find
//! the lines of a trace that was read: where an entry begins, or a client's part, and where the lines of an entry part from
//! those that the machine writes. What each of them answers is in `specs/`.
#![tactic(auto)]

mod bad_line;
mod fault;
mod lines;
mod place;
mod said;

pub use fault::{LineFault, TextFault, a_text_has_one_fault, fault_in};
pub use lines::{line_at, lines_from};
pub use place::{Place, client_line, entry_line, first_difference};
pub use said::Wanted;
