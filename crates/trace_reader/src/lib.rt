//! The reading of a trace back as the report that it was printed from.
//!
//! `read` answers a report exactly where the bytes are its text, so it and `init_trace::print` undo each other:
//! `IsReportOf` of `specs/Reports.antt` says so. Each byte is looked at a few times, whatever the text is, and words are
//! slices of it until a report's own texts are made. `Pieces` gives the same report entry by entry, so that no more of it has
//! to be kept than its reader wants.
#![tactic(auto)]

mod cause;
mod draft;
mod fields;
mod head;
mod line;
mod number;
mod output;
mod output_word;
mod piece;
mod reader;
mod reading;
mod refusal;
mod serial;
mod table;
mod word;

pub use piece::{Piece, Pieces, pieces_are_of_one_report};
pub use reader::read;
pub use script_lang::Fault;
