//! The printing of a report.
//!
//! `print` writes exactly `TextOf` the report of `specs/Report.antt`, line by line, or stops with a refusal behind
//! some front of it. `print_diagnostics` does so for the diagnostics alone. A `Printer` prints a report part by part: its
//! head, each entry as it comes, whole or line by line as the machine tells it, and its tail, which together are its text, by
//! the law of `text_is_its_parts`.
//! Different reports have different texts: that is the law of `text_determines_report`.
#![tactic(auto)]

mod field;
mod law;
mod line;
mod page;
mod printer;
mod printing;
mod quote;
mod telling;
mod words;

pub use law::{text_determines_report, text_is_its_parts};
pub use page::send;
pub use printer::Printer;
pub use printing::{print, print_diagnostics};
pub use quote::{
    digits as put_number, hex_byte as put_hex_byte, put, put_byte, quoted as put_quoted,
};
pub use words::kind_name;
