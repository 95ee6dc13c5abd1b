//! What standard error says after a refusal, a bad trace or a verdict that isn't yes: the place, and what is wrong there.
//!
//! What the words of the command line name is read once more for it, except messages. If that can't be read, or if something else is
//! there by then, there is no text. Only memory safety is proved of the texts: `refusal_causes` and `trace_causes` say what they go by.
#![tactic(auto)]

mod entry;
mod limits;
mod line;
mod message;
mod named;
mod refusal;
mod verdict;

pub use message::message_line;
pub use named::Named;
pub use refusal::{cause_line, image_line};
