//! What `rc-lint` says of a tree: the messages of its diagnostics, and beside these warnings of names and events, and hints.
//!
//! Promised is that no note is an error. The texts promise nothing.
#![tactic(auto)]

mod message;
mod note;

pub use message::Teller;
pub use note::add_notes;
