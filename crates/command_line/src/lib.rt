//! The words of the command line: the form that they have, and what is wrong with words that have none.
//!
//! `form_of` decides. Words of a form are then read by `clap`, as a command with one level of subcommands and positional
//! arguments alone. Its help text and its fault text are never printed: on words of a form it can only want memory.
#![tactic(auto)]

mod command;
mod form;
mod form_name;
mod misuse;
mod reading;
mod services;

pub use form::{Form, form_of};
pub use form_name::FormName;
pub use misuse::{Misuse, Place, WordFault, misuse_of, nothing_wrong_with_a_form};
pub use reading::{WordsRefusal, read_words};
