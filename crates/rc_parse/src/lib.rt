//! The sections of rc files: actions, services and imports, and what is wrong in them.
//!
//! `parse` answers what the lines of one file mean, which `specs/Sections.antt` defines over the whole list of lines:
//! a line belongs to the last header before it, and each line is kept or gives its first diagnostic. `Merger` puts
//! files together, by the rule on services of one name in `specs/Kept.antt`. `skim` and `Names` tell the same imports and
//! diagnostics, and keep no actions and of services no more than their names. The words of commands and the
//! arguments that they take stand in `init_machine`, with the type `Word`; the words of options stand in `option_word`,
//! and the arguments that they take in the table of `table`, which code and definitions share. What the code's loops say
//! of themselves is in `specs/internal/` and is no part of any promise.
#![tactic(auto)]

mod action;
mod command;
mod critical;
mod fault;
mod imports;
mod lines;
mod merging;
mod names;
mod number;
mod option_word;
mod parsed;
mod places;
mod sections;
mod service;
mod setting;
mod skimmed;
mod skimming;
mod spans;
mod standing;
mod table;
mod trigger;
mod words;

pub use lines::before_header;
pub use merging::{Merger, one_service_of_a_name};
pub use names::Names;
pub use parsed::{Import, Parsed};
pub use places::{lines_have_their_places, one_meaning};
pub use sections::parse;
pub use skimmed::{ServiceMark, Skimmed};
pub use skimming::skim;
pub use words::{arguments, first_word, is_header, is_on, is_service, is_text};
