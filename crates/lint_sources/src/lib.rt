//! A tree as `rc-lint` reads it: loaded as `initsim check` loads it, with what hints want of each file that was read, and the lines
//! of each file that has diagnostics, with those of which another init takes the word.
//!
//! What is loaded is `loaded` of `specs/Loads.antt`, and which diagnostics are excused `specs/Excused.antt`, over a tree that is
//! told (`specs/Told.antt`). What is kept for messages and hints promises nothing.
#![tactic(auto)]

mod excuse;
mod law;
mod loading;
mod not_modelled;
mod quotes;
mod source;
mod watched;

pub use excuse::Part;
pub use law::each_tree_is_told;
pub use loading::load;
pub use not_modelled::{COMMANDS, OPTIONS, is_command_not_modelled, is_option_not_modelled};
pub use source::{Source, Sources};
pub use watched::{Seen, SeenFiles, Watched};
