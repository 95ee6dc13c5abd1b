//! Collections that the rules keep their state in: texts by place (`TextIndex`, and `TextKey` as a key of maps), and numbers by
//! time (`Agenda`). What each call does is said of a list, by `specs/Texts` and `specs/Moments`.
#![tactic(auto)]

mod agenda;
mod key;
mod text_index;

pub use agenda::Agenda;
pub use key::{Spelled, TextKey};
pub use text_index::TextIndex;
