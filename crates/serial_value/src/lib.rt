//! A property's value in a shared table, read without a lock and replaced by one writer.
//!
//! A short cell is a serial and twelve value words, as in bionic's property area. A long one, whose value has more than 91
//! bytes, is a serial, the length and the words of the value; it never changes. A reader loads the serial, the words, and the
//! serial again: where both are one, it has the whole value of the set that the serial numbers. `write_cell` and
//! `read_cell` are proved for every rule that meets `CellRule`, and `OneCell` is such a rule. Their single steps are functions
//! too, so that an update or a read can be stopped between any two of them. The definitions stand in `specs/`, and those of
//! sets, serials and what readers are told in `init_machine`; docs/AREA.md says in plain words why no reader sees a torn
//! value.
#![tactic(auto)]

mod history;
mod layout;
mod one;
mod putting;
mod read;
mod rule;
mod steps;
mod view;
mod words;
mod write;

pub use history::reader_history;
pub use layout::{parts, serial, top_byte};
pub use one::{OneCell, OneSeat, OneTable, OneView, one_cell, one_reader};
pub use putting::{Putting, put};
pub use read::{CellAnswer, close, copy_words, read_cell, words_place};
pub use rule::{Asked, CellRule};
pub use steps::{
    backup_word, clean_serial, copied_word, dirty_serial, first_serial, last_serial, value_word,
};
pub use view::{Bytes, CellView, Copying, Making, Set};
pub use words::{body_word, word_of};
pub use write::write_cell;
