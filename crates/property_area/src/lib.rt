//! The shared property area: one writer and any number of readers over one table of words.
//!
//! The words are a head, the trie of the names and the cells of the values, as docs/AREA.md lays them out. `WordArea` is the
//! rule that the table keeps between any two steps (`specs/Area.antt`): it meets `CellRule` and `TrieRule`, so that
//! `write_cell`, `read_cell`, `find`, `need` and `add` serve on it. Why each kind of step keeps it stands in `specs/impl_laws/`, a
//! file for each.
#![tactic(auto)]

mod area;
mod handing;
mod head;
mod index;
mod places;
mod reader;
mod room;
mod rule;
mod store;
#[cfg(test)]
mod tests;
mod view;
mod writer;

pub use area::{Area, AreaRefusal, WriterSeat};
pub use handing::Recording;
pub use reader::{ReadAnswer, Reader};
pub use rule::WordArea;
pub use view::{AreaView, Client};
pub use writer::AreaWriter;
