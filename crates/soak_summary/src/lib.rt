//! The summary of a run: six numbers of its report, and their text.
//!
//! A `Counter` takes the entries of a history one after another and keeps none of them; its tally is `tally_of` a report with that
//! history, as `specs/Counting.antt` says. `specs/Summary.antt` has the text of a summary.
#![tactic(auto)]

mod counter;
mod store;
mod summary;
mod tally;

pub use counter::Counter;
pub use summary::Summary;
pub use tally::Tally;
