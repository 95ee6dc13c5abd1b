//! A run of a script on one thread: the machine takes the script's inputs in their order, over the shared area, and its trace is
//! written as it goes, so that no history is kept. Each client's look-ups are made by a reader of the area.
//!
//! `run` writes exactly the text of `report_of` of `specs/Run.antt`. At each entry with a `stored` output the keeper is
//! given the text of the saved pairs before that entry is written. `count` takes the same inputs over the same machine, and answers the
//! numbers of that report.
#![tactic(auto)]

mod acts;
mod counting;
mod keeping;
mod learning;
mod machine;
mod reading;
mod refusal;
mod running;
mod telling;
mod traced;

pub use counting::count;
pub use reading::read;
pub use refusal::DriveRefusal;
pub use running::{Setup, open_area, run};
