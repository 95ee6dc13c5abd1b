//! The core: the documented machine over any store of properties, one input after another.
//!
//! `Core::take` is the step of `init_machine`'s `specs/Step.antt`. Nothing is known of the store but its trait's clauses.
#![tactic(auto)]

mod boot;
mod client;
mod clock;
mod last_pairs;
mod machine;
mod next;
mod opening;
mod parting;
mod read;
mod reaping;
mod restarting;
mod step;
mod waiting;

pub use machine::{Core, CoreStop};
pub use parting::Ended;
