//! Laws of what stands between two inputs of a legal history, and of the answers to clients.
//!
//! Each law is the contract of a function without parameters and with an empty body. It speaks of the definitions of
//! `init_machine` alone, so it holds of each core that keeps its history legal.
#![tactic(auto)]

mod answers;
mod waits;

pub use answers::sets_end_with_answers;
pub use waits::no_file_wait_is_ripe;
