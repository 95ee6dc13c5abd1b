//! When services restart: the times that are kept, and the exits of critical services.
//!
//! `Times` keeps a time for each place and finds those that are due in time of how many are due. `ExitCounts` counts the
//! exits of critical services, by `counted` of `init_machine`, and says where one is too many.
#![tactic(auto)]

mod exits;
mod times;

pub use exits::ExitCounts;
pub use times::{Times, set_both};
