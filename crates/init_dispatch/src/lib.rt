//! `run_dispatch`: a script's main actor first, and then its clients' sets by sessions over a queue.
//!
//! Each client's sets are a session on a thread of its own, and one worker serves them all (`prop_dispatch`). The report is one that
//! the audit of traces returns Yes to, and has the main actor's entries before all sets (`IsDispatched`).
#![tactic(auto)]

mod laws;
mod main_actor;
mod parts;
mod running;
mod sessions;

pub use laws::each_dispatch_is_a_run;
pub use running::run_dispatch;
