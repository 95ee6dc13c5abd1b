//! `run_wire`: a machine that has booted, and then serves the messages of one client.
//!
//! The machine keeps no history, so its memory doesn't grow with the messages. `specs/Opening.antt` says who sends them,
//! `specs/Served.antt` what is written.
#![tactic(auto)]

mod booting;
mod running;
mod script;

pub use running::run_wire;
pub use script::one_client;
