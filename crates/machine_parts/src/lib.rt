//! The parts of the machine's state, over any store of properties: sets of properties, and operations on services.
//!
//! Each call does what its definition in `init_machine` says: `Does` of `specs/Parts.antt` ties the parts to the state of
//! the machine and to the lines that are written. A call that ends for want of memory may have done a part of this, and the
//! parts aren't used again then.
#![tactic(auto)]

mod environment;
mod judging;
mod operations;
mod parts;
mod saved;
mod schedule;
mod setting;
mod variable;

pub use environment::Environment;
pub use operations::{operate, operate_each, set_by, tell};
pub use parts::Parts;
pub use saved::Saved;
pub use schedule::Schedule;
pub use setting::{add_refusal, release, set_property};
