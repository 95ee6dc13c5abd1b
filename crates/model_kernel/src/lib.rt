//! The modelled kernel: processes, their pids and planned ends, and the clock.
//!
//! Each call does what `specs/Kernel.antt` says, over the definitions of `init_machine`: a process of a path that has a
//! plan exits as planned, another one lives until it exits or is killed, and a tick takes away all that are killed or
//! whose planned end has come, in the order of their pids.
#![tactic(auto)]

mod kernel;
mod living;
mod plans;
mod process;
mod reaped;
mod refusal;

pub use kernel::Kernel;
pub use reaped::Reaped;
pub use refusal::{SpawnRefusal, TickRefusal};
