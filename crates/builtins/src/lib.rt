//! Commands: what each asks for, and what it does (AOSP, init's README, "Commands").
//!
//! `run` does what a command says, as `effect` of `init_machine`'s `specs/Effect.antt` has it. A command that fails is a
//! defined outcome.
#![tactic(auto)]

mod arguments;
mod at_once;
mod expanding;
mod forms;
mod on_services;
mod performing;
mod running;
mod saved;
mod task;
mod tree_calls;
mod waits;

pub use running::{run, run_queued};
pub use task::no_long_wait;
