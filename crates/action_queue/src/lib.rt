//! The queue of init: the events that wait, the actions that run, and which command is next (AOSP, init's README,
//! "Actions" and "Triggers").
//!
//! `Queue::next` takes events while no action runs, as `taken_now` of `init_machine` says, and answers the place of the
//! next command. The definitions stand in `specs/Queue.antt`.
#![tactic(auto)]

mod by_name;
mod index;
mod matching;
mod pending;
mod queue;
mod running;
mod taking;
mod triggers;

pub use queue::Queue;
