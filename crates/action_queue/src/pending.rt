//! What of a queue changes. `shown` of `specs/Pending.antt` says what it stands for.

use init_base::{Fifo, List};
use init_machine::Event;

/// The events that wait, and the actions that an event began, by their places.
#[derive(Drop)]
pub struct Pending {
    pub events: Fifo<Event>,
    /// The actions that the last event began, in their order. Those before `first` are done.
    pub begun: List<usize>,
    pub first: usize,
    /// How many commands of the first running action were taken.
    pub command: usize,
    /// Whether changes of properties queue events.
    pub changes: bool,
}
