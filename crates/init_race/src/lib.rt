//! `race`: a script's clients on threads of their own, beside the main actor, over one service and its shared area.
//!
//! What a race answers is a report that the audit of traces answers Yes to (`Audited` of `trace_audit`): the history merges the
//! script's parts and is legal, and each client's readings answer its requests, stand, and are in order.
#![tactic(auto)]

mod actors;
mod gate;
mod racing;
mod refusal;
mod seating;
mod threads;

pub use actors::{Acted, Stage};
pub use gate::{Gate, OpenGate, Point};
pub use racing::{Ended, Raced, end_with, leave, race};
pub use refusal::RaceRefusal;
pub use seating::boot;
