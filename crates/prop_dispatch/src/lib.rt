//! Sessions on threads of their own push requests into one bounded queue, and one worker, which owns the service, pops and serves them.
//!
//! The queue has a protocol (`specs/internal/Rule.antt`): what was popped of a session, and then what the queue holds of it, is what the
//! session has pushed. So at the end each session's requests are in the history, each once and in order (`IsRelayed`). Nothing is
//! promised of the order between sessions.
#![tactic(auto)]

mod beside;
mod dispatching;
mod entering;
mod in_turn;
mod pace;
mod passing;
mod protocol;
mod seat;
mod senders;
mod session;
mod verdict;
mod worker;

pub use dispatching::{DispatchRefusal, Dispatched, dispatch};
pub use pace::{OpenPace, Pace};
pub use session::Session;
pub use verdict::Verdict;
