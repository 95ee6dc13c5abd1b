//! The audit of a trace: whether the documented machine can have written it, and if not, what is wrong first.
//!
//! `audit` says Yes exactly where `Audited` of `specs/Audited.antt` holds of the report that the trace is the text of. Whoever
//! gets a trace from somebody else, as of a race on threads or of another implementation, learns by it whether to believe it.
//! Nothing is known of how the trace was made.
#![tactic(auto)]

mod auditing;
mod clients;
mod facts;
mod legal;
mod merge;
mod order;
mod progress;
mod readings;
mod same;
mod same_output;
mod serials;
mod sets;
mod taking;
mod told;
mod verdict;

pub use auditing::{audit, audit_text};
pub use verdict::{Verdict, Why};
