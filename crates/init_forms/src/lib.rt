//! All that the program `initsim` does, by the form of its words: it runs, races or dispatches a script over a tree of rc files,
//! checks a tree, serves messages of the property socket, audits traces, and tells how much made-up services give to do.
//!
//! `top` has the call that does all this, with its promise. It is given the files, the script, the trace, the store and the output, and
//! the gate that the actors of a race pass.
#![tactic(auto)]

mod auditing;
mod dispatching;
mod racing;
mod reports;
mod serving;
mod soaking;
mod top;
mod verdict;

pub use init_race::OpenGate;
pub use job_reader::Status;
pub use top::initsim;
