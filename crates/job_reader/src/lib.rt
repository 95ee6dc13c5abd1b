//! What a run, a race or an audit stands on is read, and what a check does: the script, the policy and the rc files of the tree, the
//! persistent store, a trace. The first refusal ends it.
//!
//! Each reader gives what its text says by the definition of the format, or a `Stop`: where that definition has none, past a limit,
//! at a read that fails, or for want of memory. `specs/Stops.antt` says when each comes; the status of the program tells it.
#![tactic(auto)]

mod grammar;
mod loading;
mod preparing;
mod reading;
mod status;
mod stop;
mod texts;

pub use grammar::Grammar;
pub use loading::diagnose;
pub use preparing::{Job, prepare, prepare_with};
pub use reading::read_trace;
pub use status::Status;
pub use stop::Stop;
pub use texts::read_build_files;
