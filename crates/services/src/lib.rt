//! The declared services: the table of their marks, the exits of critical ones, and the times at which they are due.
//!
//! `Services` keeps the times of restarts and of timeouts beside the marks, in order, so that a tick costs what is due. Its
//! type says that they are those of the marks that a clock can reach; its definitions stand in `specs/Services.antt` and
//! `specs/Times.antt`.
#![tactic(auto)]

mod options;
mod services;

pub use services::Services;
