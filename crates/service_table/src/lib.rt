//! The table of services: their definitions in declared order, their marks, and what an operation does to marks.
//!
//! `step` is `service_step` of `init_machine`, and `laws` says in words what becomes of a service that is stopped, reset,
//! restarted or oneshot when its process ends. `Table::apply` changes one place, and leaves each other one as it was.
#![tactic(auto)]

mod class;
mod fresh;
pub mod laws;
mod operation;
mod table;

pub use operation::step;
pub use table::Table;
