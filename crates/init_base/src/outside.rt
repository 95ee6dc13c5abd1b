//! The traits of the outside: where bytes come from and go to.
//!
//! Each object counts its faults, and a call answers `Failed` exactly where its count rose, as `Counted` of
//! `specs/Faults.antt` says. What an object holds is told optionally: the clauses on content hold where it is told.

pub(crate) mod files;
pub(crate) mod keeper;
pub(crate) mod refusal;
pub(crate) mod sink;
pub(crate) mod source;
