//! Sources, sinks and files in memory, for tests and for callers that have the bytes already.
//!
//! Those named `Mem` are given the numbers of the calls that fail, from 1. Those named `Steady` never fail: their
//! count of faults is the constant 0. Their values to contracts stand in `specs/Memory.antt`.

pub(crate) mod files;
pub(crate) mod keeper;
pub(crate) mod plan;
pub(crate) mod sink;
pub(crate) mod source;
pub(crate) mod tree;
