//! Sources, sinks and files of the machine that the program runs on, over std.
//!
//! They tell no content, open at the first call, and count each fault. That the real files behave as the traits say
//! is not proved: the adapters are the trusted edge. A value of an adapter is its count of faults to contracts. What is
//! proved is the walk through links to the place of a path, for every tree of links that stays as it is.

pub(crate) mod count;
pub(crate) mod fault;
pub(crate) mod files;
pub(crate) mod folders;
pub(crate) mod keeper;
pub(crate) mod links;
pub(crate) mod machine;
pub(crate) mod machine_links;
pub(crate) mod resolve;
pub(crate) mod sink;
pub(crate) mod source;
