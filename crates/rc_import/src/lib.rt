//! Loading a tree of rc files: the root file, the files of five directories, and all that they import.
//!
//! `load` reads the files in the order that `specs/Order.antt` defines over the whole tree, as long as they are within the
//! limits of `specs/Limits.antt`, and answers the actions and services that stay, with all diagnostics in order. `diagnose`
//! answers the same diagnostics, and keeps no actions and services. Both are one walk over the files (`import`), which differs
//! in what it gathers of a file (`gathers`). What the code's steps say of themselves is in `specs/internal/` and is no part of
//! any promise.
#![tactic(auto)]

mod first;
mod gathered;
mod gathers;
mod import;
mod known;
mod listing;
mod loaded;
mod loading;
mod path;
mod place;
mod world;

pub use first::{diagnose, load};
pub use loaded::{LoadLimit, LoadRefusal, Loaded};
pub use world::each_tree_has_its_world;
