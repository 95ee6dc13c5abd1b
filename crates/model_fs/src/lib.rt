//! The file tree of a modelled device (AOSP, init's README, "Commands"; the modes and the refusals are this project's
//! profile).
//!
//! `Tree` is a map from paths to nodes, in ascending order of paths, however it is kept. Its calls are `tree_refusal` and
//! `tree_after` of `init_machine`.
#![tactic(auto)]

mod changing;
mod entries;
mod judging;
mod node;
mod noted;
mod path;
mod places;
mod tree;

pub use tree::Tree;
