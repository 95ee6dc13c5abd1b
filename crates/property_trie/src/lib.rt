//! The trie of property names, as in bionic's property area: a node for each dotted prefix of the names, of which the
//! siblings below one node are a binary search tree.
//!
//! `specs/Tree.antt` says how a trie grows by a name, as plain data, and `laws` what every trie of names is. In the words of a
//! shared table, one writer adds names while any number of readers walk: `find`, `need` and `add` are proved for every rule
//! that meets `TrieRule`, each over steps of one load or one store. What a step does to the view of the seat that makes it
//! stands in `specs/TrieSteps.antt` and `specs/Additions.antt`.
#![tactic(auto)]

mod addition;
mod compare;
mod lacking;
mod laws;
mod level;
mod levels;
mod part;
mod part_key;
mod room;
mod rule;
mod steps;
mod stores;
mod view;
mod walk;

pub use addition::add;
pub use lacking::{Missing, search_missing};
pub use laws::{
    always_lies_well, finds_its_names, has_its_prefixes, mark_is_words_used, only_extends,
    parts_tell_names,
};
pub use level::Level;
pub use levels::Levels;
pub use part::{compare_parts, node_size};
pub use part_key::PartKey;
pub use room::{need, words_from};
pub use rule::{Added, Sought, TrieRule};
pub use view::{Adding, Trail, TrieView};
pub use walk::find;
