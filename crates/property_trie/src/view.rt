//! What a seat at a table with a trie knows. No value of these types is made: contracts alone see them.

use serial_value::Bytes;
use std::collections::LinkedList;

/// A walk that stands at a node: the name that is looked for, its parts that are left, and the node's place and part.
pub struct Trail {
    pub name: Bytes,
    pub rest: LinkedList<Bytes>,
    pub place: u64,
    pub part: Bytes,
}

/// The addition of a name that is under way: how many of its missing nodes are linked, and the words that stand from the
/// first free word on.
pub struct Adding {
    pub name: Bytes,
    pub linked: u64,
    pub fresh: LinkedList<u64>,
}

/// The part of a view that the steps at the trie change. A seat that another has taken in isn't live any more. `known` has
/// the names whose cells the seat has found, each with its place.
pub struct TrieView {
    pub live: bool,
    pub known: LinkedList<(Bytes, u64)>,
    pub trail: Option<Trail>,
    pub adding: Option<Adding>,
}
