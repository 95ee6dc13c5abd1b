//! The parts of a name, which are what stands between its dots. Their order is `compare_parts` of `specs/Parts.antt`.

ghost use Rattle.std.specs.Prelude.{◌≡◌, ◌≤◌, length};
ghost use Rattle.property_trie.specs.Parts.{node_size as node_size_of, compare_parts as order_of};

use std::cmp::Ordering;

/// The words of a node beside those of its part.
const NODE_WORDS: usize = 5;

/// The words of a part's node: five, and those of its bytes, eight to a word.
pub fn node_size(part: &[u8]) -> usize
    requires { length part.now ≤ 255 }
    ensures { result ≡ node_size_of part.now }
{
    NODE_WORDS + part.len().div_ceil(8)
}

/// The order of two siblings: by length first, and then by bytes.
pub fn compare_parts(a: &[u8], b: &[u8]) -> Ordering
    ensures { result ≡ order_of a.now b.now }
{
    match a.len().cmp(&b.len()) {
        Ordering::Less => Ordering::Less,
        Ordering::Equal => a.cmp(b),
        Ordering::Greater => Ordering::Greater,
    }
}
