//! How a part of a name compares with that of a node: by length, and then word by word.

ghost use Rattle.std.specs.Prelude.{◌≡◌, ◌+◌, ◌<◌, ◌≤◌, length, IsTrue};
ghost use Rattle.serial_value.specs.Steps.{IsSameSeat};
ghost use Rattle.serial_value.specs.Words.{text_word};
ghost use Rattle.property_trie.specs.Parts.{node_size as size_of, compare_parts as order_of};
ghost use Rattle.property_trie.specs.TrieSteps.{SitsAt, IsShortText, StandsAt, part_at};
ghost use Rattle.property_trie.specs.TreeWords.{word_order};
ghost use Rattle.std.specs.Ordering.{nat_cmp};
ghost use Rattle.std.specs.Cmp.Lexicographic.{slice_cmp};

use crate::rule::TrieRule;
use crate::steps::{node_length, node_word};
use atomic_table::{Seat, Table};
use serial_value::word_of;
use std::alloc::Global;
use std::cmp::Ordering;
use std::marker::Brand;

/// The order of two words of texts, which is that of the bytes that they hold: the first byte is the lowest.
#[tactic(auto, unfolding(crate::specs::TreeWords::word_order))]
fn compare_words(a: u64, b: u64) -> Ordering
    ensures { result ≡ word_order a b }
{
    a.swap_bytes().cmp(&b.swap_bytes())
}

/// Word `k` of a part whose first word is at hand.
fn word_at(part: &[u8], first: u64, k: usize) -> u64
    requires k { k < 32 }
    requires short { length part.now ≤ 255 }
    requires first { first ≡ text_word part.now 0 }
    ensures { result ≡ text_word part.now k }
{
    if k == 0 { first } else { word_of(part, k) }
}

/// Compares a part, whose first word is at hand, with that of the node that the walk stands at.
pub(crate) fn compare_with_node<V, K, R: TrieRule<V, K>>(
    table: &Table<(), V, K, R, Global>,
    seat: &mut Seat<(), V>,
    place: usize,
    part: &[u8],
    first: u64,
) -> Ordering
    requires table { SitsAt seat.old table.now.shared.table_id (R.words seat.old.me.0) }
    requires stands { IsTrue (R.trie seat.old.me.0).live × StandsAt (R.trie seat.old.me.0).trail place }
    requires room { place + size_of (part_at (R.trie seat.old.me.0).trail) ≤ table.now.shared.table_id.words }
    requires short { (length part.now ≤ 255) × IsShortText (part_at (R.trie seat.old.me.0).trail) }
    requires first { first ≡ text_word part.now 0 }
    ensures seat { IsSameSeat seat.old seat.new × (seat.new.me ≡ seat.old.me) }
    ensures order { result ≡ order_of part.now (part_at (R.trie seat.old.me.0).trail) }
{
    let length = node_length::<V, K, R>(table, seat, place) as usize;
    if part.len() < length {
        return Ordering::Less;
    }
    if length < part.len() {
        return Ordering::Greater;
    }
    for k in 0..part.len().div_ceil(8) {
        let own = node_word::<V, K, R, Brand>(table, seat, place, k);
        let order = compare_words(word_at(part, first, k), own);
        if order != Ordering::Equal {
            return order;
        }
    }
    Ordering::Equal
}
