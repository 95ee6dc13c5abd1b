//! The words that a name needs.

ghost use Rattle.std.specs.Prelude.{◌≡◌, ◌+◌, ◌*◌, ◌≤◌, drop, length};
ghost use Rattle.init_machine.specs.Words.{cell_words as cell_words_of, need_of};
ghost use Rattle.serial_value.specs.Cell.{sets_of, IsWriter};
ghost use Rattle.serial_value.specs.Steps.{IsSameSeat};
ghost use Rattle.property_trie.specs.Parts.{parts_of};
ghost use Rattle.property_trie.specs.Tree.{node_sizes, each_once};
ghost use Rattle.property_trie.specs.TrieSteps.{SitsAt, IsAtRest, sizes_of, tree_of, looked_up, words_missing, IsWithin};

use crate::part::node_size;
use crate::rule::{Sought, TrieRule};
use crate::walk::{SearchEnd, part_len, search};
use atomic_table::{Seat, Table};
use init_base::PropName;
use init_machine::cell_words;
use std::alloc::Global;
use std::marker::Brand;

/// The words of the nodes of a text's parts.
fn nodes_size(text: &[u8]) -> usize
    requires { length text.now ≤ 255 }
    ensures size { result ≡ node_sizes (parts_of text.now) }
    ensures small { result ≤ 6 * (length text.now + 1) }
{
    let mut size = 0;
    let mut from = 0;
    'parts: loop {
        let rest = &text[from..];
        let part = &rest[..part_len(rest)];
        size += node_size(part);
        let end = from + part.len();
        if end == text.len() {
            return size;
        }
        from = end + 1;
    }
}

/// The words of the missing nodes and of a cell, where a search ended.
fn words_at(name: &[u8], len: usize, end: SearchEnd) -> u64
    requires short { length name.now ≤ 255 }
    requires within { IsWithin name.now end }
    ensures { result ≡ words_missing name.now len end }
{
    match end {
        SearchEnd::Cell(_) => 0,
        SearchEnd::NoCell(_) => cell_words(len),
        SearchEnd::NoNode(_, from) => words_from(name, from, len),
    }
}

/// The words of a cell, and of the nodes of a name's parts from a byte on.
pub fn words_from(name: &[u8], from: usize, len: usize) -> u64
    requires short { length name.now ≤ 255 }
    requires within { from ≤ length name.now }
    ensures { result ≡ cell_words_of len + node_sizes (parts_of (drop from name.now)) }
{
    cell_words(len) + nodes_size(&name[from..]) as u64
}

fn need_as<V, K, R: TrieRule<V, K>, Q: Sought>(
    table: &Table<(), V, K, R, Global>,
    seat: &mut Seat<(), V>,
    name: &[u8],
    len: usize,
) -> u64
    requires table { SitsAt seat.old table.now.shared.table_id (R.words seat.old.me.0) }
    requires top { 16 ≤ table.now.shared.table_id.words }
    requires name { (name.now ≡ Q.name) × (length name.now ≤ 255) }
    requires writer { IsWriter (R.cell seat.old.me.0) × IsAtRest (R.trie seat.old.me.0) }
    ensures seat { IsSameSeat seat.old seat.new × (seat.new.me.1 ≡ seat.old.me.1) }
    ensures need { result ≡ need_of (each_once (sizes_of (sets_of (R.cell seat.old.me.0)))) Q.name len }
    ensures view { seat.new.me.0
        ≡ looked_up R.with_trie (tree_of (sets_of (R.cell seat.old.me.0))) (R.trie seat.old.me.0) seat.old.me.0 Q.name }
{
    let end = search::<V, K, R, Q>(table, seat, name);
    words_at(name, len, end)
}

/// The words that a name needs with a value of so many bytes: those of the nodes that its dotted prefixes have not yet, and of
/// its cell. 0 exactly where the name is in a set. It is the writer's alone, and takes no memory.
pub fn need<V, K, R: TrieRule<V, K>>(
    table: &Table<(), V, K, R, Global>,
    seat: &mut Seat<(), V>,
    name: PropName<'_>,
    len: usize,
) -> u64
    requires table { SitsAt seat.old table.now.shared.table_id (R.words seat.old.me.0) }
    requires top { 16 ≤ table.now.shared.table_id.words }
    requires writer { IsWriter (R.cell seat.old.me.0) × IsAtRest (R.trie seat.old.me.0) }
    ensures seat { IsSameSeat seat.old seat.new × (seat.new.me.1 ≡ seat.old.me.1) }
    ensures need { result ≡ need_of (each_once (sizes_of (sets_of (R.cell seat.old.me.0)))) name.entry.bytes.now len }
    ensures view { seat.new.me.0
        ≡ looked_up R.with_trie (tree_of (sets_of (R.cell seat.old.me.0))) (R.trie seat.old.me.0) seat.old.me.0 name.entry.bytes.now }
{
    need_as::<V, K, R, Brand>(table, seat, name.bytes, len)
}
