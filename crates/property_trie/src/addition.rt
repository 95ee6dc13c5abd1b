//! The addition of a name: its missing nodes, its cell with the first value, and the link to it.

ghost use Rattle.std.specs.Prelude.{◌≡◌, ◌+◌, ◌<◌, ◌≤◌, ◌^◌, [], drop, length, None, IsTrue};
ghost use Rattle.init_base.specs.Name.{LegalName};
ghost use Rattle.init_base.specs.Value.{LegalValue, max_value_len};
ghost use Rattle.init_machine.specs.Words as spec;
ghost use Rattle.serial_value.specs.declared.view.CellView.TheVariants.{Writer};
ghost use Rattle.serial_value.specs.Cell.{sets_of};
ghost use Rattle.serial_value.specs.Steps.{IsSameSeat, HasCell};
ghost use Rattle.property_trie.specs.Parts.{parts_of, node_size as size_of};
ghost use Rattle.property_trie.specs.Tree.{find as find_in};
ghost use Rattle.property_trie.specs.TreeWords.{link_at};
ghost use Rattle.property_trie.specs.TrieSteps.{SitsAt, IsAtRest, tree_of, missing_parts};
ghost use Rattle.property_trie.specs.Additions.{mark_of, new_place, free_place, new_node_word, new_node};
ghost use Rattle.property_trie.specs.Additions.{new_cell_word, new_cell, IsAdding, adding, with_path, with_added, HasRoom, HasPath, IsMissing};

use crate::lacking::Missing;
use crate::part::node_size;
use crate::rule::{Added, TrieRule};
use crate::stores::{fresh_word, interior_link, property_link};
use crate::walk::part_len;
use atomic_table::{Seat, Table};
use init_base::{PropName, PropValue};
use init_machine::cell_words;
use serial_value::{body_word, serial, top_byte, word_of};
use std::alloc::Global;
use std::marker::Brand;

/// Where the link to the cell stands in a node, and that to its children.
const CELL_LINK: usize = 4;

const CHILDREN_LINK: usize = 3;

/// Where a new cell comes to lie, and where the link to it stands.
#[derive(Clone, Copy)]
pub(crate) struct NewCell {
    pub link: usize,
    pub place: usize,
}

/// Word `k` of a new node of the part.
fn word_of_node(part: &[u8], k: usize) -> u64
    requires short { length part.now ≤ 255 }
    requires inside { k < size_of part.now }
    ensures { result ≡ new_node_word part.now k }
{
    if k == 0 {
        return part.len() as u64;
    }
    if k < 5 {
        return 0;
    }
    word_of(part, k - 5)
}

/// Word `k` of a new cell.
#[tactic(auto, using(serial_value::specs::impl_laws::Bodies::cell_words_body))]
fn word_of_cell(number: u64, value: &[u8], k: usize) -> u64
    requires within { length value.now ≤ 8191 }
    requires number { number < 2 ^ 55 }
    requires inside { k < spec.cell_words (length value.now) }
    ensures { result ≡ new_cell_word number value.now k }
{
    if k == 0 {
        return serial(top_byte(value), number);
    }
    body_word(value, k - 1)
}

/// Stores the words of a new node at the first free words.
fn store_node<V, K, R: TrieRule<V, K>, Q: Added>(
    table: &Table<(), V, K, R, Global>,
    seat: &mut Seat<(), V>,
    place: usize,
    part: &[u8],
)
    requires table { SitsAt seat.old table.now.shared.table_id (R.words seat.old.me.0) }
    requires place { (place ≡ free_place (sets_of (R.cell seat.old.me.0)) Q.name Q.linked)
        × (place + size_of part.now ≤ table.now.shared.table_id.words) }
    requires adds { R.Settled seat.old.me.0
        × IsAdding (R.cell seat.old.me.0) (R.trie seat.old.me.0) Q.name Q.linked [] }
    requires short { length part.now ≤ 255 }
    ensures seat { IsSameSeat seat.old seat.new }
    ensures view { seat.new.me
        ≡ (
          R.with_trie seat.old.me.0
              (adding (R.trie seat.old.me.0) Q.name Q.linked (new_node part.now)),
          seat.old.me.1,
        ) }
{
    for k in 0..node_size(part) {
        fresh_word::<V, K, R, Brand>(table, seat, place + k, word_of_node(part, k));
    }
}

/// Stores the words of a new cell at the first free words.
fn store_cell<V, K, R: TrieRule<V, K>, Q: Added>(
    table: &Table<(), V, K, R, Global>,
    seat: &mut Seat<(), V>,
    place: usize,
    number: u64,
    value: &[u8],
)
    requires table { SitsAt seat.old table.now.shared.table_id (R.words seat.old.me.0) }
    requires place { (place ≡ free_place (sets_of (R.cell seat.old.me.0)) Q.name Q.linked)
        × (place + spec.cell_words (length value.now) ≤ table.now.shared.table_id.words) }
    requires adds { R.Settled seat.old.me.0
        × IsAdding (R.cell seat.old.me.0) (R.trie seat.old.me.0) Q.name Q.linked [] }
    requires value { (length value.now ≤ 8191) × (number < 2 ^ 55) }
    ensures seat { IsSameSeat seat.old seat.new }
    ensures view { seat.new.me
        ≡ (
          R.with_trie seat.old.me.0
              (adding (R.trie seat.old.me.0) Q.name Q.linked (new_cell number value.now)),
          seat.old.me.1,
        ) }
{
    for k in 0..cell_words(value.len()) as usize {
        fresh_word::<V, K, R, Brand>(table, seat, place + k, word_of_cell(number, value, k));
    }
}

/// Makes the missing nodes of a name, each behind the one before: the parts from byte `first` on have none, and the first
/// node is to be linked at `top`.
fn make_nodes<V, K, R: TrieRule<V, K>, Q: Added>(
    table: &Table<(), V, K, R, Global>,
    seat: &mut Seat<(), V>,
    name: &[u8],
    top: usize,
    first: usize,
    mark: usize,
) -> NewCell
    requires table { SitsAt seat.old table.now.shared.table_id (R.words seat.old.me.0) }
    requires name { (name.now ≡ Q.name) × (length name.now ≤ 255) × (first ≤ length name.now) }
    requires adds { R.Settled seat.old.me.0
        × IsAdding (R.cell seat.old.me.0) (R.trie seat.old.me.0) Q.name 0 [] }
    requires rest { parts_of (drop first name.now)
        ≡ missing_parts (tree_of (sets_of (R.cell seat.old.me.0))) (parts_of Q.name) }
    requires top { (top < table.now.shared.table_id.words)
        × (top ≡ link_at 1 (tree_of (sets_of (R.cell seat.old.me.0))) (parts_of Q.name)) }
    requires room { HasRoom table.now.shared.table_id.words (sets_of (R.cell seat.old.me.0)) Q.name mark }
    ensures seat { IsSameSeat seat.old seat.new }
    ensures view { seat.new.me
        ≡ (with_path R.with_trie (R.cell seat.old.me.0) (R.trie seat.old.me.0) seat.old.me.0 Q.name, seat.old.me.1) }
    ensures path { HasPath table.now.shared.table_id.words (sets_of (R.cell seat.old.me.0)) Q.name result }
{
    let mut link = top;
    let mut from = first;
    let mut place = mark;
    'parts: loop {
        let rest = &name[from..];
        let len = part_len(rest);
        let part = &rest[..len];
        store_node::<V, K, R, Brand>(table, seat, place, part);
        interior_link::<V, K, R, Brand>(table, seat, link, place, part);
        let free = place + node_size(part);
        let end = from + len;
        if end == name.len() {
            return NewCell {
                link: place + CELL_LINK,
                place: free,
            };
        }
        from = end + 1;
        link = place + CHILDREN_LINK;
        place = free;
    }
}

/// Makes the nodes that a name misses, if any.
fn make_path<V, K, R: TrieRule<V, K>, Q: Added>(
    table: &Table<(), V, K, R, Global>,
    seat: &mut Seat<(), V>,
    name: &[u8],
    mark: usize,
    missing: Missing,
) -> NewCell
    requires table { SitsAt seat.old table.now.shared.table_id (R.words seat.old.me.0) }
    requires top { 16 ≤ table.now.shared.table_id.words }
    requires name { (name.now ≡ Q.name) × (length name.now ≤ 255) }
    requires adds { R.Settled seat.old.me.0
        × IsAdding (R.cell seat.old.me.0) (R.trie seat.old.me.0) Q.name 0 [] }
    requires rests { IsAtRest (R.trie seat.old.me.0) }
    requires missing { IsMissing table.now.shared.table_id.words (sets_of (R.cell seat.old.me.0)) Q.name missing }
    requires room { HasRoom table.now.shared.table_id.words (sets_of (R.cell seat.old.me.0)) Q.name mark }
    ensures seat { IsSameSeat seat.old seat.new }
    ensures view { seat.new.me
        ≡ (with_path R.with_trie (R.cell seat.old.me.0) (R.trie seat.old.me.0) seat.old.me.0 Q.name, seat.old.me.1) }
    ensures path { HasPath table.now.shared.table_id.words (sets_of (R.cell seat.old.me.0)) Q.name result }
{
    match missing {
        Missing::Cell { link } => NewCell { link, place: mark },
        Missing::Nodes { link, from } => {
            make_nodes::<V, K, R, Q>(table, seat, name, link, from, mark)
        }
    }
}

fn add_as<V, K, R: TrieRule<V, K>, Q: Added>(
    table: &Table<(), V, K, R, Global>,
    seat: &mut Seat<(), V>,
    name: &[u8],
    number: u64,
    value: &[u8],
    mark: usize,
    missing: Missing,
) -> usize
    requires table { SitsAt seat.old table.now.shared.table_id (R.words seat.old.me.0) }
    requires top { 16 ≤ table.now.shared.table_id.words }
    requires name { (name.now ≡ Q.name) × (length name.now ≤ 255) }
    requires value { (value.now ≡ Q.value) × (length value.now ≤ max_value_len name.now) }
    requires adds { R.Settled seat.old.me.0
        × IsAdding (R.cell seat.old.me.0) (R.trie seat.old.me.0) Q.name 0 [] }
    requires rests { IsAtRest (R.trie seat.old.me.0) }
    requires number { (number ≡ length (sets_of (R.cell seat.old.me.0)) + 1) × (number < 2 ^ 55) }
    requires missing { IsMissing table.now.shared.table_id.words (sets_of (R.cell seat.old.me.0)) Q.name missing }
    requires mark { mark ≡ mark_of (sets_of (R.cell seat.old.me.0)) }
    requires room { new_place (sets_of (R.cell seat.old.me.0)) Q.name + spec.cell_words
        (length value.now) ≤ table.now.shared.table_id.words }
    ensures seat { IsSameSeat seat.old seat.new }
    ensures place { result ≡ new_place (sets_of (R.cell seat.old.me.0)) Q.name }
    ensures view { seat.new.me
        ≡ (
          with_added R.with_cell R.with_trie (R.cell seat.old.me.0) (R.trie seat.old.me.0) seat.old.me.0
              Q.name Q.value result,
          seat.old.me.1,
        ) }
{
    let new = make_path::<V, K, R, Q>(table, seat, name, mark, missing);
    store_cell::<V, K, R, Brand>(table, seat, new.place, number, value);
    property_link::<V, K, R, Brand>(table, seat, new.link, new.place);
    new.place
}

/// Adds a name that is in no set, with its first value, and answers where its cell lies. Each missing node is made, its
/// words before the link to it, from the first part on; then the cell, and last the link to it, with which the set is
/// accepted. `mark` is the first free word, which is afterwards the one behind the cell, and `missing` what the name misses: the last two
/// parameters are what the writer knows of the trie, and no word tells. It takes no memory, and waits for nothing.
pub fn add<V, K, R: TrieRule<V, K>>(
    table: &Table<(), V, K, R, Global>,
    seat: &mut Seat<(), V>,
    name: PropName<'_>,
    number: u64,
    value: PropValue<'_>,
    mark: usize,
    missing: Missing,
) -> usize
    requires table { SitsAt seat.old table.now.shared.table_id (R.words seat.old.me.0) }
    requires top { 16 ≤ table.now.shared.table_id.words }
    requires writer { (R.cell seat.old.me.0 ≡ Writer (sets_of (R.cell seat.old.me.0)) None) × R.Settled seat.old.me.0
        × IsAtRest (R.trie seat.old.me.0) }
    requires absent { find_in (tree_of (sets_of (R.cell seat.old.me.0))) (parts_of name.bytes.now) ≡ 0 }
    requires legal { LegalValue name.bytes.now value.bytes.now }
    requires number { (number ≡ length (sets_of (R.cell seat.old.me.0)) + 1) × (number < 2 ^ 55) }
    requires missing { IsMissing table.now.shared.table_id.words (sets_of (R.cell seat.old.me.0)) name.bytes.now missing }
    requires mark { mark ≡ mark_of (sets_of (R.cell seat.old.me.0)) }
    requires room { new_place (sets_of (R.cell seat.old.me.0)) name.bytes.now
        + spec.cell_words (length value.bytes.now) ≤ table.now.shared.table_id.words }
    ensures seat { IsSameSeat seat.old seat.new }
    ensures place { result ≡ new_place (sets_of (R.cell seat.old.me.0)) name.entry.bytes.now }
    ensures view { seat.new.me
        ≡ (
          with_added R.with_cell R.with_trie (R.cell seat.old.me.0) (R.trie seat.old.me.0) seat.old.me.0
              name.entry.bytes.now value.entry.bytes.now result,
          seat.old.me.1,
        ) }
    ensures linked { R.Linked seat.new.me.0 name.entry.bytes.now result }
{
    add_as::<V, K, R, Brand>(table, seat, name.bytes, number, value.bytes, mark, missing)
}
