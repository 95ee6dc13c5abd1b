//! The walk for a name, from the link of the first level to the link of its cell. It takes no lock and no memory.

ghost use Rattle.std.specs.Prelude.{◌≡◌, ◌+◌, ◌<◌, ◌≤◌, ◌^◌, ◌==◌, ◌∷◌, take, drop, length, IsTrue, Some, None, MatchResult, IfSome, IfErr};
ghost use Rattle.std.specs.List.{position};
ghost use Rattle.serial_value.specs.Steps.{IsSameSeat, HasCell};
ghost use Rattle.serial_value.specs.Words.{text_word};
ghost use Rattle.property_trie.specs.Parts.{parts_of, parts_behind};
ghost use Rattle.property_trie.specs.Tree.{find as find_in};
ghost use Rattle.property_trie.specs.TrieSteps.{SitsAt, IsAtRest, LeadsTo, ComesTo, ReachesNode, ReachesNone, Searches, LinkInside, Finds};

use crate::compare::compare_with_node;
use crate::rule::{Sought, TrieRule};
use crate::steps::{cell_link, followed_link};
use atomic_table::{Seat, Table};
use init_base::PropName;
use serial_value::word_of;
use std::alloc::Global;
use std::cmp::Ordering;
use std::marker::Brand;

/// The word that has the link to the first level.
const TOP: usize = 1;

/// Where a search for a name ends.
pub(crate) enum SearchEnd {
    /// At the place of its cell.
    Cell(usize),
    /// At the node of the whole name: the link to its cell, which lies at this place, is 0.
    NoCell(usize),
    /// At a link that is 0, which lies at this place: from this byte of the name on, its parts have no node.
    NoNode(usize, usize),
}

/// Where the first dot stands.
fn first_dot(rest: &[u8]) -> Option<usize>
    ensures { result ≡ position (λ b. b == 46) rest.now }
{
    rest.iter().position(|b| *b == b'.')
}

/// How many bytes the first part has.
pub(crate) fn part_len(rest: &[u8]) -> usize
    ensures first { parts_of rest.now ≡ take result rest.now ∷ parts_behind result rest.now }
    ensures inside { result ≤ length rest.now }
{
    first_dot(rest).unwrap_or(rest.len())
}

/// How many bytes the first part has, and its first word. One pass finds the dot and gathers the word of a short part.
fn first_part(rest: &[u8]) -> (usize, u64)
    requires short { length rest.now ≤ 255 }
    ensures first { parts_of rest.now ≡ take result.0 rest.now ∷ parts_behind result.0 rest.now }
    ensures inside { result.0 ≤ length rest.now }
    ensures word { result.1 ≡ text_word (take result.0 rest.now) 0 }
{
    let mut bytes = [0u8; 8];
    for j in 0..8 {
        if j == rest.len() || rest[j] == b'.' {
            return (j, u64::from_le_bytes(bytes));
        }
        bytes[j] = rest[j];
    }
    let len = part_len(rest);
    (len, word_of(&rest[..len], 0))
}

/// Walks among the siblings for the first part of `rest`, which has this length and this first word: to its node, or to
/// the link, which is 0, that would lead to it.
fn find_node<V, K, R: TrieRule<V, K>, Q: Sought>(
    table: &Table<(), V, K, R, Global>,
    seat: &mut Seat<(), V>,
    top: usize,
    rest: &[u8],
    len: usize,
    first: u64,
) -> Result<usize, usize>
    requires table { SitsAt seat.old table.now.shared.table_id (R.words seat.old.me.0) }
    requires top { top < table.now.shared.table_id.words }
    requires rest { (parts_of rest.now ≡ Q.rest) × (length rest.now ≤ 255) }
    requires first { parts_of rest.now ≡ take len rest.now ∷ parts_behind len rest.now }
    requires inside { len ≤ length rest.now }
    requires word { first ≡ text_word (take len rest.now) 0 }
    requires leads { LeadsTo (R.trie seat.old.me.0) Q.name top Q.rest }
    ensures seat { IsSameSeat seat.old seat.new × (seat.new.me.1 ≡ seat.old.me.1) }
    ensures ends { let v = seat.old.me.0 in MatchResult result
        (λ place. ReachesNode R.with_trie R.noted (R.words v) (R.cell v) (R.trie v) v Q.name Q.rest place seat.new.me.0)
        (λ link. ReachesNone R.with_trie R.noted (R.cell v) (R.trie v) v Q.name Q.rest link seat.new.me.0) }
    ensures inside { IfErr result (λ link. link < table.now.shared.table_id.words) }
{
    let part = &rest[..len];
    let mut link = top;
    'siblings: loop {
        let place = followed_link::<V, K, R, Brand>(table, seat, link) as usize;
        if place == 0 {
            return Err(link);
        }
        let order = compare_with_node::<V, K, R>(table, seat, place, part, first);
        match order {
            Ordering::Less => link = place + 1,
            Ordering::Equal => return Ok(place),
            Ordering::Greater => link = place + 2,
        }
    }
}

/// Where the search ends that has come to the node of the last part.
fn end_at_node<V, K, R: TrieRule<V, K>, Q: Sought>(
    table: &Table<(), V, K, R, Global>,
    seat: &mut Seat<(), V>,
    place: usize,
) -> SearchEnd
    requires table { SitsAt seat.old table.now.shared.table_id (R.words seat.old.me.0) }
    requires place { place + 5 ≤ table.now.shared.table_id.words }
    requires comes { ComesTo (R.trie seat.old.me.0) Q.name (place + 4) }
    ensures seat { IsSameSeat seat.old seat.new × (seat.new.me.1 ≡ seat.old.me.1) }
    ensures ends { let v = seat.old.me.0 in
        Searches R.with_trie R.noted (R.words v) (R.cell v) (R.trie v) v Q.name result seat.new.me.0 }
    ensures inside { LinkInside table.now.shared.table_id.words result }
{
    let link = place + 4;
    match cell_link::<V, K, R, Brand>(table, seat, link) as usize {
        0 => SearchEnd::NoCell(link),
        cell => SearchEnd::Cell(cell),
    }
}

/// Searches the cell of a name, or where its first missing node or its cell would be linked.
pub(crate) fn search<V, K, R: TrieRule<V, K>, Q: Sought>(
    table: &Table<(), V, K, R, Global>,
    seat: &mut Seat<(), V>,
    name: &[u8],
) -> SearchEnd
    requires table { SitsAt seat.old table.now.shared.table_id (R.words seat.old.me.0) }
    requires top { 16 ≤ table.now.shared.table_id.words }
    requires name { (name.now ≡ Q.name) × (length name.now ≤ 255) }
    requires rests { IsAtRest (R.trie seat.old.me.0) }
    ensures seat { IsSameSeat seat.old seat.new × (seat.new.me.1 ≡ seat.old.me.1) }
    ensures ends { let v = seat.old.me.0 in
        Searches R.with_trie R.noted (R.words v) (R.cell v) (R.trie v) v Q.name result seat.new.me.0 }
    ensures inside { LinkInside table.now.shared.table_id.words result }
{
    let mut from = 0;
    let mut link = TOP;
    'parts: loop {
        let rest = &name[from..];
        let (len, first) = first_part(rest);
        let place = match find_node::<V, K, R, Brand>(table, seat, link, rest, len, first) {
            Ok(place) => place,
            Err(none) => return SearchEnd::NoNode(none, from),
        };
        let end = from + len;
        if end == name.len() {
            return end_at_node::<V, K, R, Brand>(table, seat, place);
        }
        from = end + 1;
        link = place + 3;
    }
}

fn find_as<V, K, R: TrieRule<V, K>, Q: Sought>(
    table: &Table<(), V, K, R, Global>,
    seat: &mut Seat<(), V>,
    name: &[u8],
) -> Option<usize>
    requires table { SitsAt seat.old table.now.shared.table_id (R.words seat.old.me.0) }
    requires top { 16 ≤ table.now.shared.table_id.words }
    requires name { (name.now ≡ Q.name) × (length name.now ≤ 255) }
    requires rests { IsAtRest (R.trie seat.old.me.0) }
    ensures seat { IsSameSeat seat.old seat.new × (seat.new.me.1 ≡ seat.old.me.1) }
    ensures found { let v = seat.old.me.0 in
        Finds R.with_trie R.noted (R.words v) (R.cell v) (R.trie v) v Q.name result seat.new.me.0 }
{
    match search::<V, K, R, Q>(table, seat, name) {
        SearchEnd::Cell(place) => Some(place),
        SearchEnd::NoCell(_) => None,
        SearchEnd::NoNode(_, _) => None,
    }
}

/// The place of the name's cell, or none. The writer gets none exactly where the name is in no set. A reader that gets none
/// was told, by a link of 0, that the name is absent, and that reading is noted. It takes no lock and no memory, and waits
/// for nothing: each link leads upwards.
pub fn find<V, K, R: TrieRule<V, K>>(
    table: &Table<(), V, K, R, Global>,
    seat: &mut Seat<(), V>,
    name: PropName<'_>,
) -> Option<usize>
    requires table { SitsAt seat.old table.now.shared.table_id (R.words seat.old.me.0) }
    requires top { 16 ≤ table.now.shared.table_id.words }
    requires rests { IsAtRest (R.trie seat.old.me.0) }
    ensures seat { IsSameSeat seat.old seat.new × (seat.new.me.1 ≡ seat.old.me.1) }
    ensures found { let v = seat.old.me.0 in
        Finds R.with_trie R.noted (R.words v) (R.cell v) (R.trie v) v name.entry.bytes.now result seat.new.me.0 }
    ensures linked { IfSome result
        (λ place. HasCell table.now.shared.table_id place × R.Linked seat.new.me.0 name.entry.bytes.now place) }
{
    find_as::<V, K, R, Brand>(table, seat, name.bytes)
}
