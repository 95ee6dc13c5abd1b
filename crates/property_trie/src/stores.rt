//! The steps of an addition. Each is one store of one word, for every rule that meets `TrieRule`; a fresh word that stands in its place
//! already, as a 0 where nothing was stored, is put there by a load.

ghost use Rattle.std.specs.Prelude.{◌≡◌, ◌<◌, ◌≤◌, ◌+◌, ◌^◌, suc, [], ◌∷◌, ◌++◌, List, ℕ, length};
ghost use Rattle.init_base.specs.Value.{max_value_len};
ghost use Rattle.serial_value.specs.Steps.{IsSameSeat};
ghost use Rattle.serial_value.specs.Words.{IsValue};
ghost use Rattle.serial_value.specs.Cell.{sets_of};
ghost use Rattle.property_trie.specs.Parts.{parts_of};
ghost use Rattle.property_trie.specs.TreeWords.{link_at};
ghost use Rattle.property_trie.specs.Walk.{EndsAt};
ghost use Rattle.property_trie.specs.TrieSteps.{SitsAt};
ghost use Rattle.property_trie.specs.Additions.{IsAdding, IsNext, adding, free_place, tree_with, new_node, new_cell, with_added};

use crate::rule::{Added, TrieRule};
use atomic_table::{Play, Seat, Table};
use serial_value::put;
use std::alloc::Global;
use std::marker::{Brand, PhantomData};

/// The store of the link to a node.
struct NodeLinked<K, R, Q> {
    marker: PhantomData<(K, R, Q)>,
}

impl<V, K, R: TrieRule<V, K>, Q: Added> Play<(), V> for NodeLinked<K, R, Q> {
    ghost then = { λ st m n after. after ≡ (R.with_trie m.0 (adding (R.trie m.0) Q.name (suc Q.linked) []), m.1) };
}

/// The store of the link to a cell.
struct CellLinked<K, R, Q> {
    marker: PhantomData<(K, R, Q)>,
}

impl<V, K, R: TrieRule<V, K>, Q: Added> Play<(), V> for CellLinked<K, R, Q> {
    ghost then = { λ st m n after. after ≡ (with_added R.with_cell R.with_trie (R.cell m.0) (R.trie m.0) m.0 Q.name Q.value n, m.1) };
}

/// The next free word gets this word.
pub(crate) fn fresh_word<V, K, R: TrieRule<V, K>, Q: Added>(
    table: &Table<(), V, K, R, Global>,
    seat: &mut Seat<(), V>,
    place: usize,
    word: u64,
)
    requires table { SitsAt seat.old table.now.shared.table_id (R.words seat.old.me.0) }
    requires place { (place < table.now.shared.table_id.words)
        × (place ≡ free_place (sets_of (R.cell seat.old.me.0)) Q.name Q.linked + length Q.fresh) }
    requires adds { R.Settled seat.old.me.0
        × IsAdding (R.cell seat.old.me.0) (R.trie seat.old.me.0) Q.name Q.linked Q.fresh }
    ensures seat { IsSameSeat seat.old seat.new }
    ensures view { seat.new.me
        ≡ (R.with_trie seat.old.me.0 (adding (R.trie seat.old.me.0) Q.name Q.linked (Q.fresh ++ word ∷ [])), seat.old.me.1) }
{
    put::<V, K, R, Brand>(table, seat, place, word);
}

/// The node at the place, whose words stand all, is linked at `link`.
pub(crate) fn interior_link<V, K, R: TrieRule<V, K>, Q: Added>(
    table: &Table<(), V, K, R, Global>,
    seat: &mut Seat<(), V>,
    link: usize,
    place: usize,
    part: &[u8],
)
    requires table { seat.old.table_id ≡ table.now.shared.table_id }
    requires link { (link < table.now.shared.table_id.words)
        × (link ≡ link_at 1 (tree_with (sets_of (R.cell seat.old.me.0)) Q.name Q.linked) (parts_of Q.name)) }
    requires place { place ≡ free_place (sets_of (R.cell seat.old.me.0)) Q.name Q.linked }
    requires adds { R.Settled seat.old.me.0
        × IsAdding (R.cell seat.old.me.0) (R.trie seat.old.me.0) Q.name Q.linked (new_node part.now) }
    requires next { IsNext (sets_of (R.cell seat.old.me.0)) Q.name Q.linked part.now }
    ensures seat { IsSameSeat seat.old seat.new }
    ensures view { seat.new.me
        ≡ (R.with_trie seat.old.me.0 (adding (R.trie seat.old.me.0) Q.name (suc Q.linked) []), seat.old.me.1) }
{
    table
        .shared
        .store::<NodeLinked<K, R, Q>>(seat, link, place as u64);
}

/// The cell at the place, whose words stand all, is linked at `link`, and the set is accepted.
pub(crate) fn property_link<V, K, R: TrieRule<V, K>, Q: Added>(
    table: &Table<(), V, K, R, Global>,
    seat: &mut Seat<(), V>,
    link: usize,
    place: usize,
)
    requires table { seat.old.table_id ≡ table.now.shared.table_id }
    requires link { (link < table.now.shared.table_id.words)
        × EndsAt (tree_with (sets_of (R.cell seat.old.me.0)) Q.name Q.linked) (parts_of Q.name) link }
    requires place { place ≡ free_place (sets_of (R.cell seat.old.me.0)) Q.name Q.linked }
    requires adds { R.Settled seat.old.me.0
        × IsAdding (R.cell seat.old.me.0) (R.trie seat.old.me.0) Q.name Q.linked
        (new_cell (length (sets_of (R.cell seat.old.me.0)) + 1) Q.value) }
    requires value { IsValue Q.value × (length Q.value ≤ max_value_len Q.name)
        × (length (sets_of (R.cell seat.old.me.0)) + 1 < 2 ^ 55) }
    ensures seat { IsSameSeat seat.old seat.new }
    ensures view { seat.new.me
        ≡ (
          with_added R.with_cell R.with_trie (R.cell seat.old.me.0) (R.trie seat.old.me.0) seat.old.me.0
              Q.name Q.value place,
          seat.old.me.1,
        ) }
{
    table
        .shared
        .store::<CellLinked<K, R, Q>>(seat, link, place as u64);
}
