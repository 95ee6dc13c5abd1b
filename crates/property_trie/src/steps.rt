//! The steps of a walk. Each is one load of one word, for every rule that meets `TrieRule`.

ghost use Rattle.std.specs.Prelude.{◌≡◌, ◌<◌, ◌+◌, ◌^◌, length, IsTrue};
ghost use Rattle.serial_value.specs.Steps.{IsSameSeat};
ghost use Rattle.serial_value.specs.Words.{text_word};
ghost use Rattle.property_trie.specs.TreeWords.{part_words};
ghost use Rattle.property_trie.specs.TrieSteps.{IsAtLink, LeadsTo, Follows, StandsAt, part_at, ComesTo, Ends};

use crate::rule::{Sought, TrieRule};
use atomic_table::{Play, Seat, Table};
use std::alloc::Global;
use std::marker::PhantomData;

/// The load of a link to siblings.
struct Followed<K, R, Q> {
    marker: PhantomData<(K, R, Q)>,
}

impl<V, K, R: TrieRule<V, K>, Q: Sought> Play<(), V> for Followed<K, R, Q> {
    ghost then = { λ st m n after. (after.1 ≡ m.1)
        × Follows R.with_trie R.noted (R.words m.0) (R.cell m.0) (R.trie m.0) m.0 Q.name Q.link Q.rest n after.0 };
}

/// The load of the length of a node's part.
struct Measured<K, R> {
    marker: PhantomData<(K, R)>,
}

impl<V, K, R: TrieRule<V, K>> Play<(), V> for Measured<K, R> {
    ghost then = { λ st m n after. (after ≡ m) × (n ≡ length (part_at (R.trie m.0).trail)) };
}

/// The load of a word of a node's part.
struct Spelt<K, R, Q> {
    marker: PhantomData<(K, R, Q)>,
}

impl<V, K, R: TrieRule<V, K>, Q: Sought> Play<(), V> for Spelt<K, R, Q> {
    ghost then = { λ st m n after. (after ≡ m) × (n ≡ text_word (part_at (R.trie m.0).trail) Q.index) };
}

/// The load of the link to a cell.
struct Ended<K, R, Q> {
    marker: PhantomData<(K, R, Q)>,
}

impl<V, K, R: TrieRule<V, K>, Q: Sought> Play<(), V> for Ended<K, R, Q> {
    ghost then = { λ st m n after. (after.1 ≡ m.1)
        × Ends R.with_trie R.noted (R.words m.0) (R.cell m.0) (R.trie m.0) m.0 Q.name Q.link n after.0 };
}

/// The walk for a name loads a link to siblings.
pub(crate) fn followed_link<V, K, R: TrieRule<V, K>, Q: Sought>(
    table: &Table<(), V, K, R, Global>,
    seat: &mut Seat<(), V>,
    link: usize,
) -> u64
    requires link { IsAtLink seat.old table.now.shared.table_id link Q.link }
    requires leads { LeadsTo (R.trie seat.old.me.0) Q.name Q.link Q.rest }
    ensures seat { IsSameSeat seat.old seat.new × (seat.new.me.1 ≡ seat.old.me.1) }
    ensures told { Follows R.with_trie R.noted (R.words seat.old.me.0) (R.cell seat.old.me.0) (R.trie seat.old.me.0) seat.old.me.0
        Q.name Q.link Q.rest result seat.new.me.0 }
{
    table.shared.load::<Followed<K, R, Q>>(seat, link)
}

/// It loads the length of the part of the node that it stands at.
pub(crate) fn node_length<V, K, R: TrieRule<V, K>>(
    table: &Table<(), V, K, R, Global>,
    seat: &mut Seat<(), V>,
    place: usize,
) -> u64
    requires table { seat.old.table_id ≡ table.now.shared.table_id }
    requires place { place < table.now.shared.table_id.words }
    requires stands { IsTrue (R.trie seat.old.me.0).live × StandsAt (R.trie seat.old.me.0).trail place }
    ensures seat { IsSameSeat seat.old seat.new × (seat.new.me ≡ seat.old.me) }
    ensures told { result ≡ length (part_at (R.trie seat.old.me.0).trail) }
{
    table.shared.load::<Measured<K, R>>(seat, place)
}

/// It loads word `k` of that part.
pub(crate) fn node_word<V, K, R: TrieRule<V, K>, Q: Sought>(
    table: &Table<(), V, K, R, Global>,
    seat: &mut Seat<(), V>,
    place: usize,
    k: usize,
) -> u64
    requires table { seat.old.table_id ≡ table.now.shared.table_id }
    requires place { (place + 5 + k < table.now.shared.table_id.words) × (place + 5 + k < 2 ^ 64) × (k ≡ Q.index) }
    requires stands { IsTrue (R.trie seat.old.me.0).live × StandsAt (R.trie seat.old.me.0).trail place }
    requires k { k < part_words (part_at (R.trie seat.old.me.0).trail) }
    ensures seat { IsSameSeat seat.old seat.new × (seat.new.me ≡ seat.old.me) }
    ensures told { result ≡ text_word (part_at (R.trie seat.old.me.0).trail) k }
{
    table.shared.load::<Spelt<K, R, Q>>(seat, place + 5 + k)
}

/// It loads the link to the cell of the name, at the node of its last part.
pub(crate) fn cell_link<V, K, R: TrieRule<V, K>, Q: Sought>(
    table: &Table<(), V, K, R, Global>,
    seat: &mut Seat<(), V>,
    link: usize,
) -> u64
    requires link { IsAtLink seat.old table.now.shared.table_id link Q.link }
    requires comes { ComesTo (R.trie seat.old.me.0) Q.name Q.link }
    ensures seat { IsSameSeat seat.old seat.new × (seat.new.me.1 ≡ seat.old.me.1) }
    ensures told { Ends R.with_trie R.noted (R.words seat.old.me.0) (R.cell seat.old.me.0) (R.trie seat.old.me.0) seat.old.me.0
        Q.name Q.link result seat.new.me.0 }
{
    table.shared.load::<Ended<K, R, Q>>(seat, link)
}
