//! A word is put into its place, where it may stand already: then it is loaded and not stored, since a load costs the writer and the
//! readers less than a store, which all see in one order.

ghost use Rattle.std.specs.Prelude.{◌≡◌, ◌==◌, if◌then◌else◌, ℕ};
ghost use Rattle.atomic_table.specs.Table.{Me};
ghost use Rattle.serial_value.specs.Steps.{IsSameSeat, MayPut};

use atomic_table::{Play, Seat, Table, TableRule};
use std::alloc::Global;
use std::marker::{Brand, PhantomData};

/// What is put, for proofs alone: the word, and what it makes of what the seat knows.
pub trait Putting<V> {
    ghost word: { ℕ };

    ghost next: { Me Unit V → Me Unit V };
}

impl<V> Putting<V> for Brand {
    ghost word = { 0 };

    ghost next = { λ m. m };
}

/// The load of the word's place: where it stands there, it counts as put.
struct Looked<P> {
    marker: PhantomData<P>,
}

impl<V, P: Putting<V>> Play<(), V> for Looked<P> {
    ghost then = { λ st m n after. after ≡ (if n == P.word then P.next m else m) };
}

/// The store of the word.
struct Stored<P> {
    marker: PhantomData<P>,
}

impl<V, P: Putting<V>> Play<(), V> for Stored<P> {
    ghost then = { λ st m n after. after ≡ P.next m };
}

/// Whether the word stands in its place; then it counts as put.
fn stands<V, K, R: TableRule<(), V, K>, P: Putting<V>>(
    table: &Table<(), V, K, R, Global>,
    seat: &mut Seat<(), V>,
    at: usize,
    word: u64,
) -> bool
    requires may { MayPut (R.holds table.now.shared.key) table.now.shared.table_id seat.old at word (P.next seat.old.me) }
    requires word { word ≡ P.word }
    ensures seat { IsSameSeat seat.old seat.new }
    ensures view { seat.new.me ≡ (if result then P.next seat.old.me else seat.old.me) }
{
    table.shared.load::<Looked<P>>(seat, at) == word
}

/// The word is stored.
fn store<V, K, R: TableRule<(), V, K>, P: Putting<V>>(
    table: &Table<(), V, K, R, Global>,
    seat: &mut Seat<(), V>,
    at: usize,
    word: u64,
)
    requires { MayPut (R.holds table.now.shared.key) table.now.shared.table_id seat.old at word (P.next seat.old.me) }
    ensures seat { IsSameSeat seat.old seat.new }
    ensures view { seat.new.me ≡ P.next seat.old.me }
{
    table.shared.store::<Stored<P>>(seat, at, word);
}

/// The word is put into its place, where the rule allows its store.
pub fn put<V, K, R: TableRule<(), V, K>, P: Putting<V>>(
    table: &Table<(), V, K, R, Global>,
    seat: &mut Seat<(), V>,
    at: usize,
    word: u64,
)
    requires may { MayPut (R.holds table.now.shared.key) table.now.shared.table_id seat.old at word (P.next seat.old.me) }
    requires word { word ≡ P.word }
    ensures seat { IsSameSeat seat.old seat.new }
    ensures view { seat.new.me ≡ P.next seat.old.me }
{
    if !stands::<V, K, R, P>(table, seat, at, word) {
        store::<V, K, R, P>(table, seat, at, word);
    }
}
