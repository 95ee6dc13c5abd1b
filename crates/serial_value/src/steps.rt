//! The steps at a cell. Each is one load or one store of one word, for every rule that meets `CellRule`; a word of an update that
//! stands in its place already is put there by a load.

ghost use Rattle.std.specs.Prelude.{◌≡◌, ◌<◌, ◌≤◌, ◌+◌, ◌^◌, length};
ghost use Rattle.init_machine.specs.Serial.{top_byte, clean_serial as clean_serial_of, dirty_serial as dirty_serial_of};
ghost use Rattle.serial_value.specs.Words.{body_word, IsShortValue};
ghost use Rattle.serial_value.specs.Cell.{sets_of, HasShortCell, updating, accepted, IsUpdating, IsPresentSerial, IsPresentWord};
ghost use Rattle.serial_value.specs.Cell.{Begins, LiesAt, Copies, IsCopied, Ends};
ghost use Rattle.serial_value.specs.Steps.{IsSameSeat, HasCell, IsAtCell};

use crate::putting::put;
use crate::rule::{Asked, CellRule};
use atomic_table::{Play, Seat, Table};
use std::alloc::Global;
use std::marker::{Brand, PhantomData};

/// A store that leaves the update with `Q.index` stores done.
struct Stored<K, R, Q> {
    marker: PhantomData<(K, R, Q)>,
}

impl<V, K, R: CellRule<V, K>, Q: Asked> Play<(), V> for Stored<K, R, Q> {
    ghost then = { λ st m n after. after ≡ (R.with_cell m.0 (updating (sets_of (R.cell m.0)) Q.name Q.value Q.place Q.index), m.1) };
}

/// The store that accepts the set.
struct Accepted<K, R, Q> {
    marker: PhantomData<(K, R, Q)>,
}

impl<V, K, R: CellRule<V, K>, Q: Asked> Play<(), V> for Accepted<K, R, Q> {
    ghost then = { λ st m n after. after ≡ (R.with_cell m.0 (accepted (R.cell m.0) Q.name Q.value), m.1) };
}

/// The load of the first serial.
struct Begun<K, R, Q> {
    marker: PhantomData<(K, R, Q)>,
}

impl<V, K, R: CellRule<V, K>, Q: Asked> Play<(), V> for Begun<K, R, Q> {
    ghost then = { λ st m n after. (after ≡ (R.with_cell m.0 (R.cell after.0), m.1))
        × Begins (R.words m.0) (R.cell m.0) Q.name Q.place n (R.cell after.0) };
}

/// The load of a word of the value or of the backup.
struct Copied<K, R, Q> {
    marker: PhantomData<(K, R, Q)>,
}

impl<V, K, R: CellRule<V, K>, Q: Asked> Play<(), V> for Copied<K, R, Q> {
    ghost then = { λ st m n after. (after ≡ (R.with_cell m.0 (R.cell after.0), m.1))
        × Copies (R.words m.0) (R.cell m.0) Q.name Q.index n (R.cell after.0) };
}

/// The load of the last serial.
struct Ended<K, R, Q> {
    marker: PhantomData<(K, R, Q)>,
}

impl<V, K, R: CellRule<V, K>, Q: Asked> Play<(), V> for Ended<K, R, Q> {
    ghost then = { λ st m n after. (after.1 ≡ m.1) × Ends R.with_cell R.noted (R.cell m.0) m.0 Q.name n after.0 };
}

/// The backup gets word `k` of the old value; with it `k + 1` stores of the update are done.
pub fn backup_word<V, K, R: CellRule<V, K>, Q: Asked>(
    table: &Table<(), V, K, R, Global>,
    seat: &mut Seat<(), V>,
    k: usize,
    word: u64,
)
    requires table { seat.old.table_id ≡ table.now.shared.table_id }
    requires place { HasCell table.now.shared.table_id Q.place }
    requires writer { R.Settled seat.old.me.0 × R.Linked seat.old.me.0 Q.name Q.place }
    requires update { IsUpdating (R.cell seat.old.me.0) Q.name Q.value Q.place k × (k < 12) × (Q.index ≡ k + 1) × IsShortValue Q.value
        × HasShortCell (sets_of (R.cell seat.old.me.0)) Q.name }
    requires word { IsPresentWord (sets_of (R.cell seat.old.me.0)) Q.name k word }
    ensures seat { IsSameSeat seat.old seat.new }
    ensures view { seat.new.me
        ≡ (R.with_cell seat.old.me.0 (updating (sets_of (R.cell seat.old.me.0)) Q.name Q.value Q.place Q.index), seat.old.me.1) }
{
    put::<V, K, R, Brand>(table, seat, 4 + k, word);
}

/// The serial of the cell becomes dirty.
pub fn dirty_serial<V, K, R: CellRule<V, K>, Q: Asked>(
    table: &Table<(), V, K, R, Global>,
    seat: &mut Seat<(), V>,
    at: usize,
    clean: u64,
)
    requires cell { IsAtCell seat.old table.now.shared.table_id at Q.place }
    requires writer { R.Settled seat.old.me.0 × R.Linked seat.old.me.0 Q.name Q.place }
    requires update { IsUpdating (R.cell seat.old.me.0) Q.name Q.value Q.place 12 × (Q.index ≡ 13) }
    requires word { IsPresentSerial (sets_of (R.cell seat.old.me.0)) Q.name clean × (clean + 1 < 2 ^ 64) }
    ensures seat { IsSameSeat seat.old seat.new }
    ensures view { seat.new.me
        ≡ (R.with_cell seat.old.me.0 (updating (sets_of (R.cell seat.old.me.0)) Q.name Q.value Q.place Q.index), seat.old.me.1) }
    ensures writer { R.Settled seat.new.me.0 × R.Linked seat.new.me.0 Q.name Q.place }
{
    table.shared.store::<Stored<K, R, Q>>(seat, at, clean + 1);
}

/// The cell gets word `k` of the new value.
pub fn value_word<V, K, R: CellRule<V, K>, Q: Asked>(
    table: &Table<(), V, K, R, Global>,
    seat: &mut Seat<(), V>,
    at: usize,
    k: usize,
    word: u64,
)
    requires cell { IsAtCell seat.old table.now.shared.table_id at Q.place }
    requires writer { R.Settled seat.old.me.0 × R.Linked seat.old.me.0 Q.name Q.place }
    requires update { IsUpdating (R.cell seat.old.me.0) Q.name Q.value Q.place (13 + k) × (k < 12) × (Q.index ≡ 13 + k + 1) }
    requires word { word ≡ body_word Q.value k }
    ensures seat { IsSameSeat seat.old seat.new }
    ensures view { seat.new.me
        ≡ (R.with_cell seat.old.me.0 (updating (sets_of (R.cell seat.old.me.0)) Q.name Q.value Q.place Q.index), seat.old.me.1) }
{
    put::<V, K, R, Brand>(table, seat, at + 1 + k, word);
}

/// The serial of the cell becomes the new clean one, and the set is accepted.
pub fn clean_serial<V, K, R: CellRule<V, K>, Q: Asked>(
    table: &Table<(), V, K, R, Global>,
    seat: &mut Seat<(), V>,
    at: usize,
    word: u64,
)
    requires cell { IsAtCell seat.old table.now.shared.table_id at Q.place }
    requires writer { R.Settled seat.old.me.0 × R.Linked seat.old.me.0 Q.name Q.place }
    requires update { IsUpdating (R.cell seat.old.me.0) Q.name Q.value Q.place 25
        × (length (sets_of (R.cell seat.old.me.0)) + 1 < 2 ^ 55) }
    requires word { word ≡ clean_serial_of (top_byte Q.value) (length (sets_of (R.cell seat.old.me.0)) + 1) }
    ensures seat { IsSameSeat seat.old seat.new }
    ensures view { seat.new.me
        ≡ (R.with_cell seat.old.me.0 (accepted (R.cell seat.old.me.0) Q.name Q.value), seat.old.me.1) }
{
    table.shared.store::<Accepted<K, R, Q>>(seat, at, word);
}

/// A read loads the serial.
pub fn first_serial<V, K, R: CellRule<V, K>, Q: Asked>(
    table: &Table<(), V, K, R, Global>,
    seat: &mut Seat<(), V>,
    at: usize,
) -> u64
    requires cell { IsAtCell seat.old table.now.shared.table_id at Q.place × R.Linked seat.old.me.0 Q.name Q.place }
    ensures seat { IsSameSeat seat.old seat.new }
    ensures view { seat.new.me ≡ (R.with_cell seat.old.me.0 (R.cell seat.new.me.0), seat.old.me.1) }
    ensures told { Begins (R.words seat.old.me.0) (R.cell seat.old.me.0) Q.name Q.place result (R.cell seat.new.me.0) }
{
    table.shared.load::<Begun<K, R, Q>>(seat, at)
}

/// A read loads its word `k`, which lies at `word_place`.
pub fn copied_word<V, K, R: CellRule<V, K>, Q: Asked>(
    table: &Table<(), V, K, R, Global>,
    seat: &mut Seat<(), V>,
    word_place: usize,
    k: usize,
) -> u64
    requires table { seat.old.table_id ≡ table.now.shared.table_id }
    requires place { word_place < table.now.shared.table_id.words }
    requires linked { R.Linked seat.old.me.0 Q.name Q.place }
    requires lies { LiesAt (R.cell seat.old.me.0) Q.name Q.place k word_place × (Q.index ≡ k) }
    ensures seat { IsSameSeat seat.old seat.new }
    ensures view { seat.new.me ≡ (R.with_cell seat.old.me.0 (R.cell seat.new.me.0), seat.old.me.1) }
    ensures told { Copies (R.words seat.old.me.0) (R.cell seat.old.me.0) Q.name Q.index result (R.cell seat.new.me.0) }
{
    table.shared.load::<Copied<K, R, Q>>(seat, word_place)
}

/// A read loads the serial again.
pub fn last_serial<V, K, R: CellRule<V, K>, Q: Asked>(
    table: &Table<(), V, K, R, Global>,
    seat: &mut Seat<(), V>,
    at: usize,
) -> u64
    requires cell { IsAtCell seat.old table.now.shared.table_id at Q.place × R.Linked seat.old.me.0 Q.name Q.place }
    requires copied { IsCopied (R.cell seat.old.me.0) Q.name Q.place }
    ensures seat { IsSameSeat seat.old seat.new × (seat.new.me.1 ≡ seat.old.me.1) }
    ensures told { Ends R.with_cell R.noted (R.cell seat.old.me.0) seat.old.me.0 Q.name result seat.new.me.0 }
{
    table.shared.load::<Ended<K, R, Q>>(seat, at)
}
