//! An update of a cell by the one writer: 26 stores, the last of which accepts the set. Of the 24 words those that stand in their
//! place already are not stored.

ghost use Rattle.std.specs.Prelude.{◌≡◌, ◌<◌, ◌≤◌, ◌+◌, ◌^◌, None, length};
ghost use Rattle.serial_value.specs.declared.view.CellView.TheVariants.{Writer};
ghost use Rattle.serial_value.specs.Words.{IsShortValue};
ghost use Rattle.serial_value.specs.Cell.{sets_of, updating, accepted, IsUpdating, AreOldWords, HasShortCell};
ghost use Rattle.serial_value.specs.Steps.{IsSameSeat, HasCell};

use crate::layout::serial;
use crate::read::load_words;
use crate::rule::{Asked, CellRule};
use crate::steps::{backup_word, clean_serial, dirty_serial, first_serial, value_word};
use crate::words::word_of;
use atomic_table::{Seat, Table};
use init_base::{PropName, PropValue};
use std::alloc::Global;
use std::marker::Brand;

/// Stores the twelve old value words into the backup.
fn back_up<V, K, R: CellRule<V, K>, Q: Asked>(
    table: &Table<(), V, K, R, Global>,
    seat: &mut Seat<(), V>,
    old: &[u64; 12],
)
    requires table { seat.old.table_id ≡ table.now.shared.table_id }
    requires place { HasCell table.now.shared.table_id Q.place }
    requires writer { R.Settled seat.old.me.0 × R.Linked seat.old.me.0 Q.name Q.place }
    requires update { IsUpdating (R.cell seat.old.me.0) Q.name Q.value Q.place 0 × IsShortValue Q.value }
    requires short { HasShortCell (sets_of (R.cell seat.old.me.0)) Q.name }
    requires words { AreOldWords (sets_of (R.cell seat.old.me.0)) Q.name old.now }
    ensures seat { IsSameSeat seat.old seat.new }
    ensures view { seat.new.me
        ≡ (R.with_cell seat.old.me.0 (updating (sets_of (R.cell seat.old.me.0)) Q.name Q.value Q.place 12), seat.old.me.1) }
    ensures writer { R.Settled seat.new.me.0 × R.Linked seat.new.me.0 Q.name Q.place }
{
    for k in 0..12 {
        backup_word::<V, K, R, Brand>(table, seat, k, old[k]);
    }
}

/// Stores the twelve new value words, once the serial is dirty.
#[tactic(auto, using(crate::specs::impl_laws::Bodies::short_word))]
fn replace<V, K, R: CellRule<V, K>, Q: Asked>(
    table: &Table<(), V, K, R, Global>,
    seat: &mut Seat<(), V>,
    at: usize,
    value: &[u8],
)
    requires table { seat.old.table_id ≡ table.now.shared.table_id }
    requires place { HasCell table.now.shared.table_id at × (at ≡ Q.place) }
    requires writer { R.Settled seat.old.me.0 × R.Linked seat.old.me.0 Q.name Q.place }
    requires update { IsUpdating (R.cell seat.old.me.0) Q.name Q.value Q.place 13 }
    requires value { (value.now ≡ Q.value) × (length value.now ≤ 91) }
    ensures seat { IsSameSeat seat.old seat.new }
    ensures view { seat.new.me
        ≡ (R.with_cell seat.old.me.0 (updating (sets_of (R.cell seat.old.me.0)) Q.name Q.value Q.place 25), seat.old.me.1) }
    ensures writer { R.Settled seat.new.me.0 × R.Linked seat.new.me.0 Q.name Q.place }
{
    for k in 0..12 {
        value_word::<V, K, R, Brand>(table, seat, at, k, word_of(value, k));
    }
}

fn write_as<V, K, R: CellRule<V, K>, Q: Asked>(
    table: &Table<(), V, K, R, Global>,
    seat: &mut Seat<(), V>,
    at: usize,
    name: &[u8],
    number: u64,
    value: &[u8],
)
    requires asked { (name.now ≡ Q.name) × (value.now ≡ Q.value) × (at ≡ Q.place) }
    requires table { seat.old.table_id ≡ table.now.shared.table_id }
    requires place { HasCell table.now.shared.table_id at }
    requires linked { R.Linked seat.old.me.0 Q.name Q.place }
    requires writer { (R.cell seat.old.me.0 ≡ Writer (sets_of (R.cell seat.old.me.0)) None) × R.Settled seat.old.me.0 }
    requires number { (number ≡ length (sets_of (R.cell seat.old.me.0)) + 1) × (number < 2 ^ 55) }
    requires short { HasShortCell (sets_of (R.cell seat.old.me.0)) Q.name × (length value.now ≤ 91) }
    ensures seat { IsSameSeat seat.old seat.new }
    ensures view { seat.new.me
        ≡ (R.with_cell seat.old.me.0 (accepted (R.cell seat.old.me.0) Q.name Q.value), seat.old.me.1) }
{
    let clean = first_serial::<V, K, R, Q>(table, seat, at);
    let mut old = [0; 12];
    load_words::<V, K, R, Q>(table, seat, at + 1, &mut old);
    back_up::<V, K, R, Q>(table, seat, &old);
    dirty_serial::<V, K, R, Brand>(table, seat, at, clean);
    replace::<V, K, R, Q>(table, seat, at, value);
    clean_serial::<V, K, R, Q>(table, seat, at, serial(value.len() as u8, number));
}

/// Sets a new value of at most 91 bytes at the short cell of a name. It makes the twelve stores of the backup, that of the
/// dirty serial, the twelve of the new value's words, and that of the clean serial, with which the set is accepted; a word that
/// stands in its place already is loaded in place of its store. It waits for nothing. The parameters are the cell, by its table,
/// seat and place, and the set, by its name, number and value.
pub fn write_cell<V, K, R: CellRule<V, K>>(
    table: &Table<(), V, K, R, Global>,
    seat: &mut Seat<(), V>,
    at: usize,
    name: PropName<'_>,
    number: u64,
    value: PropValue<'_>,
)
    requires table { seat.old.table_id ≡ table.now.shared.table_id }
    requires place { HasCell table.now.shared.table_id at }
    requires linked { R.Linked seat.old.me.0 name.bytes.now at }
    requires writer { (R.cell seat.old.me.0 ≡ Writer (sets_of (R.cell seat.old.me.0)) None) × R.Settled seat.old.me.0 }
    requires number { (number ≡ length (sets_of (R.cell seat.old.me.0)) + 1) × (number < 2 ^ 55) }
    requires short { HasShortCell (sets_of (R.cell seat.old.me.0)) name.bytes.now × (length value.bytes.now ≤ 91) }
    ensures seat { IsSameSeat seat.old seat.new }
    ensures view { seat.new.me
        ≡ (R.with_cell seat.old.me.0 (accepted (R.cell seat.old.me.0) name.entry.bytes.now value.entry.bytes.now), seat.old.me.1) }
    ensures short { HasShortCell (sets_of (R.cell seat.new.me.0)) name.entry.bytes.now }
{
    write_as::<V, K, R, Brand>(table, seat, at, name.bytes, number, value.bytes);
}
