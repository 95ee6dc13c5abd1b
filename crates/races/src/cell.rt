//! One writer beside three readers at one cell, each on a thread of its own.
//!
//! `races cell N`: each reader makes N reads, and the writer goes on for as many writes. It counts the reads that found
//! something else than the value of the set that they named, or an earlier set than the reader had found before.

ghost use Rattle.std.specs.Prelude.{◌≡◌, ◌<◌, ◌≤◌, ◌+◌, ◌^◌, ◌∷◌, [], None, length, IfOk, IfSome};
ghost use Rattle.std.specs.Thread.{IsSync};
ghost use Rattle.serial_value.specs.Cell.{making_of};
ghost use Rattle.serial_value.specs.One.{HasMade};

use crate::letters::{is_whole, value_at};
use init_base::{PropName, PropValue};
use serial_value::{CellAnswer, OneSeat, OneTable, one_cell, one_reader, read_cell, write_cell};
use std::alloc::Global;
use std::thread::{Threads, join};

/// Where the cell lies.
const CELL: usize = 16;

/// How many of so many reads were wrong.
fn torn(table: &OneTable, reader: &mut OneSeat, name: PropName<'_>, count: u64) -> u64
    requires table { (reader.old.table_id ≡ table.now.shared.table_id) × (table.now.shared.table_id.words ≡ 29) }
    requires name { name.bytes.now ≡ 97 ∷ [] }
    requires idle { making_of reader.old.me.0.cell ≡ None }
{
    let mut wrong = 0;
    let mut last = 0;
    let mut out = [0; 91];
    for _ in 0..count {
        if let CellAnswer::Found { len, number } = read_cell(table, reader, CELL, name, &mut out) {
            if !is_whole(len, number, &out) || number < last {
                wrong += 1;
            }
            last = number;
        }
    }
    wrong
}

/// Writes the values of so many sets, the first of which has number 2.
fn write_all(table: &OneTable, writer: &mut OneSeat, name: PropName<'_>, count: u64)
    requires table { (writer.old.table_id ≡ table.now.shared.table_id) × (table.now.shared.table_id.words ≡ 29) }
    requires name { name.bytes.now ≡ 97 ∷ [] }
    requires writer { HasMade writer.old.me.0.cell 1 }
    requires count { count < 2 ^ 41 }
{
    for k in 0..count {
        let (bytes, size) = value_at(k + 2);
        let Ok(value) = PropValue::of(&bytes[..size]) else {
            return;
        };
        write_cell(table, writer, CELL, name, k + 2, value);
    }
}

/// Two readers beside each other.
fn two_readers<R: Threads + Sync>(
    rt: &R,
    table: &OneTable,
    one: &mut OneSeat,
    two: &mut OneSeat,
    name: PropName<'_>,
    count: u64,
) -> u64
    requires table { table.now.shared.table_id.words ≡ 29 }
    requires seats { (one.old.table_id ≡ table.now.shared.table_id) × (two.old.table_id ≡ table.now.shared.table_id) }
    requires idle { (making_of one.old.me.0.cell ≡ None) × (making_of two.old.me.0.cell ≡ None) }
    requires name { name.bytes.now ≡ 97 ∷ [] }
{
    let (a, b) = join(
        rt,
        || torn(table, one, name, count),
        || torn(table, two, name, count),
    );
    a.saturating_add(b)
}

/// The writer and a reader beside each other.
fn writer_and_reader<R: Threads + Sync>(
    rt: &R,
    table: &OneTable,
    writer: &mut OneSeat,
    reader: &mut OneSeat,
    name: PropName<'_>,
    count: u64,
) -> u64
    requires table { table.now.shared.table_id.words ≡ 29 }
    requires seats { (writer.old.table_id ≡ table.now.shared.table_id) × (reader.old.table_id ≡ table.now.shared.table_id) }
    requires name { name.bytes.now ≡ 97 ∷ [] }
    requires idle { making_of reader.old.me.0.cell ≡ None }
    requires rest { HasMade writer.old.me.0.cell 1 }
    requires count { count < 2 ^ 41 }
{
    let ((), wrong) = join(
        rt,
        || write_all(table, writer, name, count),
        || torn(table, reader, name, count),
    );
    wrong
}

/// The writer beside three readers.
fn all_beside<R: Threads + Sync>(
    rt: &R,
    table: &OneTable,
    writer: &mut OneSeat,
    one: &mut OneSeat,
    two: &mut OneSeat,
    three: &mut OneSeat,
    name: PropName<'_>,
    count: u64,
) -> u64
    requires table { table.now.shared.table_id.words ≡ 29 }
    requires writer { writer.old.table_id ≡ table.now.shared.table_id }
    requires one { one.old.table_id ≡ table.now.shared.table_id }
    requires two { two.old.table_id ≡ table.now.shared.table_id }
    requires three { three.old.table_id ≡ table.now.shared.table_id }
    requires name { name.bytes.now ≡ 97 ∷ [] }
    requires idle { (making_of one.old.me.0.cell ≡ None) × (making_of two.old.me.0.cell ≡ None)
        × (making_of three.old.me.0.cell ≡ None) }
    requires rest { HasMade writer.old.me.0.cell 1 }
    requires count { count < 2 ^ 41 }
{
    let (a, b) = join(
        rt,
        || -> u64
            requires { IsSync R.row × (table.now.shared.table_id.words ≡ 29) × (one.now.table_id ≡ table.now.shared.table_id)
                × (two.now.table_id ≡ table.now.shared.table_id) × (name.bytes.now ≡ 97 ∷ [])
                × (making_of one.now.me.0.cell ≡ None) × (making_of two.now.me.0.cell ≡ None) }
        { two_readers(rt, table, one, two, name, count) },
        || -> u64
            requires { IsSync R.row × (table.now.shared.table_id.words ≡ 29) × (writer.now.table_id ≡ table.now.shared.table_id)
                × (three.now.table_id ≡ table.now.shared.table_id) × (name.bytes.now ≡ 97 ∷ []) × (count < 2 ^ 41)
                × HasMade writer.now.me.0.cell 1 × (making_of three.now.me.0.cell ≡ None) }
        { writer_and_reader(rt, table, writer, three, name, count) },
    );
    a.saturating_add(b)
}

/// The race at a new cell. None where memory is short.
pub fn race<R: Threads + Sync>(rt: &R, alloc: Global, count: u64) -> Option<u64>
    requires { count < 2 ^ 41 }
{
    let name = PropName::of(b"a")?;
    let (bytes, size) = value_at(1);
    let value = PropValue::of(&bytes[..size]).ok()?;
    let (table, mut writer) = one_cell(alloc, value).ok()?;
    let mut one = one_reader(&table, &mut writer).ok()?;
    let mut two = one_reader(&table, &mut writer).ok()?;
    let mut three = one_reader(&table, &mut writer).ok()?;
    Some(all_beside(
        rt,
        &table,
        &mut writer,
        &mut one,
        &mut two,
        &mut three,
        name,
        count,
    ))
}
