//! The value cell: its layout, and a read beside a writer that is stopped after each of its stores.

ghost use Rattle.std.specs.Prelude.{◌≡◌, ◌<◌, ◌≤◌, ◌+◌, [], ◌∷◌, length, codes};
ghost use Rattle.serial_value.specs.Cell.{IsReader, updating};
ghost use Rattle.serial_value.specs.Steps.{IsSameSeat};
ghost use Rattle.serial_value.specs.One.{the_name, the_place};
ghost use Rattle.area_tests.specs.internal.Stops.{at_stop};

use init_base::{PropName, PropValue, Text};
use serial_value::{
    Asked, CellAnswer, OneCell, OneSeat, OneTable, OneView, backup_word, clean_serial, close,
    copy_words, dirty_serial, first_serial, last_serial, one_cell, one_reader, parts, read_cell,
    reader_history, serial, value_word, word_of, words_place, write_cell,
};
use std::marker::Brand;
use std::process::Abort;
use std::test::Fail;

const CELL: usize = 16;

/// The store of the update from `old` to `new` that follows `done` others.
fn store<Q: Asked>(table: &OneTable, writer: &mut OneSeat, done: usize, old: &[u8], new: &[u8])
    requires asked { new.now ≡ Q.value }
    requires table { (writer.old.table_id ≡ table.now.shared.table_id) × (table.now.shared.table_id.words ≡ 29) }
    requires stop { (done < 26) × (writer.old.me.0.cell ≡ updating ((the_name, old.now) ∷ []) the_name new.now the_place done) }
    requires short { (length old.now ≤ 91) × (length new.now ≤ 91) }
    ensures seat { IsSameSeat writer.old writer.new }
    ensures stop { writer.new.me.0.cell ≡ at_stop old.now new.now (done + 1) }
{
    if done < 12 {
        backup_word::<OneView, Text, OneCell, Brand>(table, writer, done, word_of(old, done));
    } else if done == 12 {
        dirty_serial::<OneView, Text, OneCell, Brand>(
            table,
            writer,
            CELL,
            serial(old.len() as u8, 1),
        );
    } else if done < 25 {
        value_word::<OneView, Text, OneCell, Brand>(
            table,
            writer,
            CELL,
            done - 13,
            word_of(new, done - 13),
        );
    } else {
        clean_serial::<OneView, Text, OneCell, Brand>(
            table,
            writer,
            CELL,
            serial(new.len() as u8, 2),
        );
    }
}

/// The stores of that update from the one after `from` others to the one before `to` others.
fn stores<Q: Asked>(
    table: &OneTable,
    writer: &mut OneSeat,
    from: usize,
    to: usize,
    old: &[u8],
    new: &[u8],
)
    requires asked { new.now ≡ Q.value }
    requires table { (writer.old.table_id ≡ table.now.shared.table_id) × (table.now.shared.table_id.words ≡ 29) }
    requires stop { (from ≤ to) × (to ≤ 26) × (writer.old.me.0.cell ≡ at_stop old.now new.now from) }
    requires short { (length old.now ≤ 91) × (length new.now ≤ 91) }
    ensures seat { IsSameSeat writer.old writer.new }
    ensures stop { writer.new.me.0.cell ≡ at_stop old.now new.now to }
{
    for done in from..to {
        store::<Q>(table, writer, done, old, new);
    }
}

/// A read, with those stores made between the words that it copies and the last serial.
fn read_across<Q: Asked>(
    table: &OneTable,
    reader: &mut OneSeat,
    writer: &mut OneSeat,
    from: usize,
    to: usize,
    old: &[u8],
    new: &[u8],
    out: &mut [u8; 91],
) -> CellAnswer
    requires asked { (new.now ≡ Q.value) × (Q.name ≡ the_name) × (Q.place ≡ the_place) }
    requires table { (writer.old.table_id ≡ table.now.shared.table_id) × (reader.old.table_id ≡ table.now.shared.table_id)
        × (table.now.shared.table_id.words ≡ 29) }
    requires reader { IsReader reader.old.me.0.cell }
    requires stop { (from ≤ to) × (to ≤ 26) × (writer.old.me.0.cell ≡ at_stop old.now new.now from) }
    requires short { (length old.now ≤ 91) × (length new.now ≤ 91) }
    ensures seats { IsSameSeat writer.old writer.new × IsSameSeat reader.old reader.new }
    ensures reader { IsReader reader.new.me.0.cell }
    ensures stop { writer.new.me.0.cell ≡ at_stop old.now new.now to }
{
    let first = first_serial::<OneView, Text, OneCell, Q>(table, reader, CELL);
    let (top, _, _) = parts(first);
    if top == 255 {
        stores::<Q>(table, writer, from, to, old, new);
        return CellAnswer::Again {
            first,
            second: first,
        };
    }
    let words = copy_words::<OneView, Text, OneCell, Q>(table, reader, words_place(CELL, first));
    stores::<Q>(table, writer, from, to, old, new);
    let last = last_serial::<OneView, Text, OneCell, Q>(table, reader, CELL);
    close(first, last, &words, out)
}

const CLEAN_OLD: u64 = 0x0300_0000_0000_0002;

const DIRTY_OLD: u64 = 0x0300_0000_0000_0003;

const CLEAN_NEW: u64 = 0x0500_0000_0000_0004;

const FOUND_OLD: CellAnswer = CellAnswer::Found { len: 3, number: 1 };

const FOUND_NEW: CellAnswer = CellAnswer::Found { len: 5, number: 2 };

/// The serial that stands after so many stores, and what a whole read then finds.
fn stands_after(done: usize) -> (u64, CellAnswer, &'static [u8]) {
    if done < 13 {
        (CLEAN_OLD, FOUND_OLD, b"old")
    } else if done < 26 {
        (DIRTY_OLD, FOUND_OLD, b"old")
    } else {
        (CLEAN_NEW, FOUND_NEW, b"newer")
    }
}

/// A read made whole while the writer stands after `done` stores.
fn reads_at_stop<Q: Asked>(
    rt: &impl Abort,
    table: &OneTable,
    reader: &mut OneSeat,
    writer: &mut OneSeat,
    done: usize,
)
    requires asked { (codes "newer" ≡ Q.value) × (Q.name ≡ the_name) × (Q.place ≡ the_place) }
    requires table { (writer.old.table_id ≡ table.now.shared.table_id) × (reader.old.table_id ≡ table.now.shared.table_id)
        × (table.now.shared.table_id.words ≡ 29) }
    requires reader { IsReader reader.old.me.0.cell }
    requires stop { (done ≤ 26) × (writer.old.me.0.cell ≡ at_stop (codes "old") (codes "newer") done) }
    ensures seats { IsSameSeat writer.old writer.new × IsSameSeat reader.old reader.new }
    ensures reader { IsReader reader.new.me.0.cell }
    ensures stop { writer.new.me.0.cell ≡ at_stop (codes "old") (codes "newer") done }
{
    let (word, answer, bytes) = stands_after(done);
    assert_eq!(rt; table.shared.peek(CELL), word, "after {done} stores");
    let mut out = [0xff; 91];
    let read = read_across::<Q>(
        table, reader, writer, done, done, b"old", b"newer", &mut out,
    );
    assert_eq!(rt; read, answer, "after {done} stores");
    assert!(rt; out.starts_with(bytes), "after {done} stores");
}

#[test]
fn cell_at_every_stop(rt: HostRuntime) -> Result<(), Fail> {
    let value = PropValue::of(b"old").ok().ok_or("not legal")?;
    let (table, mut writer) = one_cell(rt.alloc(), value).ok().ok_or("no memory")?;
    let mut reader = one_reader(&table, &mut writer).ok().ok_or("no memory")?;
    for done in 0..26 {
        reads_at_stop::<Brand>(&rt, &table, &mut reader, &mut writer, done);
        store::<Brand>(&table, &mut writer, done, b"old", b"newer");
    }
    reads_at_stop::<Brand>(&rt, &table, &mut reader, &mut writer, 26);
    reader_history(&table, &mut reader);
    Ok(())
}

#[test]
fn stores_between_the_two_serials(rt: HostRuntime) -> Result<(), Fail> {
    let value = PropValue::of(b"old").ok().ok_or("not legal")?;
    let (table, mut writer) = one_cell(rt.alloc(), value).ok().ok_or("no memory")?;
    let mut reader = one_reader(&table, &mut writer).ok().ok_or("no memory")?;
    let mut out = [0; 91];
    let (old, new) = (b"old", b"newer");
    let backup = read_across::<Brand>(&table, &mut reader, &mut writer, 0, 12, old, new, &mut out);
    assert_eq!(rt; backup, FOUND_OLD);
    let dirty = read_across::<Brand>(&table, &mut reader, &mut writer, 12, 13, old, new, &mut out);
    assert_eq!(rt;
        dirty,
        CellAnswer::Again {
            first: CLEAN_OLD,
            second: DIRTY_OLD
        }
    );
    let values = read_across::<Brand>(&table, &mut reader, &mut writer, 13, 25, old, new, &mut out);
    assert_eq!(rt; values, FOUND_OLD);
    assert!(rt; out.starts_with(old));
    let clean = read_across::<Brand>(&table, &mut reader, &mut writer, 25, 26, old, new, &mut out);
    assert_eq!(rt;
        clean,
        CellAnswer::Again {
            first: DIRTY_OLD,
            second: CLEAN_NEW
        }
    );
    Ok(())
}

#[test]
fn serial_layout(rt: HostRuntime) -> Result<(), Fail> {
    assert_eq!(rt; serial(3, 1), CLEAN_OLD);
    assert_eq!(rt; parts(DIRTY_OLD), (3, 1, true));
    let name = PropName::of(b"a").ok_or("not legal")?;
    let value = PropValue::of(b"old").ok().ok_or("not legal")?;
    let (table, mut writer) = one_cell(rt.alloc(), value).ok().ok_or("no memory")?;
    assert_eq!(rt; table.shared.peek(CELL + 1), 0x0064_6c6f);
    let empty = PropValue::of(b"").ok().ok_or("not legal")?;
    write_cell(&table, &mut writer, CELL, name, 2, empty);
    assert_eq!(rt; table.shared.peek(CELL), 0x0000_0000_0000_0004);
    let long = PropValue::of(&[b'x'; 91]).ok().ok_or("not legal")?;
    write_cell(&table, &mut writer, CELL, name, 3, long);
    assert_eq!(rt; table.shared.peek(CELL), 0x5b00_0000_0000_0006);
    assert_eq!(rt; table.shared.peek(CELL + 12), 0x0078_7878);
    let mut out = [0; 91];
    let own = read_cell(&table, &mut writer, CELL, name, &mut out);
    assert_eq!(rt; own, CellAnswer::Found { len: 91, number: 3 });
    assert_eq!(rt; out.as_slice(), [b'x'; 91].as_slice());
    Ok(())
}
