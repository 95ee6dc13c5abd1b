//! The words of an area, which no public call shows. A test makes the area, and what is asked of it stands in a function that borrows
//! it: so only one end lets an area go, which is dear to prove.

ghost use Rattle.std.specs.Prelude.{◌≡◌, ◌<◌, IsTrue};
ghost use Rattle.init_machine.specs.Props.{MayBeSet};
ghost use Rattle.property_area.specs.Seats.{store_of};

use crate::area::Area;
use crate::writer::AreaWriter;
use init_base::{PropName, PropValue};
use init_machine::{Full, PropStore};
use std::alloc::Global;
use std::process::Abort;
use std::test::Fail;

/// Whether the property may be set: one whose name begins with `ro.` is set once.
fn may_be_set(store: &mut AreaWriter<'_>, name: PropName<'_>) -> bool
    ensures may { IsTrue result → MayBeSet (store_of store.new.view) name.entry.bytes.now }
    ensures same { store_of store.new.view ≡ store_of store.old.view }
    ensures area { store.new.table ≡ store.old.table }
{
    !name.is_read_only() || store.number_of(name).is_none()
}

/// Sets a property where there is room, and answers the set's number.
fn set(
    store: &mut AreaWriter<'_>,
    alloc: Global,
    name: &str,
    value: &[u8],
) -> Result<u64, &'static str>
    ensures { store.new.table ≡ store.old.table }
{
    let name = PropName::of(name.as_bytes()).ok_or("no name")?;
    let Ok(value) = PropValue::under(name, value) else {
        return Err("no value");
    };
    if store.reserve(alloc).is_err() {
        return Err("no memory");
    }
    if store.room(name, value.bytes().len()).is_err() {
        return Err("no room");
    }
    if may_be_set(store, name) {
        Ok(store.put(name, value))
    } else {
        Err("read-only")
    }
}

fn room(
    store: &mut AreaWriter<'_>,
    name: &str,
    len: usize,
) -> Result<Result<(), Full>, &'static str>
    ensures { store.new.table ≡ store.old.table }
{
    let name = PropName::of(name.as_bytes()).ok_or("no name")?;
    Ok(store.room(name, len))
}

/// A word of the area.
fn word(area: &Area, at: usize) -> u64
    requires { at < 64 }
{
    area.table.shared.peek(at)
}

/// Each of these words, with its place.
fn has_words(rt: &impl Abort, area: &Area, words: &[(usize, u64)]) {
    for &(at, value) in words {
        if at < 64 {
            assert_eq!(rt; word(area, at), value, "at {at}");
        }
    }
}

fn fill_short_cells(
    rt: &impl Abort,
    alloc: Global,
    area: &Area,
    writer: &mut AreaWriter<'_>,
) -> Result<(), Fail> {
    assert_eq!(rt; writer.used(), 16);
    assert_eq!(rt; set(writer, alloc, "a", b"1")?, 1);
    let node = [(16, 1), (17, 0), (18, 0), (19, 0), (20, 22), (21, 0x61)];
    has_words(rt, area, &node);
    let cell = [(0, 1), (1, 16), (22, 0x0100_0000_0000_0002), (23, 0x31)];
    has_words(rt, area, &cell);
    assert_eq!(rt; writer.used(), 35);
    assert_eq!(rt; set(writer, alloc, "b", b"2")?, 2);
    let second = [(0, 2), (18, 35), (41, 0x0100_0000_0000_0004)];
    has_words(rt, area, &second);
    assert_eq!(rt; writer.used(), 54);
    let full = Full::Words { used: 54, need: 19 };
    assert_eq!(rt; room(writer, "aa", 1)?, Err(full));
    assert_eq!(rt; room(writer, "a", 91)?, Ok(()));
    Ok(())
}

#[test]
fn area_words(rt: HostRuntime) -> Result<(), Fail> {
    let (area, seat) = Area::new(rt.alloc(), 64).ok().ok_or("no area")?;
    let mut writer = AreaWriter::new(&area, seat);
    fill_short_cells(&rt, rt.alloc(), &area, &mut writer)
}

/// Of a value of 92 bytes `x`: it has a long cell of 14 words, its serial, 92, and twelve words, the last of which has four bytes.
fn fill_long_cell(
    rt: &impl Abort,
    alloc: Global,
    area: &Area,
    writer: &mut AreaWriter<'_>,
) -> Result<(), Fail> {
    assert_eq!(rt; set(writer, alloc, "ro.a", &[b'x'; 92])?, 1);
    let nodes = [
        (1, 16),
        (16, 2),
        (19, 22),
        (20, 0),
        (21, 0x6f72),
        (22, 1),
        (26, 28),
        (27, 0x61),
    ];
    has_words(rt, area, &nodes);
    let cell = [
        (28, 0xff00_0000_0000_0002),
        (29, 92),
        (30, 0x7878_7878_7878_7878),
    ];
    has_words(rt, area, &cell);
    has_words(
        rt,
        area,
        &[(40, 0x7878_7878_7878_7878), (41, 0x7878_7878), (42, 0)],
    );
    assert_eq!(rt; writer.used(), 42);
    assert_eq!(rt; set(writer, alloc, "b", b"1")?, 2);
    assert_eq!(rt; writer.used(), 61);
    let full = Full::Words { used: 61, need: 19 };
    assert_eq!(rt; room(writer, "c", 1)?, Err(full));
    assert_eq!(rt; room(writer, "ro.a", 92)?, Ok(()));
    Ok(())
}

#[test]
fn words_of_a_long_cell(rt: HostRuntime) -> Result<(), Fail> {
    let (area, seat) = Area::new(rt.alloc(), 64).ok().ok_or("no area")?;
    let mut writer = AreaWriter::new(&area, seat);
    fill_long_cell(&rt, rt.alloc(), &area, &mut writer)
}
