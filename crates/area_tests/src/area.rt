//! An area's size, its room and its readers, with ample memory. A test makes the area, and what is asked of it stands in a function
//! that borrows it: so only one end lets an area go, which is dear to prove.

ghost use Rattle.std.specs.Prelude.{◌≡◌, IsTrue};
ghost use Rattle.init_machine.specs.Props.{MayBeSet};
ghost use Rattle.property_area.specs.Area.{begins};
ghost use Rattle.property_area.specs.Seats.{store_of};

use init_base::{ClientId, PropName, PropValue};
use init_machine::{Full, PropStore};
use property_area::{Area, AreaRefusal, AreaWriter, ReadAnswer, Reader};
use std::alloc::Global;
use std::process::Abort;
use std::test::Fail;

/// Whether the property may be set: one whose name begins with `ro.` is set once.
fn may_be_set(store: &mut AreaWriter<'_>, name: PropName<'_>) -> bool
    ensures may { IsTrue result → MayBeSet (store_of store.new.view) name.entry.bytes.now }
    ensures same { store_of store.new.view ≡ store_of store.old.view }
    ensures area { store.new.table ≡ store.old.table }
{
    !name.is_read_only() || store.number_of(name).is_none()
}

/// Sets a property where there is room, and answers the set's number.
fn set(
    store: &mut AreaWriter<'_>,
    alloc: Global,
    name: &str,
    value: &[u8],
) -> Result<u64, &'static str>
    ensures { store.new.table ≡ store.old.table }
{
    let name = PropName::of(name.as_bytes()).ok_or("no name")?;
    let Ok(value) = PropValue::under(name, value) else {
        return Err("no value");
    };
    if store.reserve(alloc).is_err() {
        return Err("no memory");
    }
    if store.room(name, value.bytes().len()).is_err() {
        return Err("no room");
    }
    if may_be_set(store, name) {
        Ok(store.put(name, value))
    } else {
        Err("read-only")
    }
}

fn room(
    store: &mut AreaWriter<'_>,
    name: &str,
    len: usize,
) -> Result<Result<(), Full>, &'static str>
    ensures { store.new.table ≡ store.old.table }
{
    let name = PropName::of(name.as_bytes()).ok_or("no name")?;
    Ok(store.room(name, len))
}

/// Whether a look-up gives this value and number.
fn has(store: &mut AreaWriter<'_>, name: &str, value: &[u8], number: u64, out: &mut [u8]) -> bool
    ensures { store.new.table ≡ store.old.table }
{
    let Some(name) = PropName::of(name.as_bytes()) else {
        return false;
    };
    if name.max_value_len() > out.len() {
        return false;
    }
    match store.get(name, out) {
        Some((len, found)) => len == value.len() && out.starts_with(value) && found == number,
        None => false,
    }
}

/// A name that takes the rest of an area of 64 words in which `a` stands.
const LONG: &str = "abcdefghijklmnopq.abcdefghijklmnopq";

fn fill(rt: &impl Abort, alloc: Global, writer: &mut AreaWriter<'_>) -> Result<(), Fail>
    ensures { writer.new.table ≡ writer.old.table }
{
    assert_eq!(rt; set(writer, alloc, "a", b"1")?, 1);
    assert_eq!(rt; set(writer, alloc, LONG, b"1")?, 2);
    assert_eq!(rt; writer.used(), 64);
    let full = Full::Words { used: 64, need: 19 };
    assert_eq!(rt; room(writer, "b", 91)?, Err(full));
    assert_eq!(rt; set(writer, alloc, "a", b"2")?, 3);
    Ok(())
}

#[test]
fn area_full(rt: HostRuntime) -> Result<(), Fail> {
    let (area, seat) = Area::new(rt.alloc(), 64).ok().ok_or("no area")?;
    let mut writer = AreaWriter::new(&area, seat);
    let filled = fill(&rt, rt.alloc(), &mut writer);
    let mut out = [7; 91];
    assert!(rt; has(&mut writer, "a", b"2", 3, &mut out));
    assert!(rt; has(&mut writer, LONG, b"1", 2, &mut out));
    let mut again = AreaWriter::new(&area, writer.into_seat());
    assert_eq!(rt; again.count(), 3);
    assert_eq!(rt; again.words(), 64);
    assert!(rt; has(&mut again, "a", b"2", 3, &mut out));
    filled
}

fn set_once(rt: &impl Abort, alloc: Global, writer: &mut AreaWriter<'_>) -> Result<(), Fail> {
    let value = [b'x'; 92];
    assert_eq!(rt; set(writer, alloc, "ro.a", &value)?, 1);
    assert_eq!(rt; writer.used(), 42);
    assert_eq!(rt; set(writer, alloc, "b", b"1")?, 2);
    let full = Full::Words { used: 61, need: 19 };
    assert_eq!(rt; room(writer, "c", 1)?, Err(full));
    let more = Full::Words { used: 61, need: 20 };
    assert_eq!(rt; room(writer, "ro.c", 92)?, Err(more));
    assert_eq!(rt; set(writer, alloc, "ro.a", b"y").err(), Some("read-only"));
    let mut out = vec![in alloc; 7; 8191]?;
    assert!(rt; has(writer, "ro.a", &value, 1, out.as_mut_slice()));
    Ok(())
}

/// A value of 92 bytes under `ro.a` takes 14 words behind two nodes of 6, and a second set isn't made.
#[test]
fn a_long_value(rt: HostRuntime) -> Result<(), Fail> {
    let (area, seat) = Area::new(rt.alloc(), 64).ok().ok_or("no area")?;
    let mut writer = AreaWriter::new(&area, seat);
    set_once(&rt, rt.alloc(), &mut writer)
}

/// One read, and the buffer of 8,191 sevens that it wrote to. None where the name is none, or memory is short.
fn read(
    alloc: Global,
    area: &Area,
    reader: &mut Reader,
    name: &str,
) -> Option<(ReadAnswer, Vec<u8>)>
    requires { reader.old.table ≡ area.now }
{
    let name = PropName::of(name.as_bytes())?;
    let mut out = vec![in alloc; 7; 8191].ok()?;
    let bytes = out.as_mut_slice();
    if name.max_value_len() > bytes.len() {
        return None;
    }
    let answer = reader.read(area, name, bytes);
    Some((answer, out))
}

fn read_long(
    rt: &impl Abort,
    alloc: Global,
    area: &Area,
    writer: &mut AreaWriter<'_>,
) -> Result<(), Fail>
    requires { (writer.old.table ≡ area.now) × (writer.old.view ≡ begins 64) }
{
    let mut reader = writer.hand_out(ClientId(1)).ok().ok_or("no memory")?;
    let value = [b'x'; 92];
    assert_eq!(rt; set(writer, alloc, "ro.a", &value)?, 1);
    let (answer, out) = read(alloc, area, &mut reader, "ro.a").ok_or("no read")?;
    assert_eq!(rt; answer, ReadAnswer::Found { len: 92, number: 1 });
    assert!(rt; out.as_slice().starts_with(&value));
    assert_eq!(rt; out.as_slice().get(92), Some(&7));
    Ok(())
}

/// A read of a long value leaves what stands behind it in the buffer.
#[test]
fn a_long_value_is_read(rt: HostRuntime) -> Result<(), Fail> {
    let (area, seat) = Area::new(rt.alloc(), 64).ok().ok_or("no area")?;
    let mut writer = AreaWriter::new(&area, seat);
    read_long(&rt, rt.alloc(), &area, &mut writer)
}

/// Sets 63 names to a long value.
fn set_long(writer: &mut AreaWriter<'_>, alloc: Global, value: &[u8]) -> Result<(), Fail> {
    for k in 10..73 {
        let name = format!(in alloc; "ro.k{k}")?;
        set(writer, alloc, name.as_str(), value)?;
    }
    Ok(())
}

fn fill_to_the_end(
    rt: &impl Abort,
    alloc: Global,
    writer: &mut AreaWriter<'_>,
) -> Result<(), Fail> {
    let value = vec![in alloc; b'x'; 8191]?;
    set_long(writer, alloc, value.as_slice())?;
    assert_eq!(rt; writer.used(), 65_038);
    let mut out = vec![in alloc; 7; 8191]?;
    let slice = out.as_mut_slice();
    assert!(rt; has(writer, "ro.k10", value.as_slice(), 1, slice));
    Ok(())
}

fn fill_the_rest(rt: &impl Abort, alloc: Global, writer: &mut AreaWriter<'_>) -> Result<(), Fail> {
    let last = vec![in alloc; b'y'; 3920]?;
    let past = Full::Words {
        used: 65_038,
        need: 499,
    };
    assert_eq!(rt; room(writer, "ro.k73", 3921)?, Err(past));
    set(writer, alloc, "ro.k73", last.as_slice())?;
    assert_eq!(rt; writer.used(), 65_536);
    let full = Full::Words {
        used: 65_536,
        need: 20,
    };
    assert_eq!(rt; room(writer, "ro.z", 92)?, Err(full));
    assert_eq!(rt; room(writer, "ro.k73", 91)?, Ok(()));
    let mut out = vec![in alloc; 7; 8191]?;
    let slice = out.as_mut_slice();
    assert!(rt; has(writer, "ro.k73", last.as_slice(), 64, slice));
    Ok(())
}

fn fill_whole(rt: &impl Abort, alloc: Global, writer: &mut AreaWriter<'_>) -> Result<(), Fail> {
    fill_to_the_end(rt, alloc, writer)?;
    fill_the_rest(rt, alloc, writer)
}

/// The area is filled by long values to its last word. A node of `ro` takes 6 words, and one of `kNN` 6. With 8,191 bytes a cell takes
/// 2 + 1,024 = 1,026 words, so each such name takes 1,032: 63 of them and the node take 65,022 of the 65,520 words behind the
/// head. What is left, 498, is a node and a cell of 492 words, which has 490 words of value: 3,920 bytes. Then `ro.z` with 92
/// bytes would need 6 + 14 words.
#[test]
fn long_values_to_the_last_word(rt: HostRuntime) -> Result<(), Fail> {
    let (area, seat) = Area::new(rt.alloc(), 65_536).ok().ok_or("no area")?;
    let mut writer = AreaWriter::new(&area, seat);
    fill_whole(&rt, rt.alloc(), &mut writer)
}

fn read_and_catch_up(
    rt: &impl Abort,
    alloc: Global,
    area: &Area,
    writer: &mut AreaWriter<'_>,
) -> Result<(), Fail>
    requires { (writer.old.table ≡ area.now) × (writer.old.view ≡ begins 64) }
{
    let name = PropName::of(b"a").ok_or("no name")?;
    let mut reader = writer.hand_out(ClientId(1)).ok().ok_or("no memory")?;
    let mut other = writer.hand_out(ClientId(2)).ok().ok_or("no memory")?;
    let mut out = [7; 91];
    assert_eq!(rt;
        reader.read(area, name, &mut out),
        ReadAnswer::Absent { number: 0 }
    );
    assert_eq!(rt; set(writer, alloc, "a", b"1")?, 1);
    let found = ReadAnswer::Found { len: 1, number: 1 };
    assert_eq!(rt; reader.read(area, name, &mut out), found);
    assert_eq!(rt; out[0], b'1');
    assert_eq!(rt; reader.catch_up(area), 1);
    assert_eq!(rt; other.catch_up(area), 1);
    assert_eq!(rt; reader.number(), 1);
    assert_eq!(rt; writer.take_in(reader), ClientId(1));
    assert_eq!(rt; other.who(), ClientId(2));
    Ok(())
}

#[test]
fn area_sizes_and_readers(rt: HostRuntime) -> Result<(), Fail> {
    let small = AreaRefusal::TooSmall { words: 63 };
    assert_eq!(rt; Area::new(rt.alloc(), 63).err(), Some(small));
    let big = AreaRefusal::TooBig { words: 1_048_577 };
    assert_eq!(rt; Area::new(rt.alloc(), 1_048_577).err(), Some(big));
    let (area, seat) = Area::new(rt.alloc(), 64).ok().ok_or("no area")?;
    let mut writer = AreaWriter::new(&area, seat);
    read_and_catch_up(&rt, rt.alloc(), &area, &mut writer)
}
