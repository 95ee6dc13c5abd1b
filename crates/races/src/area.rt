//! One writer beside three readers at an area, each on a thread of its own. The first set gives a name that begins with `ro.` a
//! long value. The others go round the other names.
//!
//! `races area N`: each reader makes N reads, and the writer as many sets. Then, with no writer beside it, each reader makes one
//! last read, which has to find its name's value. It counts the answers that were not those of the sets that they named, or of
//! fewer sets than the reader had seen before, or not the value that a last read has to find.

ghost use Rattle.std.specs.Prelude.{◌≡◌, ◌<◌, ◌≤◌, ◌^◌, IfSome, IsTrue};
ghost use Rattle.init_machine.specs.Props.{MayBeSet};
ghost use Rattle.property_area.specs.Seats.{store_of};
ghost use Rattle.std.specs.Thread.{IsSync};

use crate::letters::{is_whole, value_at};
use init_base::{ClientId, PropName, PropValue};
use init_machine::PropStore;
use property_area::{Area, AreaWriter, ReadAnswer, Reader};
use std::alloc::Global;
use std::thread::{Threads, join_mut};

/// How many words the area has.
const WORDS: u64 = 2048;

/// How many names there are whose values change. Behind them is one that is set once.
const NAMES: u64 = 5;

/// How many bytes the long value has, which is set first.
const LONG: usize = 8_001;

/// The most bytes of a value under any name.
const MOST_BYTES: usize = 8_191;

/// The name with this place.
fn name_at(place: u64) -> &'static [u8] {
    match place {
        0 => b"sys.boot_completed",
        1 => b"sys.build.type",
        2 => b"sys.build.id",
        3 => b"ro",
        4 => b"persist.sys.timezone",
        _ => b"ro.build.fingerprint",
    }
}

/// The byte of the long value at this place.
fn long_letter(place: usize) -> u8 {
    b'a' + (place % 26) as u8
}

/// Whether this is the long value.
fn is_long(len: u16, out: &[u8]) -> bool {
    if len as usize != LONG || out.len() < LONG {
        return false;
    }
    for k in 0..LONG {
        if out[k] != long_letter(k) {
            return false;
        }
    }
    true
}

/// The number of the last of the first `count` sets that is of the name with this place, or none. The first set is that of the
/// long value.
fn last_set(place: u64, count: u64) -> Option<u64> {
    let before = count.checked_sub(2)?.checked_sub(place)?;
    count.checked_sub(before % NAMES)
}

/// Whether an answer is that of the sets, for the name that has the long value: no read of it meets a write.
fn is_right_long(answer: ReadAnswer, out: &[u8]) -> bool {
    match answer {
        ReadAnswer::Found { len, number } => number > 0 && is_long(len, out),
        ReadAnswer::Absent { number } => number == 0,
        ReadAnswer::Again { .. } => false,
    }
}

/// Whether an answer is that of the sets, for the name with this place.
fn is_right(answer: ReadAnswer, place: u64, out: &[u8]) -> bool {
    if place == NAMES {
        return is_right_long(answer, out);
    }
    match answer {
        ReadAnswer::Found { len, number } => match last_set(place, number) {
            Some(own) => is_whole(len, own, out),
            None => false,
        },
        ReadAnswer::Absent { number } => last_set(place, number).is_none(),
        ReadAnswer::Again { .. } => true,
    }
}

/// The answer of one read of the name with this place, where it is right.
fn right_read(area: &Area, reader: &mut Reader, place: u64, out: &mut [u8]) -> Option<ReadAnswer>
    requires area { reader.old.table ≡ area.now }
    ensures reader { reader.new.table ≡ reader.old.table }
{
    let name = PropName::of(name_at(place))?;
    let seen = reader.number();
    if name.max_value_len() > out.len() {
        return None;
    }
    let answer = reader.read(area, name, out);
    let right = is_right(answer, place, out) && reader.number() >= seen;
    if right { Some(answer) } else { None }
}

/// How many of so many reads were wrong. All are wrong where memory is short.
fn wrong_reads(alloc: Global, area: &Area, reader: &mut Reader, count: u64) -> u64
    requires area { reader.old.table ≡ area.now }
    ensures reader { reader.new.table ≡ reader.old.table }
{
    match vec![in alloc; 0; MOST_BYTES] {
        Ok(mut out) => wrong_of(area, reader, count, out.as_mut_slice()),
        Err(_) => count,
    }
}

/// The same by a buffer with room for any value.
fn wrong_of(area: &Area, reader: &mut Reader, count: u64, out: &mut [u8]) -> u64
    requires area { reader.old.table ≡ area.now }
    ensures reader { reader.new.table ≡ reader.old.table }
{
    let mut wrong = 0;
    for k in 0..count {
        if right_read(area, reader, k % (NAMES + 1), out).is_none() {
            wrong += 1;
        }
    }
    wrong
}

/// How many of one last read, with no writer beside it, were wrong: it finds the name that was set second, where one was.
fn wrong_ends(area: &Area, reader: &mut Reader, count: u64) -> u64
    requires area { reader.old.table ≡ area.now }
{
    let right = match right_read(area, reader, 0, &mut [0; 91]) {
        Some(ReadAnswer::Found { .. }) => count > 0,
        Some(ReadAnswer::Absent { .. }) => count == 0,
        Some(ReadAnswer::Again { .. }) | None => false,
    };
    u64::from(!right)
}

/// One set, where it has room, and the name is absent where it begins with `ro.`.
fn put(writer: &mut AreaWriter<'_>, name: &[u8], value: &[u8]) {
    let Some(name) = PropName::of(name) else {
        return;
    };
    let Ok(value) = PropValue::under(name, value) else {
        return;
    };
    if writer.room(name, value.bytes().len()).is_err() {
        return;
    }
    if may_be_set(writer, name) {
        writer.put(name, value);
    }
}

/// Whether the property may be set: one whose name begins with `ro.` is set once.
fn may_be_set(writer: &mut AreaWriter<'_>, name: PropName<'_>) -> bool
    ensures may { IsTrue result → MayBeSet (store_of writer.new.view) name.entry.bytes.now }
    ensures same { store_of writer.new.view ≡ store_of writer.old.view }
{
    !name.is_read_only() || writer.number_of(name).is_none()
}

/// The set of the long value. Nothing is set where memory is short.
fn set_long(writer: &mut AreaWriter<'_>, alloc: Global) {
    if let Ok(mut value) = vec![in alloc; 0; LONG] {
        let bytes = value.as_mut_slice();
        for k in 0..bytes.len() {
            bytes[k] = long_letter(k);
        }
        put(writer, name_at(NAMES), bytes);
    }
}

/// One set of the name with this place.
fn set_once(writer: &mut AreaWriter<'_>, place: u64, number: u64) {
    let (bytes, size) = value_at(number);
    put(writer, name_at(place), &bytes[..size]);
}

/// The set of the long value, and so many others, the first of which has number 2.
fn write_all(writer: &mut AreaWriter<'_>, alloc: Global, count: u64)
    requires { count < 2 ^ 41 }
{
    set_long(writer, alloc);
    for k in 0..count {
        set_once(writer, k % NAMES, k + 2);
    }
}

/// Two readers beside each other.
fn two_readers<R: Threads + Sync>(
    rt: &R,
    alloc: Global,
    area: &Area,
    one: &mut Reader,
    two: &mut Reader,
    count: u64,
) -> u64
    requires one { one.old.table ≡ area.now }
    requires two { two.old.table ≡ area.now }
    ensures readers { (one.new.table ≡ one.old.table) × (two.new.table ≡ two.old.table) }
{
    let (a, b) = join_mut(
        rt,
        &mut || wrong_reads(alloc, area, one, count),
        &mut || wrong_reads(alloc, area, two, count),
    );
    a.saturating_add(b)
}

/// The writer and a reader beside each other.
fn writer_and_reader<R: Threads + Sync>(
    rt: &R,
    alloc: Global,
    area: &Area,
    writer: &mut AreaWriter<'_>,
    reader: &mut Reader,
    count: u64,
) -> u64
    requires reader { reader.old.table ≡ area.now }
    requires count { count < 2 ^ 41 }
    ensures reader { reader.new.table ≡ reader.old.table }
{
    let ((), wrong) = join_mut(
        rt,
        &mut || write_all(writer, alloc, count),
        &mut || wrong_reads(alloc, area, reader, count),
    );
    wrong
}

/// The writer beside three readers.
fn all_beside<R: Threads + Sync>(
    rt: &R,
    alloc: Global,
    area: &Area,
    writer: &mut AreaWriter<'_>,
    one: &mut Reader,
    two: &mut Reader,
    three: &mut Reader,
    count: u64,
) -> u64
    requires one { one.old.table ≡ area.now }
    requires two { two.old.table ≡ area.now }
    requires three { three.old.table ≡ area.now }
    requires count { count < 2 ^ 41 }
    ensures readers { (one.new.table ≡ one.old.table) × (two.new.table ≡ two.old.table) × (three.new.table ≡ three.old.table) }
{
    let (a, b) = join_mut(
        rt,
        &mut || -> u64
            requires { IsSync R.row × (one.now.table ≡ area.now) × (two.now.table ≡ area.now) }
        { two_readers(rt, alloc, area, one, two, count) },
        &mut || -> u64
            requires { IsSync R.row × (three.now.table ≡ area.now) × (count < 2 ^ 41) }
        { writer_and_reader(rt, alloc, area, writer, three, count) },
    );
    a.saturating_add(b)
}

/// The race at a new area. None where memory is short.
pub fn race<R: Threads + Sync>(rt: &R, alloc: Global, count: u64) -> Option<u64>
    requires { count < 2 ^ 41 }
{
    let (area, seat) = Area::new(alloc, WORDS).ok()?;
    let mut writer = AreaWriter::new(&area, seat);
    let mut one = writer.hand_out(ClientId(1)).ok()?;
    let mut two = writer.hand_out(ClientId(2)).ok()?;
    let mut three = writer.hand_out(ClientId(3)).ok()?;
    let wrong = all_beside(
        rt,
        alloc,
        &area,
        &mut writer,
        &mut one,
        &mut two,
        &mut three,
        count,
    );
    let ends = wrong_ends(&area, &mut one, count)
        .saturating_add(wrong_ends(&area, &mut two, count))
        .saturating_add(wrong_ends(&area, &mut three, count));
    Some(wrong.saturating_add(ends))
}
