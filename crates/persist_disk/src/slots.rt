//! What is read and written of a store on its disk.

ghost use Rattle.std.specs.Prelude.{◌≡◌, ◌≢◌, ◌↔◌, ◌+◌, ◌-◌, ◌<◌, ◌≤◌, ◌^◌};
ghost use Rattle.std.specs.Prelude.{◌++◌, length, min, replicate, is_err, Err, IfOk, IfSome, IsTrue, OnOk};
ghost use Rattle.init_base.specs.Faults.{Counted, read_failed, write_failed};
ghost use Rattle.persist_disk.specs.DiskModel.{LeavesRead, LeavesTorn, OnlyReads, WritesAt};
ghost use Rattle.persist_disk.specs.Finding.{IsFound, IsGate, IsPart};
ghost use Rattle.persist_disk.specs.Image.{chosen_slot, eight_bytes, length_at, IsStore};
ghost use Rattle.persist_disk.specs.Replacing.{Formats, LeavesEither, Puts};
ghost use Rattle.persist_disk.specs.Keeping.{open_failed, FormatsAs, StandsOn};

use crate::disk::{Disk, joined};
use crate::layout::{Chosen, LENGTH, Slot};
use crate::refusal::OpenRefusal;
use init_base::{Failed, IoRefusal, Keeper, NoMemory, ReadRefusal, Text};
use std::alloc::Global;

/// What a disk holds of a store.
pub(crate) enum Found {
    Store(Chosen),
    /// Fewer than 16 bytes.
    Nothing,
    /// A chosen slot whose length is too large.
    Bad { slot: u8, len: u64 },
}

/// The gate. None where the disk has fewer than 16 bytes.
fn read_gate<D: Disk>(disk: &mut D) -> Result<Option<u8>, Failed>
    ensures gate { IfSome (D.content disk.old) (λ image. IfOk result (IsGate image)) }
    ensures cause { Counted (is_err result) (D.fault_count disk.old) (D.fault_count disk.new) }
    ensures reads { OnlyReads D.content D.TellsCrash D.moment D.MayLeave disk.old disk.new }
{
    let mut head = [0; 16];
    let count = disk.read_at(0, &mut head)?;
    if count < head.len() {
        return Ok(None);
    }
    Ok(Some(head[0]))
}

/// The length that stands at a place. A byte past the end counts as FF.
fn read_length<D: Disk>(disk: &mut D, at: u64) -> Result<u64, Failed>
    ensures length { IfSome (D.content disk.old) (λ image. IfOk result (λ len. len ≡ length_at image at)) }
    ensures cause { Counted (is_err result) (D.fault_count disk.old) (D.fault_count disk.new) }
    ensures reads { OnlyReads D.content D.TellsCrash D.moment D.MayLeave disk.old disk.new }
{
    let mut there = [0; 8];
    let count = disk.read_at(at, &mut there)?;
    let mut bytes = [0xff; 8];
    bytes[..count].copy_from_slice(&there[..count]);
    Ok(u64::from_le_bytes(bytes))
}

/// Whether the disk reaches up to a place.
fn reaches<D: Disk>(disk: &mut D, end: u64) -> Result<bool, Failed>
    requires { 0 < end }
    ensures answer { IfSome (D.content disk.old) (λ image. IfOk result (λ is. IsTrue is ↔ (end ≤ length image))) }
    ensures cause { Counted (is_err result) (D.fault_count disk.old) (D.fault_count disk.new) }
    ensures reads { OnlyReads D.content D.TellsCrash D.moment D.MayLeave disk.old disk.new }
{
    let mut last = [0; 1];
    let count = disk.read_at(end - 1, &mut last)?;
    Ok(count == 1)
}

/// What a disk holds of a store with slots of this size.
pub(crate) fn find<D: Disk>(disk: &mut D, size: u64) -> Result<Found, Failed>
    requires low { 64 ≤ size }
    requires high { size ≤ 33554440 }
    ensures found { IfSome (D.content disk.old) (λ image. IfOk result (IsFound size image)) }
    ensures cause { Counted (is_err result) (D.fault_count disk.old) (D.fault_count disk.new) }
    ensures reads { OnlyReads D.content D.TellsCrash D.moment D.MayLeave disk.old disk.new }
{
    let Some(gate) = read_gate(disk)? else {
        return Ok(Found::Nothing);
    };
    let slot = Slot::chosen_by(gate);
    let place = slot.place(size);
    let len = read_length(disk, place)?;
    if len > size - LENGTH || !reaches(disk, place + LENGTH + len)? {
        return Ok(Found::Bad {
            slot: slot.number(),
            len,
        });
    }
    Ok(Found::Store(Chosen { slot, len }))
}

/// What a disk holds of a store, once what was written is safe.
pub(crate) fn find_synced<D: Disk>(disk: &mut D, size: u64) -> Result<Found, IoRefusal>
    requires low { 64 ≤ size }
    requires high { size ≤ 33554440 }
    ensures found { IfSome (D.content disk.old) (λ image. IfOk result (IsFound size image)) }
    ensures cause { Counted (write_failed result) (D.fault_count disk.old) (D.fault_count disk.new) }
    ensures reads { OnlyReads D.content D.TellsCrash D.moment D.MayLeave disk.old disk.new }
    ensures safe { D.TellsCrash disk.old → OnOk result (LeavesRead (D.content disk.new) (D.MayLeave disk.new (D.moment disk.new))) }
{
    disk.sync()?;
    match find(disk, size) {
        Ok(found) => Ok(found),
        Err(Failed) => Err(IoRefusal::Failed),
    }
}

/// So many bytes from a place on. None where the disk has fewer.
pub(crate) fn read_text<D: Disk>(
    disk: &mut D,
    alloc: Global,
    at: u64,
    len: u64,
) -> Result<Option<Text>, ReadRefusal>
    ensures text { IfSome (D.content disk.old) (λ image. IfOk result (IsPart image at len)) }
    ensures len { IfOk result (λ text. IfSome text (λ text. length text ≡ len)) }
    ensures limit { result ≢ Err ReadRefusal.TooLarge }
    ensures cause { Counted (read_failed result) (D.fault_count disk.old) (D.fault_count disk.new) }
    ensures reads { OnlyReads D.content D.TellsCrash D.moment D.MayLeave disk.old disk.new }
{
    let mut bytes = Vec::from_elem(alloc, 0, len as usize)?;
    let Ok(count) = disk.read_at(at, bytes.as_mut_slice()) else {
        return Err(ReadRefusal::Failed);
    };
    if count < bytes.len() {
        return Ok(None);
    }
    Ok(Some(Text::from_vec(bytes)?))
}

/// Writes bytes at a place, and waits until they are safe.
fn write_synced<D: Disk>(disk: &mut D, at: u64, bytes: &[u8]) -> Result<(), IoRefusal>
    ensures bytes { WritesAt (D.content disk.old) (D.content disk.new) result at bytes.now }
    ensures cause { Counted (write_failed result) (D.fault_count disk.old) (D.fault_count disk.new) }
    ensures moment { D.TellsCrash disk.old → D.moment disk.old ≤ D.moment disk.new }
    ensures leaves { D.TellsCrash disk.old
        → LeavesTorn (D.moment disk.old) (D.MayLeave disk.old) (D.MayLeave disk.new) at (length bytes.now) }
    ensures safe { D.TellsCrash disk.old → OnOk result (LeavesRead (D.content disk.new) (D.MayLeave disk.new (D.moment disk.new))) }
    ensures tells { D.TellsCrash disk.old ↔ D.TellsCrash disk.new }
{
    disk.write_at(at, bytes)?;
    disk.sync()
}

/// Writes two parts at a place, one behind the other, and waits until they are safe.
fn write_parts_synced<D: Disk>(
    disk: &mut D,
    alloc: Global,
    at: u64,
    front: &[u8],
    behind: &[u8],
) -> Result<(), IoRefusal>
    ensures bytes { WritesAt (D.content disk.old) (D.content disk.new) result at (front.now ++ behind.now) }
    ensures cause { Counted (write_failed result) (D.fault_count disk.old) (D.fault_count disk.new) }
    ensures moment { D.TellsCrash disk.old → D.moment disk.old ≤ D.moment disk.new }
    ensures leaves { D.TellsCrash disk.old
        → LeavesTorn (D.moment disk.old) (D.MayLeave disk.old) (D.MayLeave disk.new) at (length (front.now ++ behind.now)) }
    ensures safe { D.TellsCrash disk.old → OnOk result (LeavesRead (D.content disk.new) (D.MayLeave disk.new (D.moment disk.new))) }
    ensures tells { D.TellsCrash disk.old ↔ D.TellsCrash disk.new }
{
    disk.write_parts(alloc, at, front, behind)?;
    disk.sync()
}

/// The length of a text, as its slot begins.
fn length_bytes(text: &[u8]) -> [u8; 8]
    ensures { result ≡ eight_bytes (length text.now) }
{
    (text.len() as u64).to_le_bytes()
}

/// What stands before a text on the disk of a store that was formatted with it.
fn formatted_head(alloc: Global, text: &[u8]) -> Result<Vec<u8>, NoMemory>
    ensures { IfOk result (λ head. head.items ≡ replicate 8 0 ++ eight_bytes (length text.now)) }
{
    let length = length_bytes(text);
    joined(alloc, &[0; 8], &length)
}

/// Writes a store with a text on a disk of fewer than 16 bytes.
fn format<D: Disk>(disk: &mut D, alloc: Global, text: &[u8]) -> Result<(), IoRefusal>
    requires fits { length text.now + 8 ≤ 33554440 }
    ensures bytes { Formats (D.content disk.old) (D.content disk.new) result text.now }
    ensures cause { Counted (write_failed result) (D.fault_count disk.old) (D.fault_count disk.new) }
    ensures safe { D.TellsCrash disk.old → OnOk result (LeavesRead (D.content disk.new) (D.MayLeave disk.new (D.moment disk.new))) }
    ensures tells { D.TellsCrash disk.old ↔ D.TellsCrash disk.new }
{
    let head = formatted_head(alloc, text)?;
    write_parts_synced(disk, alloc, 0, &head, text)
}

/// Formats a disk of fewer than 16 bytes with the text of another keeper.
pub(crate) fn format_from<D: Disk, P: Keeper>(
    disk: &mut D,
    former: &mut P,
    alloc: Global,
    size: u64,
) -> Result<Chosen, OpenRefusal>
    requires low { 64 ≤ size }
    requires high { size ≤ 33554440 }
    requires few { IfSome (D.content disk.old) (λ image. length image < 16) }
    ensures answer { FormatsAs size (D.content disk.old) (D.content disk.new) (P.held former.old) result }
    ensures stands { IfOk result (StandsOn D.content D.TellsCrash D.moment D.MayLeave disk.new size) }
    ensures cause { Counted (open_failed result)
        (min (D.fault_count disk.old + P.fault_count former.old) (2 ^ 64 - 1))
        (min (D.fault_count disk.new + P.fault_count former.new) (2 ^ 64 - 1)) }
    ensures tells { D.TellsCrash disk.old ↔ D.TellsCrash disk.new }
{
    let text = former.load(alloc, (size - LENGTH) as usize)?;
    format(disk, alloc, text.bytes())?;
    Ok(Chosen {
        slot: Slot::Zero,
        len: text.len() as u64,
    })
}

/// Puts a text into the slot that isn't chosen, and then has the gate choose it.
pub(crate) fn put<D: Disk>(
    disk: &mut D,
    alloc: Global,
    size: u64,
    chosen: Slot,
    text: &[u8],
) -> Result<(), IoRefusal>
    requires low { 64 ≤ size }
    requires high { size ≤ 33554440 }
    requires fits { length text.now + 8 ≤ size }
    ensures bytes { Puts size chosen (D.content disk.old) (D.content disk.new) result text.now }
    ensures cause { Counted (write_failed result) (D.fault_count disk.old) (D.fault_count disk.new) }
    ensures moment { D.TellsCrash disk.old → D.moment disk.old ≤ D.moment disk.new }
    // The disk holds a store with that slot chosen, which a crash leaves alone.
    ensures leaves { D.TellsCrash disk.old → LeavesRead (D.content disk.old) (D.MayLeave disk.old (D.moment disk.old))
        → IfSome (D.content disk.old) (λ image. IsStore size image → chosen ≡ chosen_slot image
        → LeavesEither size (D.moment disk.old) (D.MayLeave disk.old) (D.MayLeave disk.new) image text.now) }
    ensures safe { D.TellsCrash disk.old → OnOk result (LeavesRead (D.content disk.new) (D.MayLeave disk.new (D.moment disk.new))) }
    ensures tells { D.TellsCrash disk.old ↔ D.TellsCrash disk.new }
{
    let next = chosen.other();
    let length = length_bytes(text);
    write_parts_synced(disk, alloc, next.place(size), &length, text)?;
    write_synced(disk, 0, &[next.number()])
}
