//! The store on a disk: the steps of a replace, crashes between them, and disks that don't open.

use init_base::{IoRefusal, Keeper, List, MemKeeper, SteadyKeeper, Text};
use persist_disk::{
    Disk, DiskKeeper, DiskStep, LateKeeper, MemDisk, OpenRefusal, ReopenRefusal, StdDisk, reopen,
};
use persist_file::StoreCause;
use std::alloc::Global;
use std::fs;
use std::process::Abort;
use std::test::Fail;

/// The size of a slot.
const SLOT: u64 = 64;

/// The most bytes of a text in such a slot.
const LIMIT: usize = 56;

/// The store's text of no pairs.
const NEW: &[u8] = b"persist 1\n";

type Store = DiskKeeper<MemDisk, SteadyKeeper>;

/// A disk that holds these bytes. `fail` lists the calls, from 1, that fail.
fn disk_of(alloc: Global, bytes: &[u8], fail: List<u64>) -> Result<MemDisk, Fail> {
    Ok(MemDisk::new(alloc, Text::of(alloc, bytes)?, fail)?)
}

/// A store on such a disk, which is formatted with the empty text.
fn store_of(disk: MemDisk) -> Store {
    DiskKeeper::new(disk, SLOT, SteadyKeeper::new(Text::empty()))
}

/// Writes again what the first `done` calls wrote.
fn write_again(disk: &mut MemDisk, steps: &[DiskStep], done: usize) -> Result<(), Fail> {
    for step in steps.iter().take(done) {
        if let DiskStep::Write { at, bytes } = step {
            disk.write_at(*at, bytes.bytes())?;
        }
    }
    Ok(())
}

/// Whether a store opens to this text after a crash that left the first `done` of its calls done, and no other.
fn opens_to(alloc: Global, steps: &[DiskStep], done: usize, text: &[u8]) -> Result<bool, Fail> {
    let mut disk = disk_of(alloc, b"", List::new(alloc))?;
    write_again(&mut disk, steps, done)?;
    let mut store = store_of(disk);
    Ok(holds(alloc, &mut store, text))
}

fn holds(alloc: Global, store: &mut Store, text: &[u8]) -> bool {
    store.load(alloc, LIMIT).is_ok_and(|held| held.is(text))
}

fn is_write(step: Option<&DiskStep>, place: u64, written: &[u8]) -> bool {
    matches!(step, Some(DiskStep::Write { at, bytes }) if *at == place && bytes.is(written))
}

fn is_sync(step: Option<&DiskStep>) -> bool {
    matches!(step, Some(DiskStep::Sync))
}

fn writes_in(steps: &[DiskStep]) -> usize {
    steps.iter().filter(|step| !is_sync(Some(*step))).count()
}

/// A replace writes a slot of 18 bytes, syncs, writes the gate and syncs; a crash before the gate leaves the empty text.
fn check_steps(
    rt: &impl Abort,
    alloc: Global,
    steps: &[DiskStep],
    first: usize,
) -> Result<(), Fail> {
    assert_eq!(rt; steps.len(), first.saturating_add(4));
    assert!(rt; is_write(steps.get(first), 72, b"\x0a\0\0\0\0\0\0\0persist 1\n"));
    assert!(rt; is_sync(steps.get(first.saturating_add(1))));
    assert!(rt; is_write(steps.get(first.saturating_add(2)), 0, b"\x01"));
    assert!(rt; is_sync(steps.get(first.saturating_add(3))));

    assert!(rt; opens_to(alloc, steps, first, b"")?);
    assert!(rt; opens_to(alloc, steps, first.saturating_add(1), b"")?);
    assert!(rt; opens_to(alloc, steps, first.saturating_add(2), b"")?);
    assert!(rt; opens_to(alloc, steps, first.saturating_add(3), NEW)?);
    assert!(rt; opens_to(alloc, steps, first.saturating_add(4), NEW)?);
    Ok(())
}

#[test]
fn disk_crash_points(rt: HostRuntime) -> Result<(), Fail> {
    let alloc = rt.alloc();
    let mut store = store_of(disk_of(alloc, b"", List::new(alloc))?);
    assert!(rt; store.open(alloc).is_ok());
    let first = store.disk().steps().len();
    assert!(rt; store.replace(alloc, NEW).is_ok());
    assert!(rt; holds(alloc, &mut store, NEW));
    check_steps(&rt, alloc, store.disk().steps(), first)
}

#[test]
fn call_after_fault_opens_again(rt: HostRuntime) -> Result<(), Fail> {
    let alloc = rt.alloc();
    // Opening makes four calls: it syncs, reads, writes and syncs.
    let fail = List::from_vec(vec![in alloc; 6]?);
    let mut store = store_of(disk_of(alloc, b"", fail)?);
    assert!(rt; store.open(alloc).is_ok());
    assert_eq!(rt; store.disk().calls(), 4);
    assert!(rt; store.replace(alloc, NEW) == Err(IoRefusal::Failed));
    assert_eq!(rt; store.faults(), 1);
    assert!(rt; holds(alloc, &mut store, b""));
    assert!(rt; store.replace(alloc, NEW).is_ok());
    assert!(rt; holds(alloc, &mut store, NEW));
    assert!(rt; store.replace(alloc, &[b'x'; 57]) == Err(IoRefusal::Failed));
    assert_eq!(rt; store.faults(), 2);
    Ok(())
}

/// What opening answers on an empty disk.
fn opening<P: Keeper + Drop>(alloc: Global, former: P) -> Result<Result<(), OpenRefusal>, Fail> {
    let disk = disk_of(alloc, b"", List::new(alloc))?;
    Ok(DiskKeeper::new(disk, SLOT, former).open(alloc))
}

/// Why a disk doesn't reopen.
fn refusal(alloc: Global, bytes: &[u8]) -> Result<Option<ReopenRefusal>, Fail> {
    let disk = disk_of(alloc, bytes, List::new(alloc))?;
    Ok(reopen(alloc, disk, SLOT).err())
}

#[test]
fn disks_that_do_not_open(rt: HostRuntime) -> Result<(), Fail> {
    let alloc = rt.alloc();
    let long = SteadyKeeper::new(Text::of(alloc, &[b'x'; 57])?);
    assert!(rt; opening(alloc, long)? == Err(OpenRefusal::TooLarge));
    let failing = MemKeeper::new(Text::empty(), List::from_vec(vec![in alloc; 1]?));
    assert!(rt; opening(alloc, failing)? == Err(OpenRefusal::Failed));

    let cut = ReopenRefusal::BadSlot {
        slot: 1,
        len: u64::MAX,
    };
    assert!(rt; refusal(alloc, b"\x01\0\0\0\0\0\0\0\0\0\0\0\0\0\0\0")? == Some(cut));
    let short = ReopenRefusal::BadSlot { slot: 0, len: 2 };
    assert!(rt; refusal(alloc, b"\0\0\0\0\0\0\0\0\x02\0\0\0\0\0\0\0x")? == Some(short));
    let unfit = ReopenRefusal::BadLine {
        line: 1,
        cause: StoreCause::Head,
    };
    assert!(rt; refusal(alloc, b"\0\0\0\0\0\0\0\0\x01\0\0\0\0\0\0\0x")? == Some(unfit));
    assert!(rt; refusal(alloc, b"")?.is_none());
    Ok(())
}

#[test]
fn reopened_pairs(rt: HostRuntime) -> Result<(), Fail> {
    let alloc = rt.alloc();
    let mut bytes = vec![in alloc; 0; 8]?;
    bytes.extend_from_slice(b"\x17\0\0\0\0\0\0\0persist 1\npersist.a 31\n")?;
    let pairs = reopen(alloc, disk_of(alloc, &bytes, List::new(alloc))?, SLOT)?;
    assert_eq!(rt; pairs.len(), 1);
    assert!(rt; pairs.items()[0].name.is(b"persist.a"));
    assert!(rt; pairs.items()[0].value.is(b"1"));
    Ok(())
}

#[test]
fn store_over_a_file(rt: HostRuntime) -> Result<(), Fail> {
    let alloc = rt.alloc();
    let path = Text::of(alloc, b"store.img")?;
    let disk = StdDisk::at(&rt, alloc, &path)?;
    let mut store = DiskKeeper::new(disk, SLOT, SteadyKeeper::new(Text::empty()));
    assert!(rt; store.replace(alloc, b"persist 1\npersist.a 31\n").is_ok());
    let pairs = reopen(alloc, StdDisk::at(&rt, alloc, &path)?, SLOT)?;
    assert_eq!(rt; pairs.len(), 1);
    assert!(rt; pairs.items()[0].value.is(b"1"));
    Ok(())
}

#[test]
fn long_texts_over_a_file(rt: HostRuntime) -> Result<(), Fail> {
    let alloc = rt.alloc();
    let disk = StdDisk::at(&rt, alloc, &Text::of(alloc, b"long.img")?)?;
    let mut store = DiskKeeper::new(disk, 16384, SteadyKeeper::new(Text::empty()));
    // The system is given more than one write of it.
    let mut text = vec![in alloc; b'a'; 4095]?;
    text.extend_from_slice(&[b'b'; 905])?;
    assert!(rt; store.replace(alloc, &text).is_ok());
    assert!(rt; store.load(alloc, 16376).is_ok_and(|held| held.is(&text)));
    // The other slot gets a text that ends where the first write does.
    let text = vec![in alloc; b'c'; 4096]?;
    assert!(rt; store.replace(alloc, &text).is_ok());
    assert!(rt; store.load(alloc, 16376).is_ok_and(|held| held.is(&text)));
    Ok(())
}

#[test]
fn late_store_writes_nothing_before_a_text(rt: HostRuntime) -> Result<(), Fail> {
    let alloc = rt.alloc();
    let former = SteadyKeeper::new(Text::of(alloc, b"persist 2\n")?);
    let disk = disk_of(alloc, b"", List::new(alloc))?;
    let mut store = LateKeeper::new(DiskKeeper::new(disk, SLOT, former));
    assert!(rt;
        store
            .load(alloc, LIMIT)
            .is_ok_and(|held| held.is(b"persist 2\n"))
    );
    assert_eq!(rt; writes_in(store.store().disk().steps()), 0);
    assert!(rt; store.replace(alloc, NEW).is_ok());
    // The disk is formatted, and then come the slot and the gate.
    assert_eq!(rt; writes_in(store.store().disk().steps()), 3);
    assert!(rt; store.load(alloc, LIMIT).is_ok_and(|held| held.is(NEW)));
    Ok(())
}

#[test]
fn late_store_in_a_missing_folder(rt: HostRuntime) -> Result<(), Fail> {
    let alloc = rt.alloc();
    let _ = fs::remove_dir_all(&rt, "late");
    let root = Text::of(alloc, b".")?;
    let disk = StdDisk::below(&rt, alloc, &root, &Text::of(alloc, b"/late/store.img")?)?;
    let former = SteadyKeeper::new(Text::empty());
    let mut store = LateKeeper::new(DiskKeeper::new(disk, SLOT, former));
    assert!(rt; store.load(alloc, LIMIT).is_ok_and(|held| held.is(b"")));
    assert!(rt; fs::metadata(&rt, "late").is_err());
    assert!(rt; store.replace(alloc, NEW).is_ok());
    assert!(rt; fs::metadata(&rt, "late/store.img").is_ok());
    assert!(rt; store.load(alloc, LIMIT).is_ok_and(|held| held.is(NEW)));
    assert_eq!(rt; store.faults(), 0);
    Ok(())
}
