//! The pairs of a store on a disk.

ghost use Rattle.std.specs.Prelude.{◌≡◌, ◌≤◌, [], length, IfOk, IfSome};
ghost use Rattle.std.specs.Result.{IsErrOf};
ghost use Rattle.init_base.specs.Faults.{Rose};
ghost use Rattle.persist_disk.specs.Keeping.{unopened};
ghost use Rattle.persist_disk.specs.Reopening.{OpensToText, ReopensAs};

use crate::disk::Disk;
use crate::keeper::DiskKeeper;
use crate::layout::LENGTH;
use crate::refusal::ReopenRefusal;
use init_base::{Keeper, List, SteadyKeeper, Text};
use init_machine::Pair;
use persist_file::read;
use std::alloc::Global;

/// The pairs of the store that a disk holds with slots of `slot` bytes. One of fewer than 16 bytes is formatted with the
/// empty store.
///
/// `BadSlot` as at [`DiskKeeper::open`]. `BadLine` exactly where the text isn't a store's, at its first line that doesn't
/// fit, with its cause. `Failed` where a call on the disk failed.
pub fn reopen<D: Disk + Drop>(
    alloc: Global,
    disk: D,
    slot: u64,
) -> Result<List<Pair>, ReopenRefusal>
    requires low { 64 ≤ slot }
    requires high { slot ≤ 33554440 }
    ensures pairs { IfSome (D.content disk) (λ image. ReopensAs slot image result) }
    // The disk as the call left it: its count rose.
    ensures failed { IfSome (D.content disk) (λ _. IsErrOf result ReopenRefusal.Failed
        → (after : D) × Rose (D.fault_count disk) (D.fault_count after)) }
{
    let mut store = DiskKeeper::new(disk, slot, SteadyKeeper::new(Text::empty()));
    let text = opened(alloc, &mut store, slot)?;
    Ok(read(alloc, text.bytes())?)
}

/// The text of a store on which no call was made.
fn opened<D: Disk>(
    alloc: Global,
    store: &mut DiskKeeper<D, SteadyKeeper>,
    slot: u64,
) -> Result<Text, ReopenRefusal>
    requires low { 64 ≤ slot }
    requires high { slot ≤ 33554440 }
    requires fresh { store.old ≡ unopened store.old.disk slot [] }
    ensures text { IfSome (D.content store.old.disk) (λ image. OpensToText slot image result) }
    ensures bound { IfOk result (λ text. length text ≤ 33554432) }
    ensures failed { IfSome (D.content store.old.disk) (λ _. IsErrOf result ReopenRefusal.Failed
        → Rose (D.fault_count store.old.disk) (D.fault_count store.new.disk)) }
{
    store.open(alloc)?;
    Ok(store.load(alloc, (slot - LENGTH) as usize)?)
}
