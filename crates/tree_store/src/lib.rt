//! The persistent store of a tree: an image below its root, which begins with the text that stands beside it.
//!
//! It is made late: nothing is opened before the first call on it, and nothing is written before a text is stored. That the real
//! files behave as their adapters say is not proved.
#![tactic(auto)]

ghost use Rattle.std.specs.Prelude.{◌≡◌, IfOk};
ghost use Rattle.tree_store.specs.Untouched.{untouched_store};

use init_base::{Fault, NoMemory, StdKeeper, Text};
use persist_disk::{DiskKeeper, LateKeeper, StdDisk};
use std::fs;

/// Where the image of the store is, below the root.
pub const IMAGE: &[u8] = b"/data/property/persist.img";

/// Where the text is that the store begins with, below the root.
pub const TEXT: &[u8] = b"/data/property/persist.txt";

/// The size of a slot of the image: 32 MiB of text, and its length.
const SLOT: u64 = 33_554_440;

/// A store in an image, which begins with a text, and is opened late.
pub type TreeStore<'a, R> = LateKeeper<StdDisk<'a, R>, StdKeeper<'a, R>>;

/// The store of the tree below a folder of the machine. It makes no call on the machine.
///
/// The error is that memory ran out.
pub fn store_below<'a, R: fs::Files + AllocGlobal>(
    rt: &'a R,
    root: &Text,
) -> Result<TreeStore<'a, R>, NoMemory>
    ensures { IfOk result (λ store. store ≡ untouched_store) }
{
    let alloc = rt.alloc();
    let disk = StdDisk::below(rt, alloc, root, &Text::of(alloc, IMAGE)?)?;
    let former = StdKeeper::below(rt, root, &Text::of(alloc, TEXT)?)?;
    Ok(LateKeeper::new(DiskKeeper::new(disk, SLOT, former)))
}

/// What the system said at the last call on a store that failed: of its image, or else of the text that it begins with.
pub fn last_fault<'a, R: fs::Files>(store: &'a TreeStore<'_, R>) -> Option<&'a Fault> {
    match store.store().disk().last_fault() {
        Some(fault) => Some(fault),
        None => store.store().former().last_fault(),
    }
}
