//! A keeper of a text on a disk, which makes nothing until a text is stored.

ghost use Rattle.std.specs.Prelude.{◌≡◌, ◌≤◌, length, IfOk, IfSome};
ghost use Rattle.init_base.specs.Faults.{Counted, read_failed};
ghost use Rattle.init_base.specs.Keeping.{LoadsHeld};
ghost use Rattle.persist_disk.specs.DiskModel.{OnlyReads};
ghost use Rattle.persist_disk.specs.Keeping.{late_text, store_faults};
ghost use Rattle.persist_disk.specs.Keeping.{LooksAs, OnlyLooks, StillTells, StoreLeaves, StoreTells};

use crate::disk::Disk;
use crate::keeper::DiskKeeper;
use crate::refusal::OpenRefusal;
use init_base::{IoRefusal, Keeper, ReadRefusal, Text};
use std::alloc::Global;
use std::marker::Model;

/// A store on a disk that is formatted when a text is first stored. Until then its text is that of the keeper that the disk is
/// formatted from, and nothing is written.
#[derive(Drop)]
pub struct LateKeeper<D: Disk, P: Keeper> {
    store: DiskKeeper<D, P>,
}

impl<D: Disk, P: Keeper> Model for LateKeeper<D, P> {
    ghost use Rattle.persist_disk.specs.Keeping.{DiskStore};

    ghost Value = { DiskStore D P };

    ghost view = { λ k. k.store };
}

impl<D: Disk, P: Keeper> LateKeeper<D, P> {
    /// The store.
    pub fn new(store: DiskKeeper<D, P>) -> LateKeeper<D, P>
        ensures { result ≡ store }
    {
        LateKeeper { store }
    }

    /// The store on the disk.
    pub fn store(&self) -> &DiskKeeper<D, P>
        ensures { result.now ≡ self.now }
    {
        &self.store
    }

    /// Whether the disk holds a store, as [`DiskKeeper::look`] says.
    pub fn look(&mut self) -> Result<bool, OpenRefusal>
        ensures answer { IfSome (D.content self.old.disk) (λ image. LooksAs self.old.slot image result) }
        ensures reads { OnlyReads D.content D.TellsCrash D.moment D.MayLeave self.old.disk self.new.disk }
        ensures open { IfOk result (λ holds. self.new.is_open ≡ holds) }
        ensures rest { OnlyLooks D.fault_count P.fault_count result self.old self.new }
    {
        self.store.look()
    }
}

impl<D: Disk, P: Keeper> Keeper for LateKeeper<D, P> {
    ghost held = { late_text D.content P.held };

    ghost fault_count = { store_faults D.fault_count P.fault_count };

    ghost TellsCrash = { StoreTells D.TellsCrash D.content };

    ghost moment = { λ k. D.moment k.disk };

    ghost MayLeave = { StoreLeaves D.MayLeave };

    fn faults(&self) -> u64 {
        self.store.faults()
    }

    fn load(&mut self, alloc: Global, limit: usize) -> Result<Text, ReadRefusal>
        ensures text { LoadsHeld (late_text D.content P.held self.old) limit result }
        ensures bound { IfOk result (λ text. length text ≤ limit) }
        ensures held { late_text D.content P.held self.new ≡ late_text D.content P.held self.old }
        ensures cause { Counted (read_failed result)
            (store_faults D.fault_count P.fault_count self.old)
            (store_faults D.fault_count P.fault_count self.new) }
        ensures tells { StillTells D.content D.TellsCrash D.moment D.MayLeave result self.old self.new }
        ensures reads { OnlyReads D.content D.TellsCrash D.moment D.MayLeave self.old.disk self.new.disk }
    {
        self.store.peek(alloc, limit)
    }

    fn replace(&mut self, alloc: Global, content: &[u8]) -> Result<(), IoRefusal> {
        self.store.replace(alloc, content)
    }

    ghost earlier = { λ k m n text le left. (left.0, D.earlier k.disk m n left.0 le left.1, left.2) };
}
