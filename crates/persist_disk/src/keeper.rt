//! A keeper of a text on a disk.

ghost use Rattle.std.specs.Prelude.{◌≡◌, ◌+◌, ◌<◌, ◌≤◌, ◌↔◌, true, false, length};
ghost use Rattle.std.specs.Prelude.{is_ok, Err, IfOk, IfSome, OnOk, Some};
ghost use Rattle.init_base.specs.Crash.{LeavesAlone, LeavesNoOther, LeavesOneMore};
ghost use Rattle.init_base.specs.Faults.{Counted, read_failed, write_failed};
ghost use Rattle.init_base.specs.Keeping.{HoldsNew, LoadsHeld};
ghost use Rattle.init_base.specs.Memory.{one_more};
ghost use Rattle.persist_disk.specs.DiskModel.{LeavesRead, OnlyReads};
ghost use Rattle.persist_disk.specs.Image.{text_of, IsStore};
ghost use Rattle.persist_disk.specs.Replacing.{LeavesEither, Puts};
ghost use Rattle.persist_disk.specs.Keeping.{open_after, open_failed, opened_text, own_after_open, unopened};
ghost use Rattle.persist_disk.specs.Keeping.{outside_faults, store_faults, stored_text, StoreLeaves, StoreTells};
ghost use Rattle.persist_disk.specs.Keeping.{CanPut, FindsAs, FormatsAs, IsFormatted, IsOpenAfter, IsOpenAfterFind, IsOpenAfterLoad};
ghost use Rattle.persist_disk.specs.Keeping.{LooksAs, OpensAs, StandsOn, TellsText};
ghost use Rattle.persist_disk.specs.Keeping.{OnlyLooks, OnlyOpens, StillTells};

use crate::disk::Disk;
use crate::layout::{Chosen, LENGTH, Slot};
use crate::refusal::OpenRefusal;
use crate::slots::{Found, find_synced, format_from, put, read_text};
use init_base::{IoRefusal, Keeper, ReadRefusal, Text};
use std::alloc::Global;
use std::marker::Model;

/// A text on a disk, which a crash at any moment leaves whole: the one before the running `replace`, or the one that it
/// was putting.
#[derive(Drop)]
pub struct DiskKeeper<D: Disk, P: Keeper> {
    disk: D,
    former: P,
    /// The size of a slot.
    slot: u64,
    /// What is chosen, while an open stands.
    chosen: Option<Chosen>,
    /// Whether a `load` formatted the disk. A `load` that began untold ends untold.
    is_silent: bool,
    own_faults: u64,
}

impl<D: Disk, P: Keeper> Model for DiskKeeper<D, P> {
    ghost use Rattle.std.specs.Prelude.{is_some};
    ghost use Rattle.persist_disk.specs.Keeping.{DiskStore, IsKept};

    ghost Value = { DiskStore D P };

    ghost view = { λ k. record {
      disk = k.disk;
      former = k.former;
      slot = k.slot;
      is_open = is_some k.chosen;
      is_silent = k.is_silent;
      own_faults = k.own_faults;
    } };

    ghost invariant = { λ k. IsKept D.content D.TellsCrash D.moment D.MayLeave k.disk k.slot k.chosen };
}

impl<D: Disk, P: Keeper> DiskKeeper<D, P> {
    /// The text on a disk with slots of `slot` bytes. A disk of fewer than 16 bytes is formatted with the text of `old`.
    /// It makes no call on either.
    pub fn new(disk: D, slot: u64, old: P) -> DiskKeeper<D, P>
        requires low { 64 ≤ slot }
        requires high { slot ≤ 33554440 }
        ensures { result ≡ unopened disk slot old }
    {
        DiskKeeper {
            disk,
            former: old,
            slot,
            chosen: None,
            is_silent: false,
            own_faults: 0,
        }
    }

    /// The disk.
    pub fn disk(&self) -> &D
        ensures { result.now ≡ self.now.disk }
    {
        &self.disk
    }

    /// The keeper that the disk is formatted from.
    pub fn former(&self) -> &P
        ensures { result.now ≡ self.now.former }
    {
        &self.former
    }

    /// Whether an open stands.
    pub fn is_open(&self) -> bool
        ensures { result ≡ self.now.is_open }
    {
        self.chosen.is_some()
    }

    /// Opens the store: what was written is safe from then on, and the gate's slot is chosen. A disk of fewer than 16 bytes
    /// is formatted with the text of the keeper that `new` was given; of a crash in that nothing is promised.
    ///
    /// `TooLarge` exactly where the disk has fewer than 16 bytes and that text more than a slot holds. `BadSlot` exactly
    /// where the chosen slot's length is more than a slot holds, or passes the end of the disk; a byte of the length that
    /// lies past the end counts as FF. `Failed` ends an open that stood.
    ///
    /// The contract has a clause for each promise: on the answer, the text, whether an open stands, crashes and counts.
    pub fn open(&mut self, alloc: Global) -> Result<(), OpenRefusal>
        ensures answer { IfSome (D.content self.old.disk) (λ image. OpensAs self.old.slot image (P.held self.old.former) result) }
        ensures text { IfSome (D.content self.old.disk) (λ image.
            IfSome (opened_text self.old.slot image (P.held self.old.former)) (λ text.
            OnOk result (stored_text D.content self.new ≡ Some text))) }
        ensures told { OnOk result (TellsText self.new.is_silent self.new.slot (D.content self.new.disk)) }
        ensures store { OnOk result (IfSome (D.content self.new.disk) (IsStore self.new.slot)) }
        ensures open { IsOpenAfter result self.old.is_open self.new.is_open }
        ensures moment { StoreTells D.TellsCrash D.content self.old → D.moment self.old.disk ≤ D.moment self.new.disk }
        ensures leaves { StoreTells D.TellsCrash D.content self.old
            → LeavesNoOther (D.moment self.old.disk) (StoreLeaves D.MayLeave self.old) (StoreLeaves D.MayLeave self.new) }
        ensures safe { D.TellsCrash self.old.disk → OnOk result (IfSome (D.content self.new.disk) (λ image.
            LeavesAlone (StoreLeaves D.MayLeave self.new (D.moment self.new.disk)) (text_of self.new.slot image))) }
        ensures tells { D.TellsCrash self.old.disk → OnOk result (StoreTells D.TellsCrash D.content self.new) }
        ensures cause { Counted (open_failed result)
            (outside_faults D.fault_count P.fault_count self.old)
            (outside_faults D.fault_count P.fault_count self.new) }
        ensures own { self.new.own_faults ≡ own_after_open result self.old.own_faults }
        ensures slot { self.new.slot ≡ self.old.slot }
    {
        self.open_now(alloc)?;
        self.is_silent = false;
        Ok(())
    }

    /// Whether the disk holds a store, which is opened then. A disk of fewer than 16 bytes stays as it is.
    ///
    /// `BadSlot` as at [`DiskKeeper::open`]. It is never `TooLarge`.
    pub fn look(&mut self) -> Result<bool, OpenRefusal>
        ensures answer { IfSome (D.content self.old.disk) (λ image. LooksAs self.old.slot image result) }
        ensures reads { OnlyReads D.content D.TellsCrash D.moment D.MayLeave self.old.disk self.new.disk }
        ensures open { IfOk result (λ holds. self.new.is_open ≡ holds) }
        ensures rest { OnlyLooks D.fault_count P.fault_count result self.old self.new }
    {
        match self.find_now() {
            Ok(Some(_)) => Ok(true),
            Ok(None) => Ok(false),
            Err(refusal) => Err(refusal),
        }
    }

    /// The text, as `load` gives it. But a disk of fewer than 16 bytes stays as it is: what is answered is then the text of the
    /// keeper that `new` was given, and no open stands.
    pub fn peek(&mut self, alloc: Global, limit: usize) -> Result<Text, ReadRefusal>
        ensures text { LoadsHeld (stored_text D.content self.old) limit result }
        ensures former { IfSome (D.content self.old.disk) (λ image. length image < 16
            → LoadsHeld (P.held self.old.former) limit result) }
        ensures bound { IfOk result (λ text. length text ≤ limit) }
        ensures reads { OnlyReads D.content D.TellsCrash D.moment D.MayLeave self.old.disk self.new.disk }
        ensures cause { Counted (read_failed result)
            (store_faults D.fault_count P.fault_count self.old)
            (store_faults D.fault_count P.fault_count self.new) }
        ensures held { P.held self.new.former ≡ P.held self.old.former }
        ensures silent { self.new.is_silent ≡ self.old.is_silent }
        ensures slot { self.new.slot ≡ self.old.slot }
    {
        match self.find_standing() {
            Ok(Some(chosen)) => self.read_chosen(alloc, chosen, limit),
            Ok(None) => self.former.load(alloc, limit),
            Err(OpenRefusal::TooLarge) => Err(ReadRefusal::TooLarge),
            Err(OpenRefusal::NoMemory) => Err(ReadRefusal::NoMemory),
            Err(_) => Err(ReadRefusal::Failed),
        }
    }

    /// Finds the chosen slot, or formats the disk.
    #[tactic(auto, using(crate::proofs::Finds::opens_refused))]
    fn open_now(&mut self, alloc: Global) -> Result<Chosen, OpenRefusal>
        ensures answer { IfSome (D.content self.old.disk) (λ image. OpensAs self.old.slot image (P.held self.old.former) result) }
        ensures stands { IfOk result (StandsOn D.content D.TellsCrash D.moment D.MayLeave self.new.disk self.new.slot) }
        ensures kept { IsFormatted (D.content self.old.disk)
            → OnlyReads D.content D.TellsCrash D.moment D.MayLeave self.old.disk self.new.disk }
        ensures open { IsOpenAfter result self.old.is_open self.new.is_open }
        ensures formats { IfSome (D.content self.old.disk) (λ image. length image < 16
            → FormatsAs self.old.slot (D.content self.old.disk) (D.content self.new.disk) (P.held self.old.former) result) }
        ensures rest { OnlyOpens D.content D.TellsCrash D.fault_count P.fault_count result self.old self.new }
    {
        match self.find_now() {
            Ok(Some(chosen)) => Ok(chosen),
            Ok(None) => self.format_now(alloc),
            Err(refusal) => Err(refusal),
        }
    }

    /// The chosen slot of the store that the disk holds, once what was written is safe. None where the disk has fewer than 16
    /// bytes; it stays as it is, and no open stands.
    fn find_now(&mut self) -> Result<Option<Chosen>, OpenRefusal>
        ensures answer { IfSome (D.content self.old.disk) (λ image. FindsAs self.old.slot image result) }
        ensures stands { IfOk result (λ found.
            IfSome found (StandsOn D.content D.TellsCrash D.moment D.MayLeave self.new.disk self.new.slot)) }
        ensures reads { OnlyReads D.content D.TellsCrash D.moment D.MayLeave self.old.disk self.new.disk }
        ensures open { IsOpenAfterFind result self.old.is_open self.new.is_open }
        ensures rest { OnlyLooks D.fault_count P.fault_count result self.old self.new }
    {
        match find_synced(&mut self.disk, self.slot) {
            Ok(Found::Store(chosen)) => {
                self.chosen = Some(chosen);
                Ok(Some(chosen))
            }
            Ok(Found::Bad { slot, len }) => {
                self.own_faults = self.own_faults.saturating_add(1);
                Err(OpenRefusal::BadSlot { slot, len })
            }
            Ok(Found::Nothing) => {
                self.chosen = None;
                Ok(None)
            }
            Err(IoRefusal::Failed) => {
                self.chosen = None;
                Err(OpenRefusal::Failed)
            }
            Err(IoRefusal::NoMemory) => Err(OpenRefusal::NoMemory),
        }
    }

    /// Formats the disk with the text of the former keeper.
    fn format_now(&mut self, alloc: Global) -> Result<Chosen, OpenRefusal>
        requires few { IfSome (D.content self.old.disk) (λ image. length image < 16) }
        ensures answer { FormatsAs self.old.slot (D.content self.old.disk) (D.content self.new.disk) (P.held self.old.former) result }
        ensures stands { IfOk result (StandsOn D.content D.TellsCrash D.moment D.MayLeave self.new.disk self.new.slot) }
        ensures open { self.new.is_open ≡ is_ok result }
        ensures silent { self.new.is_silent ≡ true }
        ensures cause { Counted (open_failed result)
            (outside_faults D.fault_count P.fault_count self.old)
            (outside_faults D.fault_count P.fault_count self.new) }
        ensures tells { D.TellsCrash self.old.disk ↔ D.TellsCrash self.new.disk }
        ensures own { self.new.own_faults ≡ self.old.own_faults }
        ensures slot { self.new.slot ≡ self.old.slot }
    {
        self.chosen = None;
        self.is_silent = true;
        let chosen = format_from(&mut self.disk, &mut self.former, alloc, self.slot)?;
        self.chosen = Some(chosen);
        Ok(chosen)
    }

    /// The chosen slot. Where no open stands, it opens.
    fn stand(&mut self, alloc: Global) -> Result<Chosen, OpenRefusal>
        ensures answer { IfSome (D.content self.old.disk) (λ image. OpensAs self.old.slot image (P.held self.old.former) result) }
        ensures stands { IfOk result (StandsOn D.content D.TellsCrash D.moment D.MayLeave self.new.disk self.new.slot) }
        ensures kept { IsFormatted (D.content self.old.disk)
            → OnlyReads D.content D.TellsCrash D.moment D.MayLeave self.old.disk self.new.disk }
        ensures open { self.new.is_open ≡ is_ok result }
        ensures stood { self.old.is_open ≡ true → is_ok result ≡ true }
        ensures formats { IfSome (D.content self.old.disk) (λ image. length image < 16
            → FormatsAs self.old.slot (D.content self.old.disk) (D.content self.new.disk) (P.held self.old.former) result) }
        ensures rest { OnlyOpens D.content D.TellsCrash D.fault_count P.fault_count result self.old self.new }
    {
        match self.chosen {
            Some(chosen) => Ok(chosen),
            None => self.open_now(alloc),
        }
    }

    /// The chosen slot of the store that the disk holds. Where no open stands, it is found as by `find_now`.
    fn find_standing(&mut self) -> Result<Option<Chosen>, OpenRefusal>
        ensures answer { IfSome (D.content self.old.disk) (λ image. FindsAs self.old.slot image result) }
        ensures stands { IfOk result (λ found.
            IfSome found (StandsOn D.content D.TellsCrash D.moment D.MayLeave self.new.disk self.new.slot)) }
        ensures reads { OnlyReads D.content D.TellsCrash D.moment D.MayLeave self.old.disk self.new.disk }
        ensures rest { OnlyLooks D.fault_count P.fault_count result self.old self.new }
    {
        match self.chosen {
            Some(chosen) => Ok(Some(chosen)),
            None => self.find_now(),
        }
    }

    /// The text in the slot that is chosen. `TooLarge` exactly where it has more than `limit` bytes. A disk that gives fewer
    /// bytes than it had as it was opened is a fault of the store.
    fn read_chosen(
        &mut self,
        alloc: Global,
        chosen: Chosen,
        limit: usize,
    ) -> Result<Text, ReadRefusal>
        requires { StandsOn D.content D.TellsCrash D.moment D.MayLeave self.old.disk self.old.slot chosen }
        ensures text { IfSome (D.content self.old.disk) (λ image. LoadsHeld (Some (text_of self.old.slot image)) limit result) }
        ensures bound { IfOk result (λ text. length text ≤ limit) }
        ensures reads { OnlyReads D.content D.TellsCrash D.moment D.MayLeave self.old.disk self.new.disk }
        ensures cause { Counted (read_failed result)
            (store_faults D.fault_count P.fault_count self.old)
            (store_faults D.fault_count P.fault_count self.new) }
        ensures open { self.new.is_open ≡ open_after (read_failed result) self.old.is_open }
        ensures silent { self.new.is_silent ≡ self.old.is_silent }
        ensures former { self.new.former ≡ self.old.former }
        ensures own { IfSome (D.content self.old.disk) (λ _. self.new.own_faults ≡ self.old.own_faults) }
        ensures slot { self.new.slot ≡ self.old.slot }
    {
        if chosen.len > limit as u64 {
            return Err(ReadRefusal::TooLarge);
        }
        let at = chosen.slot.place(self.slot) + LENGTH;
        match read_text(&mut self.disk, alloc, at, chosen.len) {
            Ok(Some(text)) => return Ok(text),
            Ok(None) => self.own_faults = self.own_faults.saturating_add(1),
            Err(ReadRefusal::Failed) => {}
            Err(refusal) => return Err(refusal),
        }
        self.chosen = None;
        Err(ReadRefusal::Failed)
    }

    /// Puts a text into the slot that isn't chosen, and has the gate choose it.
    fn put_text(&mut self, alloc: Global, chosen: Chosen, text: &[u8]) -> Result<(), IoRefusal>
        requires stands { StandsOn D.content D.TellsCrash D.moment D.MayLeave self.old.disk self.old.slot chosen }
        requires fits { length text.now + 8 ≤ self.old.slot }
        ensures bytes { Puts self.old.slot chosen.slot (D.content self.old.disk) (D.content self.new.disk) result text.now }
        ensures moment { D.TellsCrash self.old.disk → D.moment self.old.disk ≤ D.moment self.new.disk }
        ensures leaves { D.TellsCrash self.old.disk → IfSome (D.content self.old.disk) (λ image.
            LeavesEither self.old.slot (D.moment self.old.disk) (D.MayLeave self.old.disk) (D.MayLeave self.new.disk) image text.now) }
        ensures safe { D.TellsCrash self.old.disk
            → OnOk result (LeavesRead (D.content self.new.disk) (D.MayLeave self.new.disk (D.moment self.new.disk))) }
        ensures tells { D.TellsCrash self.old.disk ↔ D.TellsCrash self.new.disk }
        ensures cause { Counted (write_failed result)
            (store_faults D.fault_count P.fault_count self.old)
            (store_faults D.fault_count P.fault_count self.new) }
        ensures open { self.new.is_open ≡ is_ok result }
        ensures silent { OnOk result (self.new.is_silent ≡ false) }
        ensures own { self.new.own_faults ≡ self.old.own_faults }
        ensures slot { self.new.slot ≡ self.old.slot }
    {
        self.chosen = None;
        put(&mut self.disk, alloc, self.slot, chosen.slot, text)?;
        self.chosen = Some(Chosen {
            slot: chosen.slot.other(),
            len: text.len() as u64,
        });
        self.is_silent = false;
        Ok(())
    }

    /// Counts a fault of the store itself, which ends an open that stands.
    fn fail(&mut self) -> IoRefusal
        ensures answer { result ≡ IoRefusal.Failed }
        ensures after { self.new ≡ record self.old { is_open = false; own_faults = one_more self.old.own_faults } }
    {
        self.chosen = None;
        self.own_faults = self.own_faults.saturating_add(1);
        IoRefusal::Failed
    }
}

impl<D: Disk, P: Keeper> Keeper for DiskKeeper<D, P> {
    ghost held = { stored_text D.content };

    ghost fault_count = { store_faults D.fault_count P.fault_count };

    ghost TellsCrash = { StoreTells D.TellsCrash D.content };

    ghost moment = { λ k. D.moment k.disk };

    ghost MayLeave = { StoreLeaves D.MayLeave };

    fn faults(&self) -> u64 {
        let outside = self.disk.faults().saturating_add(self.former.faults());
        outside.saturating_add(self.own_faults)
    }

    fn load(&mut self, alloc: Global, limit: usize) -> Result<Text, ReadRefusal>
        ensures text { LoadsHeld (stored_text D.content self.old) limit result }
        ensures bound { IfOk result (λ text. length text ≤ limit) }
        ensures held { stored_text D.content self.new ≡ stored_text D.content self.old }
        ensures cause { Counted (read_failed result)
            (store_faults D.fault_count P.fault_count self.old)
            (store_faults D.fault_count P.fault_count self.new) }
        ensures tells { StillTells D.content D.TellsCrash D.moment D.MayLeave result self.old self.new }
        ensures open { IsOpenAfterLoad result self.old.is_open self.new.is_open }
        ensures own { IfSome (D.content self.old.disk) (λ image. IsStore self.old.slot image
            → self.new.own_faults ≡ self.old.own_faults) }
        ensures slot { self.new.slot ≡ self.old.slot }
    {
        let chosen = match self.stand(alloc) {
            Ok(chosen) => chosen,
            Err(OpenRefusal::TooLarge) => return Err(ReadRefusal::TooLarge),
            Err(OpenRefusal::NoMemory) => return Err(ReadRefusal::NoMemory),
            Err(_) => return Err(ReadRefusal::Failed),
        };
        self.read_chosen(alloc, chosen, limit)
    }

    fn replace(&mut self, alloc: Global, content: &[u8]) -> Result<(), IoRefusal>
        ensures held { HoldsNew (stored_text D.content self.old) (stored_text D.content self.new) result content.now }
        ensures first { IfSome (D.content self.old.disk) (λ image. length image < 16
            → HoldsNew (P.held self.old.former) (stored_text D.content self.new) result content.now) }
        ensures cause { Counted (write_failed result)
            (store_faults D.fault_count P.fault_count self.old)
            (store_faults D.fault_count P.fault_count self.new) }
        ensures moment { StoreTells D.TellsCrash D.content self.old → D.moment self.old.disk ≤ D.moment self.new.disk }
        ensures leaves { StoreTells D.TellsCrash D.content self.old
            → LeavesOneMore (D.moment self.old.disk) (StoreLeaves D.MayLeave self.old) (StoreLeaves D.MayLeave self.new) content.now }
        ensures safe { StoreTells D.TellsCrash D.content self.old
            → OnOk result (LeavesAlone (StoreLeaves D.MayLeave self.new (D.moment self.new.disk)) content.now) }
        ensures tells { StoreTells D.TellsCrash D.content self.old → OnOk result (StoreTells D.TellsCrash D.content self.new) }
        ensures open { self.new.is_open ≡ is_ok result }
        ensures own { IfSome (D.content self.old.disk) (λ image.
            CanPut self.old.slot image (P.held self.old.former) content.now → self.new.own_faults ≡ self.old.own_faults) }
        ensures slot { self.new.slot ≡ self.old.slot }
    {
        let chosen = match self.stand(alloc) {
            Ok(chosen) => chosen,
            Err(OpenRefusal::TooLarge) => return Err(self.fail()),
            Err(OpenRefusal::NoMemory) => return Err(IoRefusal::NoMemory),
            Err(_) => return Err(IoRefusal::Failed),
        };
        if content.len() as u64 > self.slot - LENGTH {
            return Err(self.fail());
        }
        self.put_text(alloc, chosen, content)
    }

    ghost earlier = { λ k m n text le left. (left.0, D.earlier k.disk m n left.0 le left.1, left.2) };
}
