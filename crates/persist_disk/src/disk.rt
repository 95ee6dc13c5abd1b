//! Disks.

ghost use Rattle.std.specs.Prelude.{◌≡◌, ◌≤◌, ◌↔◌, ◌++◌, ℕ, List, Option, IfOk, OnOk, length};
ghost use Rattle.std.specs.Io.{ReadsAtMost};
ghost use Rattle.init_base.specs.Crash.{LeavesNoOther, ReachesBack};
ghost use Rattle.init_base.specs.Faults.{Counted, source_failed, write_failed};
ghost use Rattle.persist_disk.specs.DiskModel.{LeavesRead, LeavesTorn, MayLeaveRead, ReadsFrom, WritesAt};

use init_base::{Failed, IoRefusal, NoMemory};
use std::alloc::Global;

/// Bytes at places from 0.
///
/// A disk may tell what a read gives. It may also tell what a crash leaves. Then it has a moment, which never falls, and for
/// each moment the bytes that a crash at some moment since then may leave.
pub trait Disk {
    // what a read gives, where it is told
    ghost content: { Self → Option (List ℕ) };

    ghost fault_count: { Self → ℕ };

    // whether it tells what a crash leaves, which no call changes
    ghost TellsCrash: { Self → Type 0 };

    ghost moment: { Self → ℕ };

    // whether a crash at some moment since this one may leave these bytes
    ghost MayLeave: { Self → ℕ → List ℕ → Type 0 };

    /// How often a call failed. It never falls.
    fn faults(&self) -> u64
        ensures { result ≡ fault_count self.now };

    /// Fills `buf` with what is there from `at` on, and answers how much that is: less than `buf` holds only at the end.
    fn read_at(&mut self, at: u64, buf: &mut [u8]) -> Result<usize, Failed>
        ensures bound { ReadsAtMost result buf.new }
        ensures bytes { ReadsFrom (content self.old) at result buf.new }
        ensures content { content self.new ≡ content self.old }
        ensures cause { Counted (source_failed result) (fault_count self.old) (fault_count self.new) }
        ensures moment { TellsCrash self.old → moment self.old ≤ moment self.new }
        ensures leaves { TellsCrash self.old → LeavesNoOther (moment self.old) (MayLeave self.old) (MayLeave self.new) }
        ensures tells { TellsCrash self.old ↔ TellsCrash self.new };

    /// Writes over what is there, and past the end. Until a sync a crash may leave any bytes in the range, and past the end
    /// as it was. After an error nothing is said of what is there.
    fn write_at(&mut self, at: u64, bytes: &[u8]) -> Result<(), IoRefusal>
        ensures bytes { WritesAt (content self.old) (content self.new) result at bytes.now }
        ensures cause { Counted (write_failed result) (fault_count self.old) (fault_count self.new) }
        ensures moment { TellsCrash self.old → moment self.old ≤ moment self.new }
        ensures leaves { TellsCrash self.old
            → LeavesTorn (moment self.old) (MayLeave self.old) (MayLeave self.new) at (length bytes.now) }
        ensures tells { TellsCrash self.old ↔ TellsCrash self.new };

    /// Writes two parts, one behind the other, as one write of both. A disk that can write them where they stand needs no memory
    /// for a copy.
    fn write_parts(
        &mut self,
        alloc: Global,
        at: u64,
        front: &[u8],
        behind: &[u8],
    ) -> Result<(), IoRefusal>
        ensures bytes { WritesAt (content self.old) (content self.new) result at (front.now ++ behind.now) }
        ensures cause { Counted (write_failed result) (fault_count self.old) (fault_count self.new) }
        ensures moment { TellsCrash self.old → moment self.old ≤ moment self.new }
        ensures leaves { TellsCrash self.old
            → LeavesTorn (moment self.old) (MayLeave self.old) (MayLeave self.new) at (length (front.now ++ behind.now)) }
        ensures tells { TellsCrash self.old ↔ TellsCrash self.new }
    {
        let bytes = joined(alloc, front, behind)?;
        self.write_at(at, &bytes)
    }

    /// Waits until what was written is safe: a crash from then on leaves what a read gives.
    fn sync(&mut self) -> Result<(), IoRefusal>
        ensures content { content self.new ≡ content self.old }
        ensures cause { Counted (write_failed result) (fault_count self.old) (fault_count self.new) }
        ensures moment { TellsCrash self.old → moment self.old ≤ moment self.new }
        ensures leaves { TellsCrash self.old → LeavesNoOther (moment self.old) (MayLeave self.old) (MayLeave self.new) }
        ensures safe { TellsCrash self.old → OnOk result (LeavesRead (content self.new) (MayLeave self.new (moment self.new))) }
        ensures tells { TellsCrash self.old ↔ TellsCrash self.new };

    /// What a crash may leave since a moment it may leave since each earlier one too.
    ghost earlier: { (d : Self) → ReachesBack (MayLeave d) };

    /// A disk that tells what a crash leaves tells what a read gives, which a crash now may leave.
    ghost given: { (d : Self) → TellsCrash d → MayLeaveRead (content d) (MayLeave d (moment d)) };
}

/// Bytes, one part behind the other.
pub(crate) fn joined(alloc: Global, front: &[u8], behind: &[u8]) -> Result<Vec<u8>, NoMemory>
    ensures { IfOk result (λ bytes. bytes.items ≡ front.now ++ behind.now) }
{
    let mut bytes = Vec::with_capacity(alloc, front.len() + behind.len())?;
    bytes.extend_from_slice(front)?;
    bytes.extend_from_slice(behind)?;
    Ok(bytes)
}
