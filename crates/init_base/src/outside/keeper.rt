//! Keepers of one text.

ghost use Rattle.std.specs.Prelude.{◌≡◌, ◌≤◌, ℕ, List, Option, IfOk, OnOk, length};
ghost use Rattle.init_base.specs.Crash.{LeavesAlone, LeavesNoOther, LeavesOneMore, ReachesBack};
ghost use Rattle.init_base.specs.Faults.{Counted, read_failed, write_failed};
ghost use Rattle.init_base.specs.Keeping.{HoldsNew, LoadsHeld};

use super::refusal::{IoRefusal, ReadRefusal};
use crate::text::Text;
use std::alloc::Global;

/// What holds one text of bytes.
///
/// A keeper may also tell what a crash leaves. Then it has a moment, which never falls, and for each moment the texts
/// that a crash at some moment since then may leave.
pub trait Keeper {
    // the text, where it is told
    ghost held: { Self → Option (List ℕ) };

    ghost fault_count: { Self → ℕ };

    // whether it tells what a crash leaves
    ghost TellsCrash: { Self → Type 0 };

    ghost moment: { Self → ℕ };

    // whether a crash at some moment since this one may leave this text
    ghost MayLeave: { Self → ℕ → List ℕ → Type 0 };

    /// How often a call failed. It never falls.
    fn faults(&self) -> u64
        ensures { result ≡ fault_count self.now };

    /// The text, which stays as it is. `TooLarge` exactly where it has more than `limit` bytes.
    fn load(&mut self, alloc: Global, limit: usize) -> Result<Text, ReadRefusal>
        ensures text { LoadsHeld (held self.old) limit result }
        ensures bound { IfOk result (λ text. length text ≤ limit) }
        ensures held { held self.new ≡ held self.old }
        ensures cause { Counted (read_failed result) (fault_count self.old) (fault_count self.new) }
        ensures moment { TellsCrash self.old → moment self.old ≤ moment self.new }
        ensures leaves { TellsCrash self.old → LeavesNoOther (moment self.old) (MayLeave self.old) (MayLeave self.new) }
        ensures tells { TellsCrash self.old → OnOk result (TellsCrash self.new) };

    /// Makes the text `content`, so that a crash from then on leaves it alone. After an error nothing is said of the
    /// text, and a crash leaves no other than it could leave before, or `content`.
    fn replace(&mut self, alloc: Global, content: &[u8]) -> Result<(), IoRefusal>
        ensures held { HoldsNew (held self.old) (held self.new) result content.now }
        ensures cause { Counted (write_failed result) (fault_count self.old) (fault_count self.new) }
        ensures moment { TellsCrash self.old → moment self.old ≤ moment self.new }
        ensures leaves { TellsCrash self.old → LeavesOneMore (moment self.old) (MayLeave self.old) (MayLeave self.new) content.now }
        ensures safe { TellsCrash self.old → OnOk result (LeavesAlone (MayLeave self.new (moment self.new)) content.now) }
        ensures tells { TellsCrash self.old → OnOk result (TellsCrash self.new) };

    /// What a crash may leave since a moment it may leave since each earlier one too.
    ghost earlier: { (k : Self) → ReachesBack (MayLeave k) };
}
