//! Files of one tree.

ghost use Rattle.std.specs.Prelude.{◌≡◌, ℕ, List, Option};
ghost use Rattle.init_base.specs.Faults.{Counted, read_failed};
ghost use Rattle.init_base.specs.Outside.{ListsFew, ListsNames, ReadsFile, ReadsWithin};

use super::refusal::Found;
use crate::list::List;
use crate::text::Text;
use std::alloc::Global;

/// A map from absolute paths to bytes, which no call changes.
pub trait Files {
    // the tree, where it is told
    ghost tree: { Self → Option (List (List ℕ × List ℕ)) };

    ghost fault_count: { Self → ℕ };

    /// How often a call failed. It never falls.
    fn faults(&self) -> u64
        ensures { result ≡ fault_count self.now };

    /// The names of the plain files directly in `dir`, in any order. None exactly where `dir` isn't a directory,
    /// `TooLarge` exactly past 1,024 names.
    fn list(&mut self, alloc: Global, dir: &[u8]) -> Found<List<Text>>
        ensures names { ListsNames (tree self.old) dir.now result }
        ensures bound { ListsFew result }
        ensures tree { tree self.new ≡ tree self.old }
        ensures cause { Counted (read_failed result) (fault_count self.old) (fault_count self.new) };

    /// The bytes of the plain file with this path. None exactly where there is none, `TooLarge` exactly where it has
    /// more than `limit` bytes.
    fn read(&mut self, alloc: Global, path: &[u8], limit: usize) -> Found<Text>
        ensures bytes { ReadsFile (tree self.old) path.now limit result }
        ensures bound { ReadsWithin limit result }
        ensures tree { tree self.new ≡ tree self.old }
        ensures cause { Counted (read_failed result) (fault_count self.old) (fault_count self.new) };
}
