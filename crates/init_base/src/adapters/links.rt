//! Trees of links: what stands at each place below a root.

ghost use Rattle.std.specs.Prelude.{◌≡◌, ℕ, List, Option, IfOk, IfSome};
ghost use Rattle.init_base.specs.declared.adapters.links.Standing.{Standing as What};

use super::machine::MachineRefusal;
use crate::text::Text;
use std::alloc::Global;

/// What stands at a path, where a link at its end isn't followed.
#[derive(Drop)]
pub(crate) enum Standing {
    Nothing,
    Directory,
    PlainFile,
    /// A file that is no plain one, as a device.
    Other,
    /// A link, and its target.
    Link(Text),
}

/// A tree in which names are looked up, one at a time, and no link is followed.
pub(crate) trait LinkTree {
    // what stands at each path, where it is told
    ghost standing: { Self → Option (List ℕ → What) };

    /// What stands at a path, which has a slash before each of its names and leads through directories alone.
    fn look_up(&self, alloc: Global, path: &[u8]) -> Result<Standing, MachineRefusal>
        ensures { IfSome (standing self.now) (λ at. IfOk result (λ found. found ≡ at path.now)) };
}
