//! `Tree`: its places and its calls.

ghost use Rattle.std.specs.Prelude.{◌≡◌, OnOk, IfOk, IfErr};
ghost use Rattle.init_machine.specs.FileTree.{first_tree, has_node};
ghost use Rattle.init_machine.specs.declared.task.TreeCall.TheVariants as call;
ghost use Rattle.model_fs.specs.Calls.{IsDone, IsRefused, as_refusal};

use crate::changing::{
    change_mode, copy, link, make_directory, remove_directory, remove_file, write,
};
use crate::entries::Entries;
use crate::judging::{
    judge_change_mode, judge_copy, judge_link, judge_make_directory, judge_remove,
    judge_remove_directory, judge_write,
};
use crate::node::is_there;
use init_base::{NoMemory, Text};
use init_machine::FsRefusal;
use std::alloc::Global;
use std::marker::Model;

/// A tree of directories, files and links. No link is followed.
///
/// A call that is refused changes nothing. After `NoMemory` the tree isn't used again. It keeps the allocator that its
/// constructor was given.
#[derive(Drop)]
pub struct Tree {
    entries: Entries,
}

impl Model for Tree {
    ghost use Rattle.std.specs.Prelude.{List};
    ghost use Rattle.init_machine.specs.FileTree.{Place};

    ghost Value = { List Place };

    ghost use Rattle.model_fs.specs.internal.Rows.{tree_of};

    ghost view = { λ t. tree_of t.entries };
}

impl Tree {
    /// The root directory alone.
    pub fn new(alloc: Global) -> Result<Tree, NoMemory>
        ensures { IfOk result (λ t. t ≡ first_tree) }
    {
        let entries = Entries::new(alloc)?;
        Ok(Tree { entries })
    }

    /// Whether something stands at the path. Nothing stands at what is no path.
    pub fn has(&self, path: &[u8]) -> bool
        ensures { result ≡ has_node self.now path.now }
    {
        match self.entries.look(path) {
            Some(sight) => is_there(sight.node),
            None => false,
        }
    }

    /// Makes or replaces a file.
    pub fn write(&mut self, _: Global, path: &[u8], content: Text) -> Result<(), FsRefusal>
        ensures done { OnOk result (IsDone self.old (call.Write path.now content) self.new) }
        ensures refused { IfErr result (IsRefused self.old (call.Write path.now content) self.new) }
    {
        let walk = judge_write(&self.entries, path)?;
        or_refused(write(&mut self.entries, path, walk, content))
    }

    /// Makes or replaces a file, with the content of another one.
    pub fn copy(&mut self, _: Global, from: &[u8], to: &[u8]) -> Result<(), FsRefusal>
        ensures done { OnOk result (IsDone self.old (call.Copy from.now to.now) self.new) }
        ensures refused { IfErr result (IsRefused self.old (call.Copy from.now to.now) self.new) }
    {
        let walks = judge_copy(&self.entries, from, to)?;
        or_refused(copy(&mut self.entries, from, to, walks))
    }

    /// Makes a directory, or gives one another mode.
    pub fn mkdir(&mut self, _: Global, path: &[u8], mode: u16) -> Result<(), FsRefusal>
        ensures done { OnOk result (IsDone self.old (call.MakeDirectory path.now mode) self.new) }
        ensures refused { IfErr result (IsRefused self.old (call.MakeDirectory path.now mode) self.new) }
    {
        let walk = judge_make_directory(&self.entries, path)?;
        or_refused(make_directory(&mut self.entries, path, walk, mode))
    }

    /// Makes a link. Its target is kept as it is given.
    pub fn symlink(&mut self, _: Global, target: Text, path: &[u8]) -> Result<(), FsRefusal>
        ensures done { OnOk result (IsDone self.old (call.Link target path.now) self.new) }
        ensures refused { IfErr result (IsRefused self.old (call.Link target path.now) self.new) }
    {
        let walk = judge_link(&self.entries, path)?;
        or_refused(link(&mut self.entries, target, path, walk))
    }

    /// Takes a file or a link away.
    pub fn rm(&mut self, path: &[u8]) -> Result<(), FsRefusal>
        ensures done { OnOk result (IsDone self.old (call.Remove path.now) self.new) }
        ensures refused { IfErr result (IsRefused self.old (call.Remove path.now) self.new) }
    {
        let walk = judge_remove(&self.entries, path)?;
        remove_file(&mut self.entries, path, walk);
        Ok(())
    }

    /// Takes an empty directory away.
    pub fn rmdir(&mut self, path: &[u8]) -> Result<(), FsRefusal>
        ensures done { OnOk result (IsDone self.old (call.RemoveDirectory path.now) self.new) }
        ensures refused { IfErr result (IsRefused self.old (call.RemoveDirectory path.now) self.new) }
    {
        let walk = judge_remove_directory(&self.entries, path)?;
        remove_directory(&mut self.entries, path, walk);
        Ok(())
    }

    /// Gives what stands at the path another mode.
    pub fn chmod(&mut self, mode: u16, path: &[u8]) -> Result<(), FsRefusal>
        ensures done { OnOk result (IsDone self.old (call.ChangeMode mode path.now) self.new) }
        ensures refused { IfErr result (IsRefused self.old (call.ChangeMode mode path.now) self.new) }
    {
        let walk = judge_change_mode(&self.entries, path)?;
        change_mode(&mut self.entries, path, walk, mode);
        Ok(())
    }
}

/// Want of memory, as a refusal.
fn or_refused(done: Result<(), NoMemory>) -> Result<(), FsRefusal>
    ensures { result ≡ as_refusal done }
{
    match done {
        Ok(()) => Ok(()),
        Err(NoMemory) => Err(FsRefusal::NoMemory),
    }
}
