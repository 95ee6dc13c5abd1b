//! What calls do that aren't refused: the tree is that of `tree_after`.

ghost use Rattle.std.specs.Prelude.{◌≡◌, None, true, false, OnOk};
ghost use Rattle.init_machine.specs.FileTree.{parts_of, node_at, is_directory, is_under_other, with_file, tree_after, tree_refusal};
ghost use Rattle.init_machine.specs.declared.task.TreeCall.TheVariants as call;
ghost use Rattle.model_fs.specs.internal.Entries.{IsWalk};
ghost use Rattle.model_fs.specs.internal.Rows.{tree_of};

use crate::entries::{Entries, Walk};
use crate::node::{content_of, mode_for};
use init_base::{NoMemory, Text};
use init_machine::Node;

/// The mode of a link.
const LINK_MODE: u16 = 0o777;

#[tactic(auto, unfolding(init_machine::specs::FileTree::tree_after))]
pub fn write(entries: &mut Entries, path: &[u8], walk: Walk, content: Text) -> Result<(), NoMemory>
    requires walk { IsWalk entries.old (parts_of path.now) walk }
    requires passes { tree_refusal (tree_of entries.old) (call.Write path.now content) ≡ None }
    ensures { OnOk result (tree_of entries.new ≡ tree_after (tree_of entries.old) (call.Write path.now content)) }
{
    put_file(entries, path, walk, content)?;
    Ok(())
}

#[tactic(auto, unfolding(init_machine::specs::FileTree::tree_after))]
pub fn copy(
    entries: &mut Entries,
    from: &[u8],
    to: &[u8],
    walks: (Walk, Walk),
) -> Result<(), NoMemory>
    requires walk_from { IsWalk entries.old (parts_of from.now) walks.0 }
    requires walk_to { IsWalk entries.old (parts_of to.now) walks.1 }
    requires passes { tree_refusal (tree_of entries.old) (call.Copy from.now to.now) ≡ None }
    ensures { OnOk result (tree_of entries.new ≡ tree_after (tree_of entries.old) (call.Copy from.now to.now)) }
{
    entries.remember(from, walks.0);
    let content = content_of(entries.node_at(from, walks.0))?;
    put_file(entries, to, walks.1, content)?;
    Ok(())
}

#[tactic(auto, unfolding(init_machine::specs::FileTree::tree_after))]
pub fn make_directory(
    entries: &mut Entries,
    path: &[u8],
    walk: Walk,
    mode: u16,
) -> Result<(), NoMemory>
    requires walk { IsWalk entries.old (parts_of path.now) walk }
    requires passes { tree_refusal (tree_of entries.old) (call.MakeDirectory path.now mode) ≡ None }
    ensures { OnOk result (tree_of entries.new ≡ tree_after (tree_of entries.old) (call.MakeDirectory path.now mode)) }
{
    entries.put(path, walk, Node::Directory { mode })?;
    Ok(())
}

#[tactic(auto, unfolding(init_machine::specs::FileTree::tree_after))]
pub fn link(entries: &mut Entries, target: Text, path: &[u8], walk: Walk) -> Result<(), NoMemory>
    requires walk { IsWalk entries.old (parts_of path.now) walk }
    requires passes { tree_refusal (tree_of entries.old) (call.Link target path.now) ≡ None }
    ensures { OnOk result (tree_of entries.new ≡ tree_after (tree_of entries.old) (call.Link target path.now)) }
{
    let mode = LINK_MODE;
    entries.put(path, walk, Node::Link { mode, target })?;
    Ok(())
}

#[tactic(auto, unfolding(init_machine::specs::FileTree::tree_after))]
pub fn remove_file(entries: &mut Entries, path: &[u8], walk: Walk)
    requires walk { IsWalk entries.old (parts_of path.now) walk }
    requires passes { tree_refusal (tree_of entries.old) (call.Remove path.now) ≡ None }
    ensures { tree_of entries.new ≡ tree_after (tree_of entries.old) (call.Remove path.now) }
{
    entries.remember(path, walk);
    entries.remove(path, walk);
}

#[tactic(auto, unfolding(init_machine::specs::FileTree::tree_after))]
pub fn remove_directory(entries: &mut Entries, path: &[u8], walk: Walk)
    requires walk { IsWalk entries.old (parts_of path.now) walk }
    requires passes { tree_refusal (tree_of entries.old) (call.RemoveDirectory path.now) ≡ None }
    ensures { tree_of entries.new ≡ tree_after (tree_of entries.old) (call.RemoveDirectory path.now) }
{
    entries.remember(path, walk);
    entries.remove(path, walk);
}

#[tactic(auto, unfolding(init_machine::specs::FileTree::tree_after))]
pub fn change_mode(entries: &mut Entries, path: &[u8], walk: Walk, mode: u16)
    requires { IsWalk entries.old (parts_of path.now) walk }
    ensures { tree_of entries.new ≡ tree_after (tree_of entries.old) (call.ChangeMode mode path.now) }
{
    entries.remember(path, walk);
    entries.set_mode(path, walk, mode);
}

/// Puts a file at the path, where no directory is, and makes its missing parents.
fn put_file(entries: &mut Entries, path: &[u8], walk: Walk, content: Text) -> Result<(), NoMemory>
    requires walk { IsWalk entries.old (parts_of path.now) walk }
    requires under { is_under_other (tree_of entries.old) (parts_of path.now) ≡ false }
    requires directory { is_directory (node_at (tree_of entries.old) (parts_of path.now)) ≡ false }
    ensures { OnOk result (tree_of entries.new ≡ with_file (tree_of entries.old) (parts_of path.now) content) }
{
    let mode = mode_for(entries.node_at(path, walk));
    entries.put(path, walk, Node::File { mode, content })
}
