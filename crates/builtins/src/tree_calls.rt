//! Commands that change the file tree.

ghost use Rattle.std.specs.Prelude.{◌≡◌, IfErr, IfOk, OnOk};
ghost use Rattle.init_machine.specs.Effect as effect_spec;
ghost use Rattle.init_machine.specs.FileTree.{tree_refusal};
ghost use Rattle.init_machine.specs.FileTree as file_tree_spec;
ghost use Rattle.machine_parts.specs.Parts.{Does, rules_of, state_of};
ghost use Rattle.model_fs.specs.Calls.{IsDone, IsRefused};

use init_base::{NoMemory, Text};
use init_machine::{Cause, Done, FsRefusal, Output, PropStore, TreeCall};
use machine_parts::Parts;
use model_fs::Tree;
use outputs::Outputs;
use std::alloc::Global;

/// Makes a call of a tree.
fn make_call(alloc: Global, tree: &mut Tree, call: &TreeCall) -> Result<(), FsRefusal>
    ensures done { OnOk result (IsDone tree.old call.now tree.new) }
    ensures refused { IfErr result (IsRefused tree.old call.now tree.new) }
{
    match call {
        TreeCall::Write { path, content } => write(alloc, tree, path, content),
        TreeCall::Copy { from, to } => tree.copy(alloc, from.bytes(), to.bytes()),
        TreeCall::MakeDirectory { path, mode } => tree.mkdir(alloc, path.bytes(), *mode),
        TreeCall::Remove { path } => tree.rm(path.bytes()),
        TreeCall::RemoveDirectory { path } => tree.rmdir(path.bytes()),
        TreeCall::Link { target, path } => link(alloc, tree, target, path),
        TreeCall::ChangeMode { mode, path } => tree.chmod(*mode, path.bytes()),
    }
}

fn write(alloc: Global, tree: &mut Tree, path: &Text, content: &Text) -> Result<(), FsRefusal>
    ensures done { OnOk result (IsDone tree.old (TreeCall.Write path.now content.now) tree.new) }
    ensures refused { IfErr result (IsRefused tree.old (TreeCall.Write path.now content.now) tree.new) }
{
    match content.share() {
        Ok(content) => tree.write(alloc, path.bytes(), content),
        Err(NoMemory) => Err(FsRefusal::NoMemory),
    }
}

fn link(alloc: Global, tree: &mut Tree, target: &Text, path: &Text) -> Result<(), FsRefusal>
    ensures done { OnOk result (IsDone tree.old (TreeCall.Link target.now path.now) tree.new) }
    ensures refused { IfErr result (IsRefused tree.old (TreeCall.Link target.now path.now) tree.new) }
{
    match target.share() {
        Ok(target) => tree.symlink(alloc, target, path.bytes()),
        Err(NoMemory) => Err(FsRefusal::NoMemory),
    }
}

/// The path that a call changes.
fn changed_path(call: TreeCall) -> Text
    ensures { result ≡ file_tree_spec.changed_path call }
{
    match call {
        TreeCall::Write { path, .. } => path,
        TreeCall::Copy { to, .. } => to,
        TreeCall::MakeDirectory { path, .. } => path,
        TreeCall::Remove { path } => path,
        TreeCall::RemoveDirectory { path } => path,
        TreeCall::Link { path, .. } => path,
        TreeCall::ChangeMode { path, .. } => path,
    }
}

/// Changes the tree. The line has the path that is changed.
pub fn change_tree<S: PropStore, O: Outputs>(
    alloc: Global,
    parts: &mut Parts<S, O>,
    call: TreeCall,
) -> Result<Done, NoMemory>
    ensures ending { IfOk result (λ ending. ending
        ≡ (effect_spec.change_tree call (tree_refusal parts.old.tree call) (state_of S.meaning parts.old)).ending) }
    ensures did { OnOk result (Does S.meaning S.told O.Adds parts.old parts.new
        (effect_spec.change_tree call (tree_refusal parts.old.tree call) (state_of S.meaning parts.old)).did) }
    ensures beside { S.Beside parts.old.store parts.new.store }
{
    match make_call(alloc, &mut parts.tree, &call) {
        Ok(()) => {
            let path = changed_path(call);
            parts.outputs.push(Output::Tree { path })?;
            Ok(Done::Ok)
        }
        Err(FsRefusal::NoMemory) => Err(NoMemory),
        Err(kind) => Ok(Done::Failed(Cause::Tree { kind })),
    }
}
