//! Why a call is refused: each answer is that of `tree_refusal`.

ghost use Rattle.std.specs.Prelude.{◌≡◌, ℕ, List as Items, IfOk};
ghost use Rattle.std.specs.Result.{result_err};
ghost use Rattle.init_machine.specs.FileTree.{parts_of, tree_refusal};
ghost use Rattle.init_machine.specs.declared.task.TreeCall.TheVariants as call;
ghost use Rattle.model_fs.specs.internal.Entries.{IsWalk};
ghost use Rattle.model_fs.specs.internal.Rows.{tree_of};

use crate::entries::{Entries, Walk};
use crate::node::{is_directory, is_insecure, is_other, is_there};
use init_machine::FsRefusal;

#[tactic(auto, unfolding(init_machine::specs::FileTree::tree_refusal))]
pub fn judge_write(entries: &Entries, path: &[u8]) -> Result<Walk, FsRefusal>
    ensures refused { (content : Items ℕ) → result_err result ≡ tree_refusal (tree_of entries.now) (call.Write path.now content) }
    ensures walk { IfOk result (λ walk. IsWalk entries.now (parts_of path.now) walk) }
{
    let Some(sight) = entries.look(path) else {
        return Err(FsRefusal::BadPath);
    };
    if is_directory(sight.node) {
        return Err(FsRefusal::IsDir);
    }
    if sight.walk.is_under_other {
        return Err(FsRefusal::NotDir);
    }
    Ok(sight.walk)
}

#[tactic(auto, unfolding(init_machine::specs::FileTree::tree_refusal))]
pub fn judge_copy(entries: &Entries, from: &[u8], to: &[u8]) -> Result<(Walk, Walk), FsRefusal>
    ensures refused { result_err result ≡ tree_refusal (tree_of entries.now) (call.Copy from.now to.now) }
    ensures walks { IfOk result (λ walks. IsWalk entries.now (parts_of from.now) walks.0 × IsWalk entries.now (parts_of to.now) walks.1) }
{
    let (Some(copied), Some(sight)) = (entries.look(from), entries.look(to)) else {
        return Err(FsRefusal::BadPath);
    };
    if !is_there(copied.node) {
        return Err(FsRefusal::Absent);
    }
    if is_directory(copied.node) || is_directory(sight.node) {
        return Err(FsRefusal::IsDir);
    }
    if sight.walk.is_under_other {
        return Err(FsRefusal::NotDir);
    }
    if is_insecure(copied.node) {
        return Err(FsRefusal::Insecure);
    }
    Ok((copied.walk, sight.walk))
}

#[tactic(auto, unfolding(init_machine::specs::FileTree::tree_refusal))]
pub fn judge_make_directory(entries: &Entries, path: &[u8]) -> Result<Walk, FsRefusal>
    ensures refused { (mode : ℕ) → result_err result ≡ tree_refusal (tree_of entries.now) (call.MakeDirectory path.now mode) }
    ensures walk { IfOk result (λ walk. IsWalk entries.now (parts_of path.now) walk) }
{
    let Some(sight) = entries.look(path) else {
        return Err(FsRefusal::BadPath);
    };
    if sight.walk.is_under_other {
        return Err(FsRefusal::NotDir);
    }
    if is_other(sight.node) {
        return Err(FsRefusal::Exists);
    }
    Ok(sight.walk)
}

#[tactic(auto, unfolding(init_machine::specs::FileTree::tree_refusal))]
pub fn judge_link(entries: &Entries, path: &[u8]) -> Result<Walk, FsRefusal>
    ensures refused { (target : Items ℕ) → result_err result ≡ tree_refusal (tree_of entries.now) (call.Link target path.now) }
    ensures walk { IfOk result (λ walk. IsWalk entries.now (parts_of path.now) walk) }
{
    let Some(sight) = entries.look(path) else {
        return Err(FsRefusal::BadPath);
    };
    if sight.walk.is_under_other {
        return Err(FsRefusal::NotDir);
    }
    if is_there(sight.node) {
        return Err(FsRefusal::Exists);
    }
    Ok(sight.walk)
}

#[tactic(auto, unfolding(init_machine::specs::FileTree::tree_refusal))]
pub fn judge_remove(entries: &Entries, path: &[u8]) -> Result<Walk, FsRefusal>
    ensures refused { result_err result ≡ tree_refusal (tree_of entries.now) (call.Remove path.now) }
    ensures walk { IfOk result (λ walk. IsWalk entries.now (parts_of path.now) walk) }
{
    let Some(sight) = entries.look(path) else {
        return Err(FsRefusal::BadPath);
    };
    if !is_there(sight.node) {
        return Err(FsRefusal::Absent);
    }
    if is_directory(sight.node) {
        return Err(FsRefusal::IsDir);
    }
    Ok(sight.walk)
}

#[tactic(auto, unfolding(init_machine::specs::FileTree::tree_refusal))]
pub fn judge_remove_directory(entries: &Entries, path: &[u8]) -> Result<Walk, FsRefusal>
    ensures refused { result_err result ≡ tree_refusal (tree_of entries.now) (call.RemoveDirectory path.now) }
    ensures walk { IfOk result (λ walk. IsWalk entries.now (parts_of path.now) walk) }
{
    let Some(sight) = entries.look(path) else {
        return Err(FsRefusal::BadPath);
    };
    if !is_there(sight.node) {
        return Err(FsRefusal::Absent);
    }
    if is_other(sight.node) {
        return Err(FsRefusal::NotDir);
    }
    if entries.is_full(path, sight.walk) {
        return Err(FsRefusal::NotEmpty);
    }
    Ok(sight.walk)
}

#[tactic(auto, unfolding(init_machine::specs::FileTree::tree_refusal))]
pub fn judge_change_mode(entries: &Entries, path: &[u8]) -> Result<Walk, FsRefusal>
    ensures refused { (mode : ℕ) → result_err result ≡ tree_refusal (tree_of entries.now) (call.ChangeMode mode path.now) }
    ensures walk { IfOk result (λ walk. IsWalk entries.now (parts_of path.now) walk) }
{
    let Some(sight) = entries.look(path) else {
        return Err(FsRefusal::BadPath);
    };
    if !is_there(sight.node) {
        return Err(FsRefusal::Absent);
    }
    Ok(sight.walk)
}
