//! Expanding the arguments of a command.

ghost use Rattle.std.specs.Prelude.{◌≡◌, ℕ, List as Items, Ok, Err, Option as Maybe, IfOk, IsTrue, MatchResult};
ghost use Rattle.init_machine.specs.Effect as effect_spec;
ghost use Rattle.init_machine.specs.Expand as expand_spec;
ghost use Rattle.init_machine.specs.Props.{value_in};

use init_base::{List, NoMemory, SharedList, Text};
use init_machine::{Cause, PropStore};
use prop_rules::{ExpandRefusal, expand, stands_for_itself};
use std::alloc::Global;

/// An argument, expanded.
fn expand_one<S: PropStore>(
    alloc: Global,
    store: &mut S,
    arg: &Text,
) -> Result<Result<Text, Cause>, NoMemory>
    ensures expanded { IfOk result (λ expanded. expanded ≡ expand_spec.expand (value_in (S.meaning store.old)) arg.now) }
    ensures same { S.meaning store.new ≡ S.meaning store.old }
    ensures told { S.told store.new ≡ S.told store.old }
    ensures spare { S.spare store.new ≡ S.spare store.old }
    ensures beside { S.Beside store.old store.new }
{
    match expand(alloc, arg, store) {
        Ok(text) => Ok(Ok(text)),
        Err(ExpandRefusal::BadForm { place }) => {
            let place = place as u64;
            Ok(Err(Cause::BadForm { place }))
        }
        Err(ExpandRefusal::Absent { name }) => Ok(Err(Cause::Absent { name })),
        Err(ExpandRefusal::TooLong) => Ok(Err(Cause::TooLong)),
        Err(ExpandRefusal::NoMemory) => Err(NoMemory),
    }
}

/// All arguments, expanded from the left. The first that fails decides.
fn expand_all<S: PropStore>(
    alloc: Global,
    store: &mut S,
    args: &[Text],
) -> Result<Result<List<Text>, Cause>, NoMemory>
    ensures expanded { IfOk result (λ expanded. expanded ≡ effect_spec.expand_all (value_in (S.meaning store.old)) args.now) }
    ensures same { S.meaning store.new ≡ S.meaning store.old }
    ensures told { S.told store.new ≡ S.told store.old }
    ensures spare { S.spare store.new ≡ S.spare store.old }
    ensures beside { S.Beside store.old store.new }
{
    let mut expanded = List::with_capacity(alloc, args.len())?;
    for arg in args {
        match expand_one(alloc, store, arg)? {
            Ok(text) => expanded.push(text)?,
            Err(why) => return Ok(Err(why)),
        }
    }
    Ok(Ok(expanded))
}

/// Whether each argument is its own expansion.
pub fn stand_for_themselves(args: &[Text]) -> bool
    ensures { IsTrue result → (look_up : Items ℕ → Maybe (Items ℕ)) → effect_spec.expand_all look_up args.now ≡ Ok args.now }
{
    for arg in args {
        if !stands_for_itself(arg) {
            return false;
        }
    }
    true
}

/// Expands arguments, from the left; the first that fails decides, and they stay as written.
pub fn expand_args<S: PropStore>(
    alloc: Global,
    store: &mut S,
    args: &mut SharedList<Text>,
) -> Result<Result<(), Cause>, NoMemory>
    ensures expanded { let answer = effect_spec.expand_all (value_in (S.meaning store.old)) args.old in IfOk result (λ expanded.
        MatchResult expanded (λ _. answer ≡ Ok args.new) (λ why. (answer ≡ Err why) × (args.new ≡ args.old))) }
    ensures same { S.meaning store.new ≡ S.meaning store.old }
    ensures told { S.told store.new ≡ S.told store.old }
    ensures spare { S.spare store.new ≡ S.spare store.old }
    ensures beside { S.Beside store.old store.new }
{
    if stand_for_themselves(args.items()) {
        return Ok(Ok(()));
    }
    match expand_all(alloc, store, args.items())? {
        Ok(expanded) => {
            *args = SharedList::of(alloc, expanded)?;
            Ok(Ok(()))
        }
        Err(why) => Ok(Err(why)),
    }
}
