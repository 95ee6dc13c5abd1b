//! The arguments of commands by their places (AOSP, init's README, "Commands").
//!
//! A command has as many arguments as its word takes. One that it hasn't counts as empty.

ghost use Rattle.std.specs.Prelude.{◌≡◌, ℕ, Bool, true, List as Items, IfOk, if◌then◌else◌};
ghost use Rattle.std.specs.List.{after_first, list_any, position};
ghost use Rattle.std.specs.Str.{bytes_eq};
ghost use Rattle.init_machine.specs.Tasks.{is_dashes, run_once};
ghost use Rattle.init_machine.specs.Tasks as spec;
ghost use Rattle.init_machine.specs.declared.task.Task.{Task as TaskLem};
ghost use Rattle.builtins.specs.Arguments.{exec_by, task_by};

use init_base::{NoMemory, Text};

/// What stands before the path of a program.
const DASHES: &[u8] = b"--";

/// The first argument.
pub fn first(args: &[Text]) -> Result<Text, NoMemory>
    ensures { IfOk result (λ text. text ≡ spec.first args.now) }
{
    match args {
        [] => Ok(Text::empty()),
        [one, ..] => one.share(),
    }
}

/// The second argument.
pub fn second(args: &[Text]) -> Result<Text, NoMemory>
    ensures { IfOk result (λ text. text ≡ spec.second args.now) }
{
    match args {
        [] | [_] => Ok(Text::empty()),
        [_, two, ..] => two.share(),
    }
}

/// `[OPTION] NAME`: whether the option stands there, and the name. None exactly where of two arguments the first is
/// another word.
#[tactic(auto, using(crate::proofs::Options::two_arguments))]
pub fn optional(option: &[u8], args: &[Text]) -> Result<Option<(bool, Text)>, NoMemory>
    ensures { IfOk result (λ found. (asked : Bool → Items ℕ → TaskLem)
        → spec.optional option.now asked args.now ≡ task_by asked found) }
{
    match args {
        [] => Ok(Some((false, Text::empty()))),
        [name] => Ok(Some((false, name.share()?))),
        [given, name, ..] => behind_option(option, given, name),
    }
}

/// The name behind the option, if it is the option.
fn behind_option(option: &[u8], given: &Text, name: &Text) -> Result<Option<(bool, Text)>, NoMemory>
    ensures { IfOk result (λ found. (asked : Bool → Items ℕ → TaskLem)
        → task_by asked found ≡ (if bytes_eq given.now option.now then asked true name.now else TaskLem.BadArgument 1)) }
{
    if given.is(option) {
        Ok(Some((true, name.share()?)))
    } else {
        Ok(None)
    }
}

/// The place of the first `--`.
fn dashes(args: &[Text]) -> Option<usize>
    ensures { result ≡ position is_dashes args.now }
{
    args.iter().position(|arg| arg.is(DASHES))
}

/// The arguments behind the first `--`, or all where there is none.
#[tactic(auto, using(crate::proofs::Places::behind_found, crate::proofs::Places::all_behind))]
fn behind_dashes(args: &[Text]) -> &[Text]
    ensures { result.now ≡ (if list_any is_dashes args.now then after_first is_dashes args.now else args.now) }
{
    match dashes(args) {
        Some(at) => &args[at + 1..],
        None => args,
    }
}

/// `[ANY ... --] PATH [ARG ...]`: the path. None exactly where there is none.
pub fn program(args: &[Text]) -> Result<Option<Text>, NoMemory>
    ensures { IfOk result (λ path. run_once args.now ≡ exec_by path) }
{
    match behind_dashes(args) {
        [] => Ok(None),
        [path, ..] => Ok(Some(path.share()?)),
    }
}
