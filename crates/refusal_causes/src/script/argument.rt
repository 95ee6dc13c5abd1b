//! What stands behind the words of a script.

ghost use Rattle.std.specs.Prelude.{◌≡◌, ◌^◌, ◌<◌, None, Some, IfOk, MatchOption};
ghost use Rattle.refusal_causes.specs.Arguments as spec;

use super::cause::ScriptCause;
use init_base::{NoMemory, Text, unquoted};
use persist_file::is_legal;
use script_lang::decimal;
use std::alloc::Global;

/// What a word behind the first one is.
#[derive(Clone, Copy, Debug)]
pub enum Argument {
    /// The size of the area, in words.
    Size,
    /// A time in milliseconds.
    Time,
    /// The status of a process.
    Status,
    /// A number of steps.
    Steps,
    /// A text in q form.
    Quoted,
    /// A legal name of a property in q form.
    Name,
}

/// The last moment of the clock, in milliseconds.
const LAST_MOMENT: u64 = 1 << 53;

const AREA: &[Argument] = &[Argument::Size];

const PLAN: &[Argument] = &[Argument::Quoted, Argument::Time, Argument::Status];

const STEP: &[Argument] = &[Argument::Steps];

const TICK: &[Argument] = &[Argument::Time];

const EXIT: &[Argument] = &[Argument::Quoted, Argument::Status];

const READ: &[Argument] = &[Argument::Name];

/// Two texts: a client, a file, a set.
const TWO_TEXTS: &[Argument] = &[Argument::Quoted, Argument::Quoted];

/// What stands behind the first word of a line. None where no line begins with it.
pub fn arguments_of(word: &[u8]) -> Option<&'static [Argument]>
    ensures { MatchOption result (spec.arguments_of word.now ≡ None) (λ arguments. spec.arguments_of word.now ≡ Some arguments.now) }
{
    if word == b"area".as_slice() {
        Some(AREA)
    } else if word == b"plan".as_slice() {
        Some(PLAN)
    } else if word == b"client".as_slice() {
        Some(TWO_TEXTS)
    } else {
        act_arguments_of(word)
    }
}

/// What stands behind the first word of an act of the main actor.
fn act_arguments_of(word: &[u8]) -> Option<&'static [Argument]>
    ensures { MatchOption result (spec.act_arguments_of word.now ≡ None)
        (λ arguments. spec.act_arguments_of word.now ≡ Some arguments.now) }
{
    if word == b"step".as_slice() {
        Some(STEP)
    } else if word == b"tick".as_slice() {
        Some(TICK)
    } else if word == b"exit".as_slice() {
        Some(EXIT)
    } else if word == b"file".as_slice() {
        Some(TWO_TEXTS)
    } else {
        None
    }
}

/// What stands behind the word of a client's request. None where no request begins with it.
pub fn request_arguments_of(word: &[u8]) -> Option<&'static [Argument]>
    ensures { MatchOption result (spec.request_arguments_of word.now ≡ None)
        (λ arguments. spec.request_arguments_of word.now ≡ Some arguments.now) }
{
    if word == b"set".as_slice() {
        Some(TWO_TEXTS)
    } else if word == b"read".as_slice() {
        Some(READ)
    } else if word == b"sync".as_slice() || word == b"catch".as_slice() {
        Some(&[])
    } else {
        None
    }
}

/// What is wrong with the first of some words that isn't what it must be.
pub fn arguments_cause(
    alloc: Global,
    arguments: &[Argument],
    words: &[Text],
) -> Result<Option<ScriptCause>, NoMemory>
    ensures { IfOk result (λ cause. cause ≡ spec.arguments_cause arguments.now words.now) }
{
    let Some((argument, arguments)) = arguments.split_first() else {
        return Ok(None);
    };
    let Some((word, words)) = words.split_first() else {
        return Ok(None);
    };
    match argument_cause(alloc, *argument, word)? {
        Some(cause) => Ok(Some(cause)),
        None => arguments_cause(alloc, arguments, words),
    }
}

/// Why a word isn't what it must be.
fn argument_cause(
    alloc: Global,
    argument: Argument,
    word: &Text,
) -> Result<Option<ScriptCause>, NoMemory>
    ensures { IfOk result (λ cause. cause ≡ spec.argument_cause argument word.now) }
{
    match argument {
        Argument::Size => number_cause(word, 64, 1_048_576),
        Argument::Time => number_cause(word, 0, LAST_MOMENT),
        Argument::Status => number_cause(word, 0, 255),
        Argument::Steps => number_cause(word, 1, 1_000_000),
        Argument::Quoted => text_cause(alloc, word.bytes()),
        Argument::Name => name_cause(alloc, word),
    }
}

fn number_cause(word: &Text, least: u64, most: u64) -> Result<Option<ScriptCause>, NoMemory>
    requires { most < 2 ^ 54 }
    ensures { IfOk result (λ cause. cause ≡ spec.number_cause least most word.now) }
{
    if decimal(word.bytes(), least, most).is_some() {
        return Ok(None);
    }
    let given = word.share()?;
    Ok(Some(ScriptCause::BadNumber { given, least, most }))
}

/// Why a word is no q form.
pub fn text_cause(alloc: Global, word: &[u8]) -> Result<Option<ScriptCause>, NoMemory>
    ensures { IfOk result (λ cause. cause ≡ spec.text_cause word.now) }
{
    if unquoted(alloc, word)?.is_some() {
        return Ok(None);
    }
    let given = Text::of(alloc, word)?;
    Ok(Some(ScriptCause::NotQForm { given }))
}

fn name_cause(alloc: Global, word: &Text) -> Result<Option<ScriptCause>, NoMemory>
    ensures { IfOk result (λ cause. cause ≡ spec.name_cause word.now) }
{
    match unquoted(alloc, word.bytes())? {
        Some(name) => legal_cause(word, &name),
        None => {
            let given = word.share()?;
            Ok(Some(ScriptCause::NotQForm { given }))
        }
    }
}

/// Why the name that a word spells isn't legal.
fn legal_cause(word: &Text, name: &Text) -> Result<Option<ScriptCause>, NoMemory>
    ensures { IfOk result (λ cause. cause ≡ spec.legal_cause word.now (Some name.now)) }
{
    if is_legal(name.bytes()) {
        return Ok(None);
    }
    let name = word.share()?;
    Ok(Some(ScriptCause::IllegalName { name }))
}
