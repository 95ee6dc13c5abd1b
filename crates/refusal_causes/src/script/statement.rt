//! What is out of form in a line.

ghost use Rattle.std.specs.Prelude.{◌≡◌, IfOk};
ghost use Rattle.refusal_causes.specs.Statements as spec;

use super::argument::{Argument, arguments_cause, arguments_of, request_arguments_of, text_cause};
use super::cause::ScriptCause;
use init_base::{NoMemory, Text};
use std::alloc::Global;

/// Why a line with these words is out of form.
pub fn statement_cause(alloc: Global, words: &[Text]) -> Result<Option<ScriptCause>, NoMemory>
    ensures { IfOk result (λ cause. cause ≡ spec.statement_cause words.now) }
{
    let Some((word, args)) = words.split_first() else {
        return Ok(None);
    };
    let Some(name) = word.bytes().strip_prefix(b"@") else {
        return plain_cause(alloc, word, args);
    };
    match text_cause(alloc, name)? {
        Some(cause) => Ok(Some(cause)),
        None => request_cause(alloc, args),
    }
}

fn plain_cause(alloc: Global, word: &Text, args: &[Text]) -> Result<Option<ScriptCause>, NoMemory>
    ensures { IfOk result (λ cause. cause ≡ spec.plain_cause word.now args.now) }
{
    match arguments_of(word.bytes()) {
        Some(arguments) => behind_cause(alloc, word, args, arguments),
        None => Ok(Some(ScriptCause::UnknownWord {
            word: word.share()?,
        })),
    }
}

fn request_cause(alloc: Global, words: &[Text]) -> Result<Option<ScriptCause>, NoMemory>
    ensures { IfOk result (λ cause. cause ≡ spec.request_cause words.now) }
{
    let Some((word, args)) = words.split_first() else {
        return Ok(Some(ScriptCause::NoRequest));
    };
    match request_arguments_of(word.bytes()) {
        Some(arguments) => behind_cause(alloc, word, args, arguments),
        None => Ok(Some(ScriptCause::UnknownRequest {
            word: word.share()?,
        })),
    }
}

/// What is wrong behind a word.
fn behind_cause(
    alloc: Global,
    word: &Text,
    args: &[Text],
    arguments: &[Argument],
) -> Result<Option<ScriptCause>, NoMemory>
    ensures { IfOk result (λ cause. cause ≡ spec.behind_cause word.now args.now arguments.now) }
{
    if arguments.len() == args.len() {
        return arguments_cause(alloc, arguments, args);
    }
    Ok(Some(ScriptCause::WrongCount {
        word: word.share()?,
        wanted: arguments.len(),
        given: args.len(),
    }))
}
