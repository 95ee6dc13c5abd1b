//! Command lines.

ghost use Rattle.std.specs.Prelude.{◌≡◌, IfOk, length};
ghost use Rattle.rc_parse.specs.Commands.{command_of};
ghost use Rattle.rc_parse.specs.Commands as commands_spec;
ghost use Rattle.rc_parse.specs.Lines as lines_spec;
ghost use Rattle.rc_parse.specs.Readings.{IsReading};

use crate::fault::Fault;
use crate::words::{arguments, first_word, shared};
use init_base::{NoMemory, SharedList, Text};
use init_machine::{Command, DiagKind, Word};
use std::alloc::Global;

/// The word of a command with so many arguments.
#[tactic(auto, unfolding(crate::specs::Commands::command_word))]
pub fn command_word(word: &[u8], count: usize) -> Result<Word, Fault>
    ensures { IsReading result (commands_spec.command_word word.now count) }
{
    let Some(word) = Word::of(word) else {
        return Err(Fault::Bad(DiagKind::BadWord));
    };
    if !word.arity().permits(count) {
        return Err(Fault::Bad(DiagKind::BadArity));
    }
    Ok(word)
}

/// The word of the command that these words are.
pub fn word_of_command(words: &[Text]) -> Result<Word, Fault>
    ensures { IsReading result (commands_spec.command_word (lines_spec.first_word words.now) (length (lines_spec.arguments words.now))) }
{
    command_word(first_word(words), arguments(words).len())
}

/// The command of this word and of the words behind it, at a line of a file.
pub fn command_with(
    alloc: Global,
    file: &Text,
    line: u32,
    word: Word,
    args: &[Text],
) -> Result<Command, NoMemory>
    ensures { IfOk result (λ command. command ≡ record { file = file.now; line = line; word = word; args = args.now }) }
{
    Ok(Command {
        file: file.share()?,
        line,
        word,
        args: SharedList::of(alloc, shared(alloc, args)?)?,
    })
}

/// The command that these words are, at a line of a file.
pub fn command(alloc: Global, file: &Text, line: u32, words: &[Text]) -> Result<Command, Fault>
    ensures { IsReading result (command_of file.now line words.now) }
{
    let word = word_of_command(words)?;
    Ok(command_with(alloc, file, line, word, arguments(words))?)
}
