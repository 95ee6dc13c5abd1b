//! Messages on the words of lines and their arguments.

use super::nearest::{nearest_command, nearest_header, nearest_option};
use super::options::option_arity;
use super::text::Message;
use init_base::{NoMemory, Text};
use init_machine::{Arity, Word};
use lint_sources::{Part, is_command_not_modelled, is_option_not_modelled};
use rc_parse::{arguments, first_word};
use std::alloc::Global;

/// Whether the word of a line is `onrestart`, behind which a command stands.
pub fn is_onrestart(part: Option<Part>, words: &[Text]) -> bool {
    part == Some(Part::Service) && first_word(words) == b"onrestart".as_slice()
}

/// The words of the command or option that a line has.
fn meant_words(part: Option<Part>, words: &[Text]) -> &[Text] {
    if is_onrestart(part, words) && words.len() > 1 {
        arguments(words)
    } else {
        words
    }
}

/// Asks whether a word was meant.
fn did_you_mean(message: Message, nearest: Option<&[u8]>) -> Result<Message, NoMemory> {
    match nearest {
        Some(word) => message.say(b" (did you mean ")?.quote(word)?.say(b"?)"),
        None => Ok(message),
    }
}

/// A line in no section.
pub fn orphan(alloc: Global, words: &[Text]) -> Result<Text, NoMemory> {
    let word = first_word(words);
    let message = Message::of(alloc, b"a line in no section begins with ")?.quote(word)?;
    let message = did_you_mean(message, nearest_header(alloc, word)?)?;
    message
        .say(b"; an \"on\" or \"service\" line is expected above it")?
        .end()
}

/// A word of a line that isn't modelled.
pub fn not_modelled(alloc: Global, part: Option<Part>, words: &[Text]) -> Result<Text, NoMemory> {
    let kind: &[u8] = if part == Some(Part::Service) && !is_onrestart(part, words) {
        b"the option "
    } else {
        b"the command "
    };
    Message::of(alloc, kind)?
        .quote(first_word(meant_words(part, words)))?
        .say(b" is not modelled")?
        .end()
}

/// An unknown word.
pub fn bad_word(alloc: Global, part: Option<Part>, words: &[Text]) -> Result<Text, NoMemory> {
    if part == Some(Part::Service) && !is_onrestart(part, words) {
        unknown_option(alloc, first_word(words))
    } else {
        unknown_command(alloc, first_word(meant_words(part, words)))
    }
}

fn unknown_command(alloc: Global, word: &[u8]) -> Result<Text, NoMemory> {
    let message = Message::of(alloc, b"unknown command ")?.quote(word)?;
    if option_arity(word).is_some() || is_option_not_modelled(word) {
        return message
            .say(b", an option of services; is the \"service\" line missing?")?
            .end();
    }
    did_you_mean(message, nearest_command(alloc, word)?)?.end()
}

fn unknown_option(alloc: Global, word: &[u8]) -> Result<Text, NoMemory> {
    let message = Message::of(alloc, b"unknown option ")?.quote(word)?;
    if Word::of(word).is_some() || is_command_not_modelled(word) {
        return message
            .say(b", a command of actions; is the \"on\" line missing?")?
            .end();
    }
    did_you_mean(message, nearest_option(alloc, word)?)?.end()
}

/// The numbers of arguments that a word takes.
fn taken(message: Message, arity: Arity) -> Result<Message, NoMemory> {
    match arity {
        Arity::Exactly(number) => message.arguments(number),
        Arity::Between(least, most) if most == least.saturating_add(1) => message
            .number(least as u64)?
            .say(b" or ")?
            .arguments(most),
        Arity::Between(least, most) => message.number(least as u64)?.say(b" to ")?.arguments(most),
        Arity::AtLeast(least) => message.say(b"at least ")?.arguments(least),
    }
}

/// The arity of the word of a line, where it is known.
fn arity_of(part: Option<Part>, words: &[Text], word: &[u8]) -> Option<Arity> {
    if part == Some(Part::Service) && (!is_onrestart(part, words) || words.len() < 2) {
        option_arity(word)
    } else {
        Some(Word::of(word)?.arity())
    }
}

/// A number of arguments that a word doesn't take.
pub fn bad_arity(alloc: Global, part: Option<Part>, words: &[Text]) -> Result<Text, NoMemory> {
    let meant = meant_words(part, words);
    let word = first_word(meant);
    let message = Message::of(alloc, word)?.say(b" takes ")?;
    let message = match arity_of(part, words, word) {
        Some(arity) => taken(message, arity)?,
        None => message.say(b"other arguments")?,
    };
    let given = arguments(meant).len();
    let message = match given {
        0 => message.say(b", none is given")?,
        1 => message.say(b", 1 is given")?,
        _ => message
            .say(b", ")?
            .number(given as u64)?
            .say(b" are given")?,
    };
    message.end()
}
