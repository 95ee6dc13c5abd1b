//! Messages on services and their options.

use super::text::Message;
use init_base::{NoMemory, PropName, Text};
use rc_parse::{arguments, first_word};
use std::alloc::Global;

/// The most bytes of a service's name.
const MOST_NAME_BYTES: usize = 246;

/// An option whose value is out of form.
pub fn bad_option(alloc: Global, words: &[Text]) -> Result<Text, NoMemory> {
    let option = first_word(words);
    let value = first_word(arguments(words));
    match option {
        b"critical" => bad_critical(alloc, arguments(words)),
        b"onrestart" => Message::of(alloc, b"onrestart takes no command that waits, ")?
            .quote(value)?
            .say(b" is given")?
            .end(),
        b"timeout_period" => bad_seconds(alloc, option, b"1", value),
        _ => bad_seconds(alloc, option, b"0", value),
    }
}

fn bad_seconds(alloc: Global, option: &[u8], least: &[u8], value: &[u8]) -> Result<Text, NoMemory> {
    Message::of(alloc, option)?
        .say(b" takes a number of seconds from ")?
        .say(least)?
        .say(b" to 1000000, ")?
        .quote(value)?
        .say(b" is given")?
        .end()
}

/// Whether an argument of `critical` looks as it should.
fn looks_good(word: &[u8]) -> bool {
    match word.strip_prefix(b"window=") {
        Some(window) => {
            let is_number = !window.is_empty() && window.iter().all(|byte| byte.is_ascii_digit());
            is_number || window == b"off".as_slice() || window.starts_with(b"${")
        }
        None => word.starts_with(b"target=") && word != b"target=".as_slice(),
    }
}

fn bad_critical(alloc: Global, words: &[Text]) -> Result<Text, NoMemory> {
    let message = Message::of(
        alloc,
        b"critical takes window=MINUTES and target=TARGET, each once, where MINUTES is a number from 0 to 1000000, off, or ${NAME:-M} with one of these for M; ",
    )?;
    let message = match words.iter().find(|word| !looks_good(word.bytes())) {
        Some(word) => message.quote(word.bytes())?,
        None => quote_all(message, words)?,
    };
    message.say(b" is given")?.end()
}

/// The message goes on with some words.
fn quote_all(message: Message, words: &[Text]) -> Result<Message, NoMemory> {
    let mut message = message;
    for (place, word) in words.iter().enumerate() {
        if place > 0 {
            message = message.say(b" ")?;
        }
        message = message.quote(word.bytes())?;
    }
    Ok(message)
}

/// A header of a bad form, by the words behind `service`.
pub fn bad_service(alloc: Global, words: &[Text]) -> Result<Text, NoMemory> {
    match words {
        [] => Message::of(alloc, b"service takes a name and a path, none is given")?.end(),
        [_] => Message::of(alloc, b"service takes a name and a path, no path is given")?.end(),
        [name, path, ..] => bad_name_or_path(alloc, name.bytes(), path),
    }
}

fn bad_name_or_path(alloc: Global, name: &[u8], path: &Text) -> Result<Text, NoMemory> {
    if PropName::of(name).is_none() {
        return Message::of(alloc, b"the service name ")?
            .quote(name)?
            .say(
                b" is out of form: letters, digits and . - _ @ : are expected, no dot at an end or beside another",
            )?
            .end();
    }
    if name.len() > MOST_NAME_BYTES {
        return Message::of(alloc, b"a service name has at most 246 bytes, ")?
            .number(name.len() as u64)?
            .say(b" are given")?
            .end();
    }
    if path.is_empty() {
        return Message::of(alloc, b"the path of service ")?
            .quote(name)?
            .say(b" is empty")?
            .end();
    }
    Message::of(alloc, b"a service of a bad form")?.end()
}

/// A second service of a name.
pub fn service_again(alloc: Global, name: &[u8]) -> Result<Text, NoMemory> {
    Message::of(alloc, b"service ")?
        .quote(name)?
        .say(b" is declared before, and this one has no \"override\"")?
        .end()
}
