//! Messages on the triggers of an `on` line.

use super::text::Message;
use init_base::{NoMemory, PropName, Text};
use std::alloc::Global;
use std::collections::BTreeSet;

const ON_PROPERTY: &[u8] = b"property:";

/// `on` without a trigger.
pub fn no_trigger(alloc: Global) -> Result<Text, NoMemory> {
    Message::of(
        alloc,
        b"on takes an event or property:NAME=VALUE, none is given",
    )?
    .end()
}

/// A test with `!=`.
pub fn not_equal(alloc: Global) -> Result<Text, NoMemory> {
    Message::of(alloc, b"a test with != is not modelled")?.end()
}

/// The name that a trigger tests, and whether a value stands behind it, where it tests a property. A `!` before the `=` is no
/// part of the name.
fn tested(word: &[u8]) -> Option<(&[u8], bool)> {
    let text = word.strip_prefix(ON_PROPERTY)?;
    match text.iter().position(|byte| *byte == b'=') {
        Some(at) => Some((without_last_bang(&text[..at]), true)),
        None => Some((text, false)),
    }
}

fn without_last_bang(name: &[u8]) -> &[u8] {
    match name {
        [before @ .., b'!'] => before,
        _ => name,
    }
}

/// Triggers of a bad form: the first one that is.
pub fn bad_trigger(alloc: Global, words: &[Text]) -> Result<Text, NoMemory> {
    let mut event: Option<&[u8]> = None;
    for (place, word) in words.iter().enumerate() {
        let word = word.bytes();
        if place % 2 == 1 {
            if word != b"&&".as_slice() {
                return bad_joiner(alloc, word);
            }
        } else if let Some((name, has_value)) = tested(word) {
            if !has_value || PropName::of(name).is_none() {
                return bad_test(alloc, word, name, has_value);
            }
        } else if word.is_empty() {
            return Message::of(alloc, b"a trigger is the empty text")?.end();
        } else if let Some(first) = event {
            return second_event(alloc, first, word);
        } else {
            event = Some(word);
        }
    }
    twice_prop(alloc, words)
}

fn bad_joiner(alloc: Global, word: &[u8]) -> Result<Text, NoMemory> {
    Message::of(alloc, b"\"&&\" is expected between triggers, ")?
        .quote(word)?
        .say(b" is given")?
        .end()
}

fn bad_test(alloc: Global, word: &[u8], name: &[u8], has_value: bool) -> Result<Text, NoMemory> {
    let message = Message::of(alloc, b"property:NAME=VALUE is expected, ")?
        .quote(word)?
        .say(b" is given")?;
    if !has_value {
        return message.say(b", which has no =")?.end();
    }
    message
        .say(b"; ")?
        .quote(name)?
        .say(b" is no property name")?
        .end()
}

fn second_event(alloc: Global, first: &[u8], second: &[u8]) -> Result<Text, NoMemory> {
    Message::of(alloc, b"an action waits for one event, ")?
        .quote(first)?
        .say(b" and ")?
        .quote(second)?
        .say(b" are given")?
        .end()
}

/// Two tests of one property.
pub fn twice_prop(alloc: Global, words: &[Text]) -> Result<Text, NoMemory> {
    let mut seen = BTreeSet::new(alloc);
    for word in words {
        let Some((name, _)) = tested(word.bytes()) else {
            continue;
        };
        if !seen.insert(name)? {
            return Message::of(alloc, b"the property ")?
                .quote(name)?
                .say(b" is tested twice; an action tests each property once")?
                .end();
        }
    }
    Message::of(alloc, b"a property is tested twice")?.end()
}
