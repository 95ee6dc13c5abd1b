//! Messages on imports.

use super::text::Message;
use init_base::{NoMemory, Text};
use init_machine::DiagKind;
use list_store::ListStore;
use prop_rules::{ExpandRefusal, expand};
use std::alloc::Global;

/// An import that hasn't exactly one argument.
pub fn bad_import(alloc: Global, words: &[Text]) -> Result<Text, NoMemory> {
    let message = Message::of(alloc, b"import takes 1 argument, ")?;
    let message = match words.len() {
        0 => message.say(b"none is given")?,
        given => message.number(given as u64)?.say(b" are given")?,
    };
    message.end()
}

/// An import that leads nowhere.
pub fn nowhere(
    alloc: Global,
    view: &mut ListStore,
    kind: DiagKind,
    path: &Text,
) -> Result<Text, NoMemory> {
    match expand(alloc, path, view) {
        Ok(expanded) => nowhere_at(alloc, kind, path, &expanded),
        Err(ExpandRefusal::NoMemory) => Err(NoMemory),
        Err(refusal) => not_expanded(alloc, path, refusal),
    }
}

/// An import whose path is expanded.
fn nowhere_at(
    alloc: Global,
    kind: DiagKind,
    path: &Text,
    expanded: &Text,
) -> Result<Text, NoMemory> {
    let message = Message::of(alloc, b"import of ")?.quote(expanded.bytes())?;
    let message = if expanded.is(path.bytes()) {
        message
    } else {
        message.say(b" (written ")?.quote(path.bytes())?.say(b")")?
    };
    let behind: &[u8] = match kind {
        DiagKind::Loop => b" leads to a file that is being imported",
        DiagKind::TooDeep => b" is deeper than 16 levels of imports",
        DiagKind::NoFile if !expanded.bytes().starts_with(b"/") => {
            b": an absolute path is expected"
        }
        _ => b": there is no such file or directory",
    };
    message.say(behind)?.end()
}

/// An import whose path isn't expanded.
fn not_expanded(alloc: Global, path: &Text, refusal: ExpandRefusal) -> Result<Text, NoMemory> {
    let message = Message::of(alloc, b"import of ")?.quote(path.bytes())?;
    let message = match refusal {
        ExpandRefusal::Absent { name } => message
            .say(b": the property ")?
            .quote(name.bytes())?
            .say(b" has no value in the build files")?,
        ExpandRefusal::BadForm { place } => message
            .say(b": ${NAME} or ${NAME:-VALUE} is expected at byte ")?
            .number((place as u64).saturating_add(1))?,
        ExpandRefusal::TooLong | ExpandRefusal::NoMemory => {
            message.say(b": the path has more than 4096 bytes")?
        }
    };
    message.end()
}
