//! What is wrong with a line of the contexts text.

ghost use Rattle.std.specs.Prelude.{◌≡◌, ◌<◌, IfOk, IfSome, drop, length, option_map};
ghost use Rattle.std.specs.List.{list_any, position};
ghost use Rattle.prop_contexts.specs.Lines.{words_of};
ghost use Rattle.refusal_causes.specs.Contexts as spec;
ghost use Rattle.refusal_causes.specs.Misfits.{line_number};

use super::cause::ContextCause;
use init_base::{NoMemory, Text};
use prop_contexts::{all_words, first_word, is_comment};
use std::alloc::Global;

/// The name of the line for all names that no other line is for.
const ANY_NAME: &[u8] = b"*";

const EXACT: &[u8] = b"exact";

/// Why a line is bad behind the lines before it.
pub fn context_line_cause(
    alloc: Global,
    before: &[Text],
    line: &[u8],
) -> Result<Option<ContextCause>, NoMemory>
    ensures { IfOk result (λ cause. cause ≡ spec.context_line_cause before.now line.now) }
{
    let words = all_words(alloc, line)?;
    let Some((name, words)) = words.items().split_first() else {
        return Ok(None);
    };
    if is_comment(name.bytes()) {
        return Ok(None);
    }
    named_cause(before, name, words)
}

/// Why a line is bad that begins with this name, by the words behind it.
fn named_cause(
    before: &[Text],
    name: &Text,
    words: &[Text],
) -> Result<Option<ContextCause>, NoMemory>
    ensures { IfOk result (λ cause. cause ≡ spec.named_cause before.now name.now words.now) }
{
    let Some((_, tail)) = words.split_first() else {
        return Ok(Some(ContextCause::NoLabel {
            name: name.share()?,
        }));
    };
    match tail_cause(tail)? {
        Some(cause) => Ok(Some(cause)),
        None => twice_cause(before, name, is_exact(tail)),
    }
}

/// What is wrong behind the label: the kind, or else the type.
fn tail_cause(words: &[Text]) -> Result<Option<ContextCause>, NoMemory>
    ensures { IfOk result (λ cause. cause ≡ spec.tail_cause words.now) }
{
    let Some((word, words)) = words.split_first() else {
        return Ok(None);
    };
    if is_kind(word.bytes()) {
        return type_cause(words);
    }
    Ok(Some(ContextCause::UnknownKind {
        word: word.share()?,
    }))
}

fn is_kind(word: &[u8]) -> bool
    ensures { result ≡ spec.is_kind word.now }
{
    word == EXACT || word == b"prefix".as_slice()
}

/// What is wrong with a type and its values.
fn type_cause(words: &[Text]) -> Result<Option<ContextCause>, NoMemory>
    ensures { IfOk result (λ cause. cause ≡ spec.type_cause words.now) }
{
    let Some((word, values)) = words.split_first() else {
        return Ok(None);
    };
    if word.is(b"enum") {
        return Ok(if values.is_empty() {
            Some(ContextCause::NoValues)
        } else {
            None
        });
    }
    plain_type_cause(word, values.len())
}

/// What is wrong with a type other than `enum`, behind which so many words stand.
fn plain_type_cause(word: &Text, given: usize) -> Result<Option<ContextCause>, NoMemory>
    ensures { IfOk result (λ cause. cause ≡ spec.plain_type_cause word.now given) }
{
    let is_plain = is_plain_type(word.bytes());
    if is_plain && given == 0 {
        return Ok(None);
    }
    let word = word.share()?;
    Ok(Some(if is_plain {
        ContextCause::TakesNoValues { word, given }
    } else {
        ContextCause::UnknownType { word }
    }))
}

/// Whether a word is a type without values.
fn is_plain_type(word: &[u8]) -> bool
    ensures { result ≡ spec.is_plain_type word.now }
{
    is_unchecked_type(word)
        || word == b"bool".as_slice()
        || word == b"int".as_slice()
        || word == b"uint".as_slice()
}

/// Whether a word is a type that checks nothing.
fn is_unchecked_type(word: &[u8]) -> bool
    ensures { result ≡ spec.is_unchecked_type word.now }
{
    word == b"string".as_slice() || word == b"double".as_slice() || word == b"size".as_slice()
}

/// Whether an earlier line has this name and kind.
fn twice_cause(before: &[Text], name: &Text, exact: bool) -> Result<Option<ContextCause>, NoMemory>
    ensures { IfOk result (λ cause. cause ≡ spec.twice_cause before.now name.now exact) }
{
    match first_same(before, name.bytes(), exact) {
        Some(first) => Ok(Some(ContextCause::Twice {
            name: name.share()?,
            first,
        })),
        None => Ok(None),
    }
}

/// The number of the first line of this name and kind.
fn first_same(lines: &[Text], name: &[u8], exact: bool) -> Option<usize>
    ensures { result ≡ option_map line_number (position (spec.is_same_line name.now exact) lines.now) }
{
    let at = place_of_same(lines, name, exact)?;
    Some(at + 1)
}

fn place_of_same(lines: &[Text], name: &[u8], exact: bool) -> Option<usize>
    ensures place { result ≡ position (spec.is_same_line name.now exact) lines.now }
    ensures within { IfSome result (λ at. at < length lines.now) }
{
    lines
        .iter()
        .position(|line| is_same_line(line.bytes(), name, exact))
}

/// Whether a line has this name and kind; the kind of the line `*` says nothing.
fn is_same_line(line: &[u8], name: &[u8], exact: bool) -> bool
    ensures { result ≡ spec.is_same_line name.now exact line.now }
{
    match first_word(line) {
        Some((first, rest)) => first == name && (name == ANY_NAME || has_exact_kind(rest) == exact),
        None => false,
    }
}

/// Whether the word behind a label is `exact`.
fn has_exact_kind(words: &[u8]) -> bool
    ensures { result ≡ spec.is_exact (drop 1 (words_of words.now)) }
{
    match first_word(words) {
        Some((_, rest)) => begins_exact(rest),
        None => false,
    }
}

fn begins_exact(words: &[u8]) -> bool
    ensures { result ≡ spec.is_exact (words_of words.now) }
{
    match first_word(words) {
        Some((word, _)) => word == EXACT,
        None => false,
    }
}

/// Whether the first of some words is `exact`.
fn is_exact(words: &[Text]) -> bool
    ensures { result ≡ spec.is_exact words.now }
{
    match words.first() {
        Some(word) => word.is(EXACT),
        None => false,
    }
}

/// Whether a line is for the name `*`.
pub fn has_default(lines: &[Text]) -> bool
    ensures { result ≡ list_any spec.is_default_line lines.now }
{
    lines.iter().any(|line| is_default_line(line.bytes()))
}

fn is_default_line(line: &[u8]) -> bool
    ensures { result ≡ spec.is_default_line line.now }
{
    match first_word(line) {
        Some((name, _)) => name == ANY_NAME,
        None => false,
    }
}
