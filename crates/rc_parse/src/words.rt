//! Words, and what a line is by its first one.

ghost use Rattle.std.specs.Prelude.{◌≡◌, ◌≤◌, ◌||◌, IfOk, codes, drop, length};
ghost use Rattle.std.specs.Str.{bytes_eq};
ghost use Rattle.init_base.specs.Name as name_spec;
ghost use Rattle.rc_parse.specs.Lines as lines_spec;

use init_base::{List, NoMemory, PropName, Text};
use rc_tokens::Line;
use std::alloc::Global;

/// The first of some words, or the empty word.
pub fn first_word(words: &[Text]) -> &[u8]
    ensures { result.now ≡ lines_spec.first_word words.entry.now }
{
    match words {
        [] => &[],
        [word, ..] => word.bytes(),
    }
}

/// The words behind the first one.
pub fn arguments(words: &[Text]) -> &[Text]
    ensures { result.now ≡ lines_spec.arguments words.entry.now }
{
    match words {
        [] => &[],
        [_, arguments @ ..] => arguments,
    }
}

/// Whether a line begins an action.
pub fn is_on(line: &Line<'_>) -> bool
    ensures { result ≡ lines_spec.is_on line.now }
{
    is_text(first_word(line.words()), b"on")
}

/// Whether a line begins a service.
pub fn is_service(line: &Line<'_>) -> bool
    ensures { result ≡ lines_spec.is_service line.now }
{
    is_text(first_word(line.words()), b"service")
}

/// Whether a word has this text. Most differ by their length.
#[inline]
#[tactic(auto, using(crate::proofs::Firsts::other_length))]
pub fn is_text(word: &[u8], text: &[u8]) -> bool
    ensures { result ≡ bytes_eq word.now text.now }
{
    word.len() == text.len() && word == text
}

/// Whether a line that begins with this word begins a section.
pub fn is_header_word(word: &[u8]) -> bool
    ensures { result ≡ (bytes_eq word.now (codes "on") || bytes_eq word.now (codes "service") || bytes_eq word.now (codes "import")) }
{
    is_text(word, b"on") || is_text(word, b"service") || is_text(word, b"import")
}

/// Whether a line begins a section.
pub fn is_header(line: &Line<'_>) -> bool
    ensures { result ≡ lines_spec.is_header line.now }
{
    is_header_word(first_word(line.words()))
}

/// Whether a text is the name of a property.
pub fn is_legal_name(name: &[u8]) -> bool
    ensures { result ≡ name_spec.is_legal_name name.now }
{
    PropName::of(name).is_some()
}

/// What stands behind so many bytes of a word.
#[tactic(auto, using(crate::proofs::Firsts::all_behind))]
pub fn behind(word: &Text, count: usize) -> Result<Text, NoMemory>
    requires { count ≤ length word.now }
    ensures { IfOk result (λ rest. rest ≡ drop count word.now) }
{
    word.slice(count, word.len())
}

/// The same words in a list of their own, which share their bytes.
pub fn shared(alloc: Global, words: &[Text]) -> Result<List<Text>, NoMemory>
    ensures { IfOk result (λ list. list ≡ words.now) }
{
    let mut list = List::with_capacity(alloc, words.len())?;
    for word in words {
        list.push(word.share()?)?;
    }
    Ok(list)
}
