//! What doesn't fit behind the lines before.

ghost use Rattle.std.specs.Prelude.{◌≡◌, ◌<◌, IfOk, IfSome, codes, option_map, count_by, length};
ghost use Rattle.std.specs.List.{list_any, position};
ghost use Rattle.script_lang.specs.Lines.{words_of};
ghost use Rattle.refusal_causes.specs.Misfits.{declared_by, line_number};
ghost use Rattle.refusal_causes.specs.Misfits as spec;

use super::cause::ScriptCause;
use init_base::{NoMemory, Text};
use script_lang::{first_word, says_nothing};
use std::alloc::Global;

/// The most clients of a script.
const MOST_CLIENTS: usize = 64;

/// Why a line with these words doesn't fit behind the lines before it.
pub fn misfit_cause(
    alloc: Global,
    before: &[Text],
    words: &[Text],
) -> Result<Option<ScriptCause>, NoMemory>
    ensures { IfOk result (λ cause. cause ≡ spec.misfit_cause before.now words.now) }
{
    let Some((word, args)) = words.split_first() else {
        return Ok(None);
    };
    if is_declaring(word.bytes()) {
        return declaration_cause(before, word, &first_of(args)?);
    }
    match word.bytes().strip_prefix(b"@") {
        Some(name) => client_cause(alloc, before, name),
        None => Ok(None),
    }
}

/// The first of some words, or the empty text.
fn first_of(words: &[Text]) -> Result<Text, NoMemory>
    ensures { IfOk result (λ word. word ≡ spec.first_of words.now) }
{
    match words.first() {
        Some(word) => word.share(),
        None => Ok(Text::empty()),
    }
}

/// Whether a line that begins with this word is a declaration.
fn is_declaring(word: &[u8]) -> bool
    ensures { result ≡ spec.is_declaring word.now }
{
    word == b"area".as_slice() || word == b"plan".as_slice() || word == b"client".as_slice()
}

fn declaration_cause(
    before: &[Text],
    word: &Text,
    name: &Text,
) -> Result<Option<ScriptCause>, NoMemory>
    ensures { IfOk result (λ cause. cause ≡ spec.declaration_cause before.now word.now name.now) }
{
    if let Some(act) = first_act(before) {
        return Ok(Some(ScriptCause::Late { act }));
    }
    if let Some(first) = first_declaration(before, word.bytes(), name.bytes()) {
        return Ok(Some(ScriptCause::Twice {
            word: word.share()?,
            name: name.share()?,
            first,
        }));
    }
    if word.is(b"client") && clients_in(before) >= MOST_CLIENTS {
        return Ok(Some(ScriptCause::TooManyClients));
    }
    Ok(None)
}

fn client_cause(
    alloc: Global,
    before: &[Text],
    name: &[u8],
) -> Result<Option<ScriptCause>, NoMemory>
    ensures { IfOk result (λ cause. cause ≡ spec.client_cause before.now name.now) }
{
    if has_client(before, name) {
        return Ok(None);
    }
    Ok(Some(ScriptCause::UnknownClient {
        name: Text::of(alloc, name)?,
    }))
}

/// The number of the first line that is an act.
fn first_act(lines: &[Text]) -> Option<usize>
    ensures { result ≡ option_map line_number (position spec.is_act_line lines.now) }
{
    let at = place_of_act(lines)?;
    Some(at + 1)
}

fn place_of_act(lines: &[Text]) -> Option<usize>
    ensures place { result ≡ position spec.is_act_line lines.now }
    ensures within { IfSome result (λ at. at < length lines.now) }
{
    lines.iter().position(|line| is_act_line(line.bytes()))
}

/// The number of the first line that declares this.
fn first_declaration(lines: &[Text], word: &[u8], name: &[u8]) -> Option<usize>
    ensures { result ≡ option_map line_number (position (spec.declares word.now name.now) lines.now) }
{
    let at = place_of_declaration(lines, word, name)?;
    Some(at + 1)
}

fn place_of_declaration(lines: &[Text], word: &[u8], name: &[u8]) -> Option<usize>
    ensures place { result ≡ position (spec.declares word.now name.now) lines.now }
    ensures within { IfSome result (λ at. at < length lines.now) }
{
    lines
        .iter()
        .position(|line| declares(line.bytes(), word, name))
}

fn clients_in(lines: &[Text]) -> usize
    ensures { result ≡ count_by spec.is_client_line lines.now }
{
    lines
        .iter()
        .filter(|line| is_client_line(line.bytes()))
        .count()
}

fn has_client(lines: &[Text], name: &[u8]) -> bool
    ensures { result ≡ list_any (spec.declares (codes "client") name.now) lines.now }
{
    lines
        .iter()
        .any(|line| declares(line.bytes(), b"client", name))
}

/// Whether a line is an act.
fn is_act_line(line: &[u8]) -> bool
    ensures { result ≡ spec.is_act_line line.now }
{
    !says_nothing(line) && !begins_declaration(line)
}

/// Whether a line is a declaration, by its first word.
fn begins_declaration(line: &[u8]) -> bool
    ensures { result ≡ spec.begins_declaration line.now }
{
    match first_word(line) {
        Some((word, _)) => is_declaring(word),
        None => false,
    }
}

/// Whether a line declares a client, by its first word.
fn is_client_line(line: &[u8]) -> bool
    ensures { result ≡ spec.is_client_line line.now }
{
    match first_word(line) {
        Some((word, _)) => word == b"client".as_slice(),
        None => false,
    }
}

/// Whether a line says something and declares this; there is one area, whatever its size.
fn declares(line: &[u8], word: &[u8], name: &[u8]) -> bool
    ensures { result ≡ spec.declares word.now name.now line.now }
{
    !says_nothing(line) && has_declared(line, word, name)
}

/// Whether the first two words of a line declare this.
fn has_declared(line: &[u8], word: &[u8], name: &[u8]) -> bool
    ensures { result ≡ declared_by word.now name.now (words_of line.now) }
{
    match first_word(line) {
        Some((first, rest)) => {
            first == word && (word == b"area".as_slice() || has_name(rest, name))
        }
        None => false,
    }
}

/// Whether this is the first of some words.
fn has_name(words: &[u8], name: &[u8]) -> bool
    ensures { result ≡ spec.has_name name.now (words_of words.now) }
{
    match first_word(words) {
        Some((word, _)) => word == name,
        None => false,
    }
}
