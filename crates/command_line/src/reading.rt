//! Reading the words.

ghost use Rattle.std.specs.Prelude.{◌≡◌, ◌↔◌, IfErr, IfOk, IsTrue, None, Some, map};
ghost use Rattle.std.specs.List.{list_all};
ghost use Rattle.std.specs.Str.{is_utf8};
ghost use Rattle.command_line.specs.Form as spec;
ghost use Rattle.command_line.specs.declared.reading.WordsRefusal.TheVariants as WordsRefusal;

use crate::command::parse;
use crate::form::{Form, form_of};
use init_base::{List, NoMemory, Text};
use std::alloc::Global;

/// Why the words aren't read.
#[derive(Clone, Copy, Debug, PartialEq, Eq)]
pub enum WordsRefusal {
    /// The words have no form.
    Usage,
    NoMemory,
}

/// What the program is asked to do.
///
/// # Errors
/// `Usage` exactly where the words have no form, which is decided before `clap` reads them. `NoMemory` where memory runs out.
pub fn read_words(alloc: Global, words: &List<Text>) -> Result<Form, WordsRefusal>
    ensures ok { IfOk result (λ form. spec.form_of words.now ≡ Some form) }
    ensures refused { IfErr result (λ why. (why ≡ WordsRefusal.Usage) ↔ (spec.form_of words.now ≡ None)) }
{
    let Some(form) = form_of(words) else {
        return Err(WordsRefusal::Usage);
    };
    let Ok(texts) = texts_of(alloc, words.items()) else {
        return Err(WordsRefusal::NoMemory);
    };
    match parse(alloc, texts.as_slice()) {
        Ok(_) => Ok(form),
        Err(_) => Err(WordsRefusal::NoMemory),
    }
}

/// The texts of words that are UTF-8.
fn texts_of<'a>(alloc: Global, words: &'a [Text]) -> Result<Vec<&'a str>, NoMemory>
    requires { IsTrue (list_all is_utf8 words.now) }
    ensures { IfOk result (λ texts. map (λ text. text.now) texts.items ≡ words.entry.now) }
{
    let mut texts = Vec::with_capacity(alloc, words.len())?;
    for word in words {
        texts.push(text_of(word))?;
    }
    Ok(texts)
}

/// The text of a word that is UTF-8.
fn text_of(word: &Text) -> &str
    requires { IsTrue (is_utf8 word.now) }
    ensures { result.now ≡ word.now }
{
    match str::from_utf8(word.bytes()) {
        Ok(text) => text,
        Err(_) => unreachable!(),
    }
}
