//! The words of a line, one after another.

ghost use Rattle.std.specs.Prelude.{◌≡◌, ◌≢◌, ◌<◌, [], ◌∷◌, IfOk, MatchOption, MatchResult, length, not};
ghost use Rattle.script_lang.specs.Lines.{words_of};
ghost use Rattle.script_lang.specs.Lines as spec;
ghost use Rattle.std.specs.List.{position, position_or_len};
ghost use Rattle.script_lang.specs.Reading.{IsBad};

use crate::fault::Fault;
use init_base::{List, NoMemory, Text};
use std::alloc::Global;
use std::marker::Model;

/// A line that is read word by word. It is the list of the words that are left to contracts.
#[derive(Drop)]
pub struct Words<'a> {
    rest: &'a [u8],
}

impl<'a> Model for Words<'a> {
    ghost use Rattle.std.specs.Prelude.{ℕ, List};
    ghost use Rattle.script_lang.specs.Lines as spec;

    ghost Value = { List (List ℕ) };

    ghost view = { λ w. spec.words_of w.rest.now };
}

impl<'a> Words<'a> {
    /// The words of a line.
    pub fn of(line: &'a [u8]) -> Words<'a>
        ensures { result ≡ words_of line.entry.now }
    {
        Words { rest: line }
    }

    /// Takes the next word. Bad exactly where none is left.
    pub fn next(&mut self) -> Result<&'a [u8], Fault>
        ensures { MatchResult result (λ word. self.old ≡ word.now ∷ self.new) (λ fault. IsBad fault × (self.old ≡ [])) }
    {
        match first_word(self.rest) {
            Some((word, rest)) => {
                self.rest = rest;
                Ok(word)
            }
            None => Err(Fault::Bad),
        }
    }

    /// Whether no word is left, as it must be. Bad exactly where one is.
    pub fn end(self) -> Result<(), Fault>
        ensures { MatchResult result (λ _. self.entry ≡ []) (λ fault. IsBad fault × (self.entry ≢ [])) }
    {
        match first_word(self.rest) {
            Some(_) => Err(Fault::Bad),
            None => Ok(()),
        }
    }
}

/// All words of a line.
pub fn all_words(alloc: Global, line: &[u8]) -> Result<List<Text>, NoMemory>
    ensures { IfOk result (λ words. words ≡ words_of line.now) }
{
    let mut words = List::new(alloc);
    let mut left = Words::of(line);
    while let Ok(word) = left.next() {
        words.push(Text::of(alloc, word)?)?;
    }
    Ok(words)
}

/// The first word of a line, and what stands behind it.
pub fn first_word(line: &[u8]) -> Option<(&[u8], &[u8])>
    ensures { MatchOption result (words_of line.now ≡ [])
        (λ r. (words_of line.now ≡ r.0.now ∷ words_of r.1.now) × (length r.1.now < length line.now)) }
{
    let (_, rest) = line.split_at(word_start(line)?);
    Some(rest.split_at(word_len(rest)))
}

/// The place of the first byte that is no space and no tab.
fn word_start(line: &[u8]) -> Option<usize>
    ensures { result ≡ position (λ byte. not (spec.is_space byte)) line.now }
{
    line.iter().position(|byte| !is_space(*byte))
}

/// The place of the first space or tab.
fn word_end(line: &[u8]) -> Option<usize>
    ensures { result ≡ position spec.is_space line.now }
{
    line.iter().position(|byte| is_space(*byte))
}

/// The number of bytes before the first space or tab.
fn word_len(line: &[u8]) -> usize
    ensures { result ≡ position_or_len spec.is_space line.now }
{
    word_end(line).unwrap_or(line.len())
}

/// Whether a byte parts words.
pub fn is_space(byte: u8) -> bool
    ensures { result ≡ spec.is_space byte }
{
    byte == b' ' || byte == b'\t'
}
