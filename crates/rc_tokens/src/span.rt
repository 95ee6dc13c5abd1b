//! Lines whose words are ranges of one buffer: no text is made of a word that is only looked at.

ghost use Rattle.std.specs.Prelude.{◌≡◌, ◌∷◌, ◌≤◌, [], IfOk, IsTrue, MatchOption, length, take, drop, slice_get};
ghost use Rattle.std.specs.List.{list_all};
ghost use Rattle.std.specs.Option.{option_copied};
ghost use Rattle.rc_tokens.specs.internal.Ranges.{AreSpans, are_among, is_within, lines_at, words_at};

use crate::range::{Mark, Range};
use crate::tokens::Tokens;
use init_base::{List, NoMemory, Text};
use std::alloc::Global;
use std::marker::Model;

/// The lines of a file.
#[derive(Debug, Drop)]
pub struct SpanTokens {
    /// What all words spell, one behind another.
    buffer: Text,
    words: List<Range>,
    lines: List<Mark>,
    /// The number of the last line, where it was left out.
    dropped: Option<u32>,
}

impl Model for SpanTokens {
    ghost use Rattle.rc_tokens.specs.Lines.{Tokens};
    ghost use Rattle.rc_tokens.specs.internal.Ranges.{AreSpans, lines_at, words_at};

    ghost Value = { Tokens };

    ghost view = { λ t. record { lines = lines_at (words_at t.buffer t.words) t.lines; dropped = t.dropped } };

    ghost invariant = { λ t. AreSpans t.buffer t.words t.lines };
}

impl SpanTokens {
    /// The lines of these marks, by the ranges of their words.
    pub(crate) fn of(
        buffer: Text,
        words: List<Range>,
        lines: List<Mark>,
        dropped: Option<u32>,
    ) -> SpanTokens
        requires { AreSpans buffer words lines }
        ensures { result ≡ record { lines = lines_at (words_at buffer words) lines; dropped = dropped } }
    {
        SpanTokens {
            buffer,
            words,
            lines,
            dropped,
        }
    }

    pub fn lines(&self) -> SpanSlice<'_>
        ensures { result ≡ self.now.lines }
    {
        SpanSlice {
            buffer: &self.buffer,
            words: self.words.items(),
            marks: self.lines.items(),
        }
    }

    /// The number of the last line, where it was left out: the file ends in an open quote or after a lone backslash.
    pub fn dropped(&self) -> Option<u32>
        ensures { result ≡ self.now.dropped }
    {
        self.dropped
    }

    /// The same lines with a text for each word.
    pub(crate) fn into_tokens(self, alloc: Global) -> Result<Tokens, NoMemory>
        ensures { IfOk result (λ tokens. tokens ≡ self) }
    {
        let words = words_of(alloc, &self.buffer, self.words.items())?;
        Ok(Tokens::of(words, self.lines, self.dropped))
    }
}

/// The words of these ranges of the buffer.
fn words_of(alloc: Global, buffer: &Text, ranges: &[Range]) -> Result<List<Text>, NoMemory>
    requires { IsTrue (list_all (is_within (length buffer.now)) ranges.now) }
    ensures { IfOk result (λ words. words ≡ words_at buffer.now ranges.now) }
{
    let mut words = List::with_capacity(alloc, ranges.len())?;
    for range in ranges {
        words.push(buffer.slice(range.from as usize, range.to as usize)?)?;
    }
    Ok(words)
}

/// A line: where it begins, and its words, of which it has at least one.
#[derive(Drop)]
pub struct SpanLine<'a> {
    number: u32,
    buffer: &'a Text,
    words: &'a [Range],
}

impl<'a> Model for SpanLine<'a> {
    ghost use Rattle.std.specs.Prelude.{IsTrue, length};
    ghost use Rattle.std.specs.List.{list_all};
    ghost use Rattle.rc_tokens.specs.Lines.{Line};
    ghost use Rattle.rc_tokens.specs.internal.Ranges.{is_within, words_at};

    ghost Value = { Line };

    ghost view = { λ l. record { number = l.number; words = words_at l.buffer.now l.words.now } };

    ghost invariant = { λ l. IsTrue (list_all (is_within (length l.buffer.now)) l.words.now) };
}

impl<'a> SpanLine<'a> {
    /// The physical line on which the first token begins, from 1.
    pub fn number(&self) -> u32
        ensures { result ≡ self.now.number }
    {
        self.number
    }

    /// How many words there are.
    pub fn len(&self) -> usize
        ensures { result ≡ length self.now.words }
    {
        self.words.len()
    }

    /// The word at a place, from 0. None exactly past the end.
    pub fn at(&self, place: usize) -> Option<&'a [u8]>
        ensures { option_copied result ≡ slice_get self.now.words place }
    {
        if place < self.words.len() {
            let Range { from, to } = self.words[place];
            Some(&self.buffer.bytes()[from as usize..to as usize])
        } else {
            None
        }
    }

    /// A text of each word.
    pub fn texts(&self, alloc: Global) -> Result<List<Text>, NoMemory>
        ensures { IfOk result (λ words. words ≡ self.now.words) }
    {
        words_of(alloc, self.buffer, self.words)
    }
}

/// Lines, one behind another: those of a file, or some of them.
#[derive(Drop)]
pub struct SpanSlice<'a> {
    buffer: &'a Text,
    /// The words of the file.
    words: &'a [Range],
    marks: &'a [Mark],
}

impl<'a> Model for SpanSlice<'a> {
    ghost use Rattle.std.specs.Prelude.{List};
    ghost use Rattle.rc_tokens.specs.Lines.{Line};
    ghost use Rattle.rc_tokens.specs.internal.Ranges.{AreSpans, lines_at, words_at};

    ghost Value = { List Line };

    ghost view = { λ l. lines_at (words_at l.buffer.now l.words.now) l.marks.now };

    ghost invariant = { λ l. AreSpans l.buffer.now l.words.now l.marks.now };
}

impl<'a> SpanSlice<'a> {
    /// The same lines once more.
    pub fn again(&self) -> SpanSlice<'a>
        ensures { result ≡ self.now }
    {
        SpanSlice {
            buffer: self.buffer,
            words: self.words,
            marks: self.marks,
        }
    }

    pub fn len(&self) -> usize
        ensures { result ≡ length self.now }
    {
        self.marks.len()
    }

    /// Takes the first line away. None exactly where no line is left.
    pub fn pop(&mut self) -> Option<SpanLine<'a>>
        ensures { MatchOption result ((self.old ≡ []) × (self.new ≡ [])) (λ line. self.old ≡ line ∷ self.new) }
    {
        let buffer = self.buffer;
        let words = self.words;
        let Some((mark, behind)) = self.marks.split_first() else {
            return None;
        };
        self.marks = behind;
        let Range { from, to } = mark.words;
        Some(SpanLine {
            number: mark.number,
            buffer,
            words: &words[from as usize..to as usize],
        })
    }

    /// Takes so many lines away at the front.
    pub fn take_front(&mut self, count: usize) -> SpanSlice<'a>
        requires { count ≤ length self.old }
        ensures front { result ≡ take count self.old }
        ensures behind { self.new ≡ drop count self.old }
    {
        let buffer = self.buffer;
        let words = self.words;
        let (marks, behind) = self.marks.split_at(count);
        self.marks = behind;
        SpanSlice {
            buffer,
            words,
            marks,
        }
    }
}
