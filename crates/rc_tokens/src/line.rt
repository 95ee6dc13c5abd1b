//! Lines of words, as they are looked at.

ghost use Rattle.std.specs.Prelude.{◌≡◌, ◌∷◌, ◌≤◌, ◌↔◌, [], IsTrue, MatchOption, length, take, drop, slice_get};
ghost use Rattle.rc_tokens.specs.internal.Ranges.{are_among, is_within, lines_at};
ghost use Rattle.rc_tokens.specs.internal.Ranges as spec;

use crate::range::{Mark, Range};
use init_base::Text;
use std::marker::Model;

/// A line: where it begins, and its words, of which it has at least one.
#[derive(Drop)]
pub struct Line<'a> {
    number: u32,
    words: &'a [Text],
}

impl<'a> Model for Line<'a> {
    ghost use Rattle.rc_tokens.specs.Lines.{Line};

    ghost Value = { Line };

    ghost view = { λ l. record { number = l.number; words = l.words.now } };
}

impl<'a> Line<'a> {
    /// The physical line on which the first token begins, from 1.
    pub fn number(&self) -> u32
        ensures { result ≡ self.now.number }
    {
        self.number
    }

    pub fn words(&self) -> &'a [Text]
        ensures { result.now ≡ self.now.words }
    {
        self.words
    }
}

/// Lines, one behind another: those of a file, or some of them.
#[derive(Drop)]
pub struct LineSlice<'a> {
    /// The words of the file.
    words: &'a [Text],
    marks: &'a [Mark],
}

impl<'a> Model for LineSlice<'a> {
    ghost use Rattle.std.specs.Prelude.{IsTrue, List, length};
    ghost use Rattle.rc_tokens.specs.Lines.{Line};
    ghost use Rattle.rc_tokens.specs.internal.Ranges.{are_among, lines_at};

    ghost Value = { List Line };

    ghost view = { λ l. lines_at l.words.now l.marks.now };

    ghost invariant = { λ l. IsTrue (are_among (length l.words.now) l.marks.now) };
}

impl<'a> LineSlice<'a> {
    /// The lines of these marks, by their words.
    pub(crate) fn of(words: &'a [Text], marks: &'a [Mark]) -> LineSlice<'a>
        requires { IsTrue (are_among (length words.now) marks.now) }
        ensures { result ≡ lines_at words.now marks.now }
    {
        LineSlice { words, marks }
    }

    /// The same lines once more.
    pub fn again(&self) -> LineSlice<'a>
        ensures { result ≡ self.now }
    {
        LineSlice {
            words: self.words,
            marks: self.marks,
        }
    }

    pub fn len(&self) -> usize
        ensures { result ≡ length self.now }
    {
        self.marks.len()
    }

    pub fn is_empty(&self) -> bool
        ensures { IsTrue result ↔ (self.now ≡ []) }
    {
        self.marks.is_empty()
    }

    /// The line at a place, from 0. None exactly past the end.
    pub fn at(&self, place: usize) -> Option<Line<'a>>
        ensures { result ≡ slice_get self.now place }
    {
        if place < self.marks.len() {
            Some(line_at(self.words, self.marks[place]))
        } else {
            None
        }
    }

    /// Takes the first line away. None exactly where no line is left.
    pub fn pop(&mut self) -> Option<Line<'a>>
        ensures { MatchOption result ((self.old ≡ []) × (self.new ≡ [])) (λ line. self.old ≡ line ∷ self.new) }
    {
        let words = self.words;
        let Some((mark, behind)) = self.marks.split_first() else {
            return None;
        };
        self.marks = behind;
        Some(line_at(words, *mark))
    }

    /// Takes so many lines away at the front.
    pub fn take_front(&mut self, count: usize) -> LineSlice<'a>
        requires { count ≤ length self.old }
        ensures front { result ≡ take count self.old }
        ensures behind { self.new ≡ drop count self.old }
    {
        let words = self.words;
        let (marks, behind) = self.marks.split_at(count);
        self.marks = behind;
        LineSlice { words, marks }
    }
}

fn line_at<'a>(words: &'a [Text], mark: Mark) -> Line<'a>
    requires { IsTrue (is_within (length words.now) mark.words) }
    ensures { result ≡ spec.line_at words.now mark }
{
    let Range { from, to } = mark.words;
    Line {
        number: mark.number,
        words: &words[from as usize..to as usize],
    }
}
