//! What is read: the lines of a file.

ghost use Rattle.std.specs.Prelude.{◌≡◌, ◌∷◌, [], None, IfOk, IsTrue, length};
ghost use Rattle.rc_tokens.specs.internal.Ranges.{are_among, lines_at};

use crate::line::LineSlice;
use crate::range::{Mark, Range, place};
use init_base::{List, NoMemory, Text};
use std::alloc::Global;
use std::marker::Model;

/// The lines of a file. Their words stand in one list, of which each line is a range.
#[derive(Debug, Drop)]
pub struct Tokens {
    words: List<Text>,
    lines: List<Mark>,
    /// The number of the last line, where it was left out.
    dropped: Option<u32>,
}

impl Model for Tokens {
    ghost use Rattle.std.specs.Prelude.{IsTrue, length};
    ghost use Rattle.rc_tokens.specs.Lines.{Tokens};
    ghost use Rattle.rc_tokens.specs.internal.Ranges.{are_among, lines_at};

    ghost Value = { Tokens };

    ghost view = { λ t. record { lines = lines_at t.words t.lines; dropped = t.dropped } };

    ghost invariant = { λ t. IsTrue (are_among (length t.words) t.lines) };
}

impl Tokens {
    /// The lines of these marks, by their words.
    pub(crate) fn of(words: List<Text>, lines: List<Mark>, dropped: Option<u32>) -> Tokens
        requires { IsTrue (are_among (length words) lines) }
        ensures { result ≡ record { lines = lines_at words lines; dropped = dropped } }
    {
        Tokens {
            words,
            lines,
            dropped,
        }
    }

    /// No lines, as those of an empty file. It takes no memory.
    pub fn new(alloc: Global) -> Tokens
        ensures { result ≡ record { lines = []; dropped = None } }
    {
        Tokens::of(List::new(alloc), List::new(alloc), None)
    }

    /// One line alone, of this number and of these words.
    pub fn of_line(alloc: Global, number: u32, words: List<Text>) -> Result<Tokens, NoMemory>
        ensures { IfOk result (λ tokens. tokens ≡ record { lines = record { number = number; words = words } ∷ []; dropped = None }) }
    {
        let to = place(words.len())?;
        let mut lines = List::new(alloc);
        lines.push(Mark {
            number,
            words: Range { from: 0, to },
        })?;
        Ok(Tokens::of(words, lines, None))
    }

    pub fn lines(&self) -> LineSlice<'_>
        ensures { result ≡ self.now.lines }
    {
        LineSlice::of(self.words.items(), self.lines.items())
    }

    /// The number of the last line, where it was left out: the file ends in an open quote or after a lone backslash.
    pub fn dropped(&self) -> Option<u32>
        ensures { result ≡ self.now.dropped }
    {
        self.dropped
    }
}

/// Why a file wasn't read.
#[derive(Clone, Copy, Debug, PartialEq, Eq)]
pub enum TokenRefusal {
    /// It has more than 1,048,576 bytes.
    TooLarge,
    /// Memory ran out.
    NoMemory,
}

impl From<NoMemory> for TokenRefusal {
    ghost use Rattle.std.specs.Prelude.{◌≡◌};
    ghost use Rattle.rc_tokens.specs.declared.tokens.TokenRefusal.TheVariants as refusals;

    ghost from_gives = { λ _ refusal. refusal ≡ refusals.NoMemory };

    fn from(_: NoMemory) -> Self {
        TokenRefusal::NoMemory
    }
}
