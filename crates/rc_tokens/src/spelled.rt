//! What the bytes so far spell: all words in one buffer, of which they are ranges.

ghost use Rattle.std.specs.Prelude.{◌≡◌, [], ◌∷◌, ◌++◌, ◌↔◌, ◌<◌, ◌≤◌, ◌&&◌, IsTrue, IfOk, OnOk, length, drop, nat_le};
ghost use Rattle.std.specs.List.{list_all};
ghost use Rattle.rc_tokens.specs.internal.Ranges.{is_within, words_at};

use crate::range::{Mark, Range, place};
use crate::span::SpanTokens;
use init_base::{List, NoMemory, Text};
use std::alloc::Global;
use std::marker::Model;

/// The lines that have ended, the words of the present line that have ended, and the present token.
#[derive(Drop)]
pub struct Spelled {
    /// What all words spell, one behind another, and behind them the present token.
    bytes: Vec<u8>,
    /// Where the present token begins in `bytes`.
    token_from: u32,
    words: List<Range>,
    /// Where the present line begins in `words`.
    line_from: u32,
    lines: List<Mark>,
}

impl Model for Spelled {
    ghost use Rattle.rc_tokens.specs.internal.Ranges.{AreWithin, Spelling, spelling_of};

    ghost Value = { Spelling };

    ghost view = { λ s. spelling_of s.bytes.items s.token_from s.words s.line_from s.lines };

    ghost invariant = { λ s. AreWithin s.bytes.items s.token_from s.words s.line_from s.lines };
}

impl Spelled {
    /// Nothing, with room for so many bytes.
    pub fn new(alloc: Global, room: usize) -> Result<Spelled, NoMemory>
        ensures { IfOk result (λ s. s ≡ record { lines = []; words = []; token = [] }) }
    {
        Ok(Spelled {
            bytes: Vec::with_capacity(alloc, room)?,
            token_from: 0,
            words: List::new(alloc),
            line_from: 0,
            lines: List::new(alloc),
        })
    }

    /// Adds a byte to the present token.
    pub fn spell(&mut self, byte: u8) -> Result<(), NoMemory>
        ensures { OnOk result (self.new ≡ record self.old { token = self.old.token ++ byte ∷ [] }) }
    {
        self.bytes.push(byte)?;
        Ok(())
    }

    /// Adds bytes to the present token.
    pub fn extend(&mut self, bytes: &[u8]) -> Result<(), NoMemory>
        ensures { OnOk result (self.new ≡ record self.old { token = self.old.token ++ bytes.now }) }
    {
        self.bytes.extend_from_slice(bytes)?;
        Ok(())
    }

    /// Whether the present token spells nothing so far.
    pub fn is_token_empty(&self) -> bool
        ensures { IsTrue result ↔ (self.now.token ≡ []) }
    {
        self.token_from as usize == self.bytes.len()
    }

    /// Whether no word of the present line has ended.
    pub fn is_line_empty(&self) -> bool
        ensures { IsTrue result ↔ (self.now.words ≡ []) }
    {
        self.line_from as usize == self.words.len()
    }

    /// The present token is a word of the present line.
    pub fn end_word(&mut self) -> Result<(), NoMemory>
        ensures { OnOk result (self.new ≡ record self.old { words = self.old.words ++ self.old.token ∷ []; token = [] }) }
    {
        let to = place(self.bytes.len())?;
        self.words.push(Range {
            from: self.token_from,
            to,
        })?;
        self.token_from = to;
        Ok(())
    }

    /// The words of the present line are a line of this number.
    pub fn end_line(&mut self, number: u32) -> Result<(), NoMemory>
        ensures { OnOk result (self.new
            ≡ record self.old { lines = self.old.lines ++ record { number = number; words = self.old.words } ∷ []; words = [] }) }
    {
        let to = place(self.words.len())?;
        let words = Range {
            from: self.line_from,
            to,
        };
        self.lines.push(Mark { number, words })?;
        self.line_from = to;
        Ok(())
    }

    /// The lines that have ended, and the number of one that is left out.
    pub fn into_tokens(self, dropped: Option<u32>) -> Result<SpanTokens, NoMemory>
        ensures { IfOk result (λ tokens. tokens ≡ record { lines = self.lines; dropped = dropped }) }
    {
        let buffer = Text::from_vec(self.bytes)?;
        Ok(SpanTokens::of(buffer, self.words, self.lines, dropped))
    }
}
