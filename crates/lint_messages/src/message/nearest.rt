//! The known word that is nearest to a mistyped one.

use super::options::OPTIONS;
use init_base::NoMemory;
use init_machine::WORDS;
use lint_sources::{COMMANDS, OPTIONS as OTHER_OPTIONS};
use std::alloc::Global;
use strsim::generic_levenshtein;

/// A longer word is compared with none.
const MOST_BYTES: usize = 64;

/// The nearest word so far.
#[derive(Drop)]
struct Nearest<'a> {
    alloc: Global,
    word: &'a [u8],
    found: Option<&'static [u8]>,
    /// One more than the edits that may lead to the next word that is found.
    edits: usize,
}

impl<'a> Nearest<'a> {
    /// To none so far. A third of the word's bytes may differ, and one of a short word.
    fn new(alloc: Global, word: &'a [u8]) -> Nearest<'a> {
        Nearest {
            alloc,
            word,
            found: None,
            edits: (word.len().min(MOST_BYTES) / 3).max(1) + 1,
        }
    }

    /// Tries a known word.
    fn try_word(mut self, known: &'static [u8]) -> Result<Nearest<'a>, NoMemory> {
        if known.len().abs_diff(self.word.len()) >= self.edits {
            return Ok(self);
        }
        let edits = generic_levenshtein(self.alloc, known, self.word)?;
        if edits < self.edits {
            self.found = Some(known);
            self.edits = edits;
        }
        Ok(self)
    }

    fn try_headers(self) -> Result<Nearest<'a>, NoMemory> {
        self.try_word(b"on")?
            .try_word(b"service")?
            .try_word(b"import")
    }

    fn try_commands(self) -> Result<Nearest<'a>, NoMemory> {
        let mut nearest = self;
        for word in WORDS {
            nearest = nearest.try_word(word.name())?;
        }
        for word in COMMANDS {
            nearest = nearest.try_word(word)?;
        }
        Ok(nearest)
    }

    fn try_options(self) -> Result<Nearest<'a>, NoMemory> {
        let mut nearest = self;
        for (word, _) in OPTIONS {
            nearest = nearest.try_word(word)?;
        }
        for word in OTHER_OPTIONS {
            nearest = nearest.try_word(word)?;
        }
        Ok(nearest)
    }
}

/// The command that was meant.
pub fn nearest_command(alloc: Global, word: &[u8]) -> Result<Option<&'static [u8]>, NoMemory> {
    Ok(
        Nearest::new(alloc, word)
            .try_headers()?
            .try_commands()?
            .found,
    )
}

/// The option that was meant.
pub fn nearest_option(alloc: Global, word: &[u8]) -> Result<Option<&'static [u8]>, NoMemory> {
    Ok(
        Nearest::new(alloc, word)
            .try_headers()?
            .try_options()?
            .found,
    )
}

/// The word of a header that was meant.
pub fn nearest_header(alloc: Global, word: &[u8]) -> Result<Option<&'static [u8]>, NoMemory> {
    Ok(Nearest::new(alloc, word).try_headers()?.found)
}
