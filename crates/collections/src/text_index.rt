//! Texts in order, each with its place: the place of a text is found in time of the text's length.

ghost use Rattle.std.specs.Prelude.{◌≡◌, [], ◌∷◌, ◌++◌, length, position, if◌then◌else◌, Some, OnOk, OnErr, IfOk};
ghost use Rattle.std.specs.Str.{bytes_eq};
ghost use Rattle.collections.specs.Texts.{with_text};

use crate::key::{Spelled, TextKey};
use indexmap::IndexSet;
use init_base::NoMemory;
use std::alloc::Global;
use std::marker::Model;

/// Texts that differ, in the order in which they were added. It keeps the allocator that its constructor was given.
#[derive(Drop)]
pub struct TextIndex {
    texts: IndexSet<TextKey>,
}

impl Model for TextIndex {
    ghost use Rattle.std.specs.Prelude.{ℕ, List};

    ghost Value = { List (List ℕ) };

    ghost view = { λ index. index.texts.keys };
}

impl TextIndex {
    /// An index of no texts. It takes no memory.
    pub fn new(alloc: Global) -> TextIndex
        ensures { result ≡ [] }
    {
        TextIndex {
            texts: IndexSet::new(alloc),
        }
    }

    /// The number of texts.
    pub fn len(&self) -> usize
        ensures { result ≡ length self.now }
    {
        self.texts.len()
    }

    /// The place of a text. None exactly where it isn't there.
    pub fn place(&self, text: &[u8]) -> Option<usize>
        ensures { result ≡ position (bytes_eq text.now) self.now }
    {
        self.texts.get_index_of(Spelled { bytes: text })
    }

    /// Adds a text at the end, unless it is there, and answers its place.
    #[tactic(auto, using(crate::proofs::Places::held_stays))]
    pub fn add(&mut self, text: &[u8]) -> Result<usize, NoMemory>
        ensures texts { OnOk result (self.new ≡ with_text self.old text.now) }
        ensures place { IfOk result (λ place. position (bytes_eq text.now) self.new ≡ Some place) }
        ensures err { OnErr result (self.new ≡ self.old) }
    {
        if let Some(place) = self.place(text) {
            return Ok(place);
        }
        let alloc = *self.texts.allocator();
        let place = self.texts.len();
        self.texts.insert(TextKey::of(alloc, text)?)?;
        Ok(place)
    }
}
