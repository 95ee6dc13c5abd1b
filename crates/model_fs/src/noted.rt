//! Texts whose places are noted, each in a slot of its own.

use std::hash::{FoldHasher, Hasher};

/// The number of slots.
const SLOTS: u64 = 1024;

/// The number of bytes from the end of a text that its slot depends on.
const TAIL: usize = 64;

/// The text of a path, and the path's place.
#[derive(Drop)]
pub struct Noted {
    pub text: Vec<u8>,
    pub place: usize,
}

/// The slot of a text, by its length and its last bytes. Of the texts of one slot only the last one is noted.
pub fn slot_of(text: &[u8]) -> u16 {
    let mut hasher = FoldHasher::default();
    hasher.write(&text[text.len().saturating_sub(TAIL)..]);
    hasher.write_usize(text.len());
    (hasher.finish() % SLOTS) as u16
}
