//! The words of the command line, as the machine gives them.

use init_base::{List, NoMemory, Text};
use std::alloc::Global;
use std::env::{Env, FillError};

/// The bytes of the first buffer that is tried for a word.
const FIRST_BUFFER: usize = 256;

/// The words, whatever their bytes. The program's own name isn't read.
pub fn words_of<R: Env>(env: &R, alloc: Global) -> Result<List<Text>, NoMemory> {
    let mut words = List::new(alloc);
    for place in 1..usize::MAX {
        match word_at(env, alloc, place)? {
            Some(word) => words.push(word)?,
            None => break,
        }
    }
    Ok(words)
}

/// The word at this place, if there is one. The buffer is doubled until it fits.
fn word_at<R: Env>(env: &R, alloc: Global, place: usize) -> Result<Option<Text>, NoMemory> {
    let mut capacity = FIRST_BUFFER;
    for _ in 0..usize::BITS {
        let mut buffer = vec![in alloc; 0u8; capacity]?;
        match env.arg(place, buffer.as_mut_slice()) {
            Ok(count) => return Ok(Some(Text::of(alloc, &buffer[..count])?)),
            Err(FillError::NotPresent) => return Ok(None),
            Err(FillError::TooLong) => capacity = capacity.saturating_mul(2),
        }
    }
    Err(NoMemory)
}
