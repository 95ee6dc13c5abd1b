//! Ranges, by which words and lines are told before the buffer of the words is whole.

ghost use Rattle.std.specs.Prelude.{◌≡◌, IfOk};

use init_base::NoMemory;

/// A range of bytes or of words: from a place up to another one.
#[derive(Clone, Copy, Debug)]
pub struct Range {
    pub from: u32,
    pub to: u32,
}

/// A line that has ended.
#[derive(Clone, Copy, Debug)]
pub struct Mark {
    /// The physical line on which its first token begins, from 1.
    pub number: u32,
    /// Its words, among those of the file.
    pub words: Range,
}

/// A place, as ranges have it. One of 32 bits or more is want of memory.
pub fn place(at: usize) -> Result<u32, NoMemory>
    ensures { IfOk result (λ place. place ≡ at) }
{
    match u32::try_from(at) {
        Ok(place) => Ok(place),
        Err(_) => Err(NoMemory),
    }
}
