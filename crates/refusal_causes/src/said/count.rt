//! Numbers of words as they are printed.

use std::fmt;

/// How many words are wanted, and how many are given.
#[derive(Clone, Copy)]
pub(super) struct Count {
    pub wanted: usize,
    pub given: usize,
}

impl fmt::Display for Count {
    fn fmt<W: fmt::Write>(&self, f: &mut fmt::Formatter<W>) -> fmt::Result {
        match self.wanted {
            0 => f.write_str("no word")?,
            1 => f.write_str("1 word")?,
            wanted => write!(f, "{wanted} words")?,
        }
        match self.given {
            0 => f.write_str(", and none is given"),
            1 => f.write_str(", and 1 is given"),
            given => write!(f, ", and {given} are given"),
        }
    }
}
