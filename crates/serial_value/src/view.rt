//! What a seat at a table with value cells knows. No value of these types is made: contracts alone see them.

use std::collections::LinkedList;

/// A name's or a value's bytes, as contracts see them.
pub type Bytes = LinkedList<u8>;

/// An accepted set: the name, and the value that it got.
pub type Set = (Bytes, Bytes);

/// The set that the writer is making at a linked cell, and how many of its 26 stores are done: 12 backup words, the
/// dirty serial, 12 value words. The last one, the clean serial, accepts it.
pub struct Making {
    pub name: Bytes,
    pub value: Bytes,
    pub place: u64,
    pub done: u64,
}

/// A read that has loaded the first serial, and the words that it has copied.
pub struct Copying {
    pub name: Bytes,
    pub place: u64,
    pub first: u64,
    pub words: LinkedList<u64>,
}

/// The part of a view that the steps at a cell are about.
pub enum CellView {
    /// The writer knows all accepted sets.
    Writer {
        sets: LinkedList<Set>,
        making: Option<Making>,
    },
    /// A reader knows that there are at least so many sets.
    Reader {
        number: u64,
        copying: Option<Copying>,
    },
}
