//! First in, first out: values that wait in line.

ghost use Rattle.std.specs.Prelude.{◌≡◌, ◌≢◌, [], ◌∷◌, ◌++◌, ◌↔◌, OnOk, OnErr, MatchOption, length, drop, slice_get, IsTrue};
ghost use Rattle.std.specs.Option.{option_copied};

use crate::memory::NoMemory;
use std::alloc::Global;
use std::collections::VecDeque;
use std::marker::Model;

/// Values in line: the first in is the first out. Each call but `push`, which may copy them, takes the same time
/// however many there are.
#[derive(Debug, Drop)]
pub struct Fifo<T> {
    items: VecDeque<T>,
}

impl<T> Model for Fifo<T> {
    ghost use Rattle.std.specs.Prelude.{List};

    ghost Value = { List T };

    ghost view = { λ f. f.items.items };
}

impl<T> Fifo<T> {
    /// An empty line. It takes no memory.
    pub fn new(alloc: Global) -> Self
        ensures { result ≡ [] }
    {
        Fifo {
            items: VecDeque::new(alloc),
        }
    }

    /// The number of values.
    pub fn len(&self) -> usize
        ensures { result ≡ length self.now }
    {
        self.items.len()
    }

    pub fn is_empty(&self) -> bool
        ensures { IsTrue result ↔ (self.now ≡ []) }
    {
        self.items.is_empty()
    }

    /// The first value. None exactly where the line is empty.
    pub fn first(&self) -> Option<&T>
        ensures { option_copied result ≡ slice_get self.now 0 }
    {
        if self.items.is_empty() {
            None
        } else {
            Some(&self.items[0])
        }
    }

    /// Takes the first value away. None exactly where the line is empty.
    pub fn pop(&mut self) -> Option<T>
        ensures { MatchOption result ((self.old ≡ []) × (self.new ≡ [])) (λ first. self.old ≡ first ∷ self.new) }
    {
        self.items.pop_front()
    }

    /// Puts a value in the place of the first, which goes.
    pub fn set_first(&mut self, item: T)
    where
        T: Drop,
        requires { self.old ≢ [] }
        ensures { self.new ≡ item ∷ drop 1 self.old }
    {
        self.items[0] = item;
    }
}

impl<T: Drop> Fifo<T> {
    /// Adds a value at the end.
    #[inline(always)]
    pub fn push(&mut self, item: T) -> Result<(), NoMemory>
        ensures ok { OnOk result (self.new ≡ self.old ++ item ∷ []) }
        ensures err { OnErr result (self.new ≡ self.old) }
    {
        self.items.push_back(item)?;
        Ok(())
    }
}
