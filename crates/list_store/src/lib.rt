//! `ListStore`: the plain store of properties, a map that keeps the order of the first sets, and beside it the set of
//! the names' dotted prefixes. Each call takes the time of its name, however many names there are.
//!
//! It meets `PropStore`: a set changes the map at its name alone. Its meaning is `stored` of `specs/internal/ListStore.antt`.
//! It doesn't tell the list of the sets. The words in use are kept as a number, and the memory of a set is taken by
//! `reserve`, so that `put` can't fail.
#![tactic(auto)]

mod entries;
mod held;
mod name;
mod nodes;

use entries::{look_up, need_if_absent, number_of, set};
use held::Held;
use indexmap::{IndexMap, IndexSet};
use init_base::{NoMemory, PropName, PropValue};
use init_machine::{Full, PropStore, check_numbers, check_room, has_room_for_any};
use name::Name;
use std::alloc::Global;
use std::marker::Model;

/// The words in use before the first set.
const HEAD_WORDS: u64 = 16;

/// The most bytes of any value.
const MOST_VALUE_BYTES: usize = 8191;

/// More than the dotted prefixes of any name.
const MAX_PREFIXES: usize = 256;

/// The plain store of properties. It keeps the allocator that its constructor was given.
#[derive(Drop)]
pub struct ListStore {
    held: IndexMap<Name, Held>,
    prefixes: IndexSet<Name>,
    /// Where a long value goes that is set next.
    buffer: Option<Vec<u8>>,
    used: u64,
    count: u64,
    capacity: u64,
}

impl Model for ListStore {
    ghost use Rattle.list_store.specs.internal.Stored.{Stored};

    ghost Value = { Stored };

    ghost use Rattle.list_store.specs.internal.ListStore.{stored, IsCounted};

    ghost view = { stored };

    ghost invariant = { IsCounted };
}

impl ListStore {
    ghost use Rattle.std.specs.Prelude.{◌≡◌, [], IfOk};

    /// The empty store, of a capacity in words.
    #[tactic(auto, unfolding(init_machine::specs::Words::used_of))]
    pub fn new(alloc: Global, capacity: u64) -> Result<ListStore, NoMemory>
        ensures { IfOk result (λ s. s.props ≡ record { held = []; count = 0; capacity = capacity }) }
    {
        Ok(ListStore {
            held: IndexMap::new(alloc),
            prefixes: IndexSet::new(alloc),
            buffer: None,
            used: HEAD_WORDS,
            count: 0,
            capacity,
        })
    }
}

impl PropStore for ListStore {
    ghost use Rattle.std.specs.Prelude.{◌≡◌, ℕ, List, None, refl};
    ghost use Rattle.std.proofs.Common.{◌∙◌};
    ghost use Rattle.list_store.specs.internal.Stored.{Stored};

    ghost meaning = { λ s. s.props };

    ghost told = { λ _. None };

    ghost spare = { λ s. s.spare };

    ghost Beside = { λ s t. s.props.capacity ≡ t.props.capacity };

    fn get(&mut self, name: PropName<'_>, out: &mut [u8]) -> Option<(usize, u64)> {
        look_up(&self.held, name.bytes(), out)
    }

    fn number_of(&mut self, name: PropName<'_>) -> Option<u64> {
        number_of(&self.held, name.bytes())
    }

    fn count(&self) -> u64 {
        self.count
    }

    fn used(&self) -> u64 {
        self.used
    }

    fn room(&mut self, name: PropName<'_>, len: usize) -> Result<(), Full> {
        if has_room_for_any(self.used, len, self.capacity) {
            return check_numbers(self.count);
        }
        let need = need_if_absent(&self.held, &self.prefixes, name.bytes(), len);
        check_room(need, self.used, self.capacity, self.count)
    }

    fn reserve(&mut self, alloc: Global) -> Result<(), NoMemory> {
        self.held.reserve(1)?;
        self.prefixes.reserve(MAX_PREFIXES)?;
        if self.buffer.is_none() {
            self.buffer = Some(Vec::with_capacity(alloc, MOST_VALUE_BYTES)?);
        }
        Ok(())
    }

    fn put(&mut self, name: PropName<'_>, value: PropValue<'_>) -> u64 {
        let number = self.count + 1;
        let held = Held::new(value, number, &mut self.buffer);
        self.used += set(&mut self.held, &mut self.prefixes, name.bytes(), held);
        self.count = number;
        number
    }

    ghost reflexive = { λ s. refl };

    ghost transitive = { λ s t u a b. a ∙ b };
}
