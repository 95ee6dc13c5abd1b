//! What the writer has noted of the trie, so that its sets are made without walks: where cells lie, and where the nodes of each level do.

ghost use Rattle.std.specs.Prelude.{◌≡◌, ℕ, List as Items, length, nat_eq, None};
ghost use Rattle.init_machine.specs.Sets.{Set};
ghost use Rattle.property_area.specs.Places.{place_in};
ghost use Rattle.property_trie.specs.Levels.{AreLevels};

use crate::places::Places;
use property_trie::Levels;
use std::alloc::Global;

/// The index of a trie.
#[derive(Drop)]
pub(crate) struct Index {
    pub places: Places,
    pub levels: Levels,
}

impl Index {
    /// The index of a trie that has the names of so many sets. Of a trie with names it has noted nothing.
    pub fn of_sets(count: u64) -> Index
        ensures places { (name : Items ℕ) → place_in result.places name ≡ None }
        ensures whole { result.places.whole ≡ nat_eq count 0 }
        ensures levels { (sets : Items Set) → length sets ≡ count → AreLevels sets result.levels }
    {
        let is_empty = count == 0;
        Index {
            places: Places::new(is_empty),
            levels: if is_empty {
                Levels::new()
            } else {
                Levels::unknown()
            },
        }
    }

    /// Gives the allocator from which is noted.
    pub fn prepare(&mut self, alloc: Global)
        ensures places { (name : Items ℕ) → place_in self.new.places name ≡ place_in self.old.places name }
        ensures whole { self.new.places.whole ≡ self.old.places.whole }
        ensures levels { (sets : Items Set) → AreLevels sets self.old.levels → AreLevels sets self.new.levels }
    {
        self.places.prepare(alloc);
        self.levels.prepare(alloc);
    }
}
