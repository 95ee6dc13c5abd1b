//! `Sets`: the sets of a history, each found by its name.

ghost use Rattle.std.specs.Prelude.{◌≡◌, ◌+◌, ◌++◌, ◌∷◌, ◌≤◌, ◌<◌, [], ℕ, Some, OnOk};
ghost use Rattle.std.specs.Prelude.{IfOk, MatchOption, length, List as Items};
ghost use Rattle.init_machine.specs.Sets.{NoneBetween};
ghost use Rattle.trace_audit.specs.Indexed.{IsIndexed, IsLastOf, SplitsAt, listed};

use collections::TextIndex;
use init_base::{List, NoMemory, Text};
use std::alloc::Global;

/// The sets of a history in order, and the places of each name's sets.
#[derive(Drop)]
pub struct Sets {
    pub pairs: Vec<(Text, Text)>,
    names: TextIndex,
    /// For each name the places of its sets, ascending.
    places: Vec<List<usize>>,
    ghost indexed: { IsIndexed pairs.items (length pairs.items) names places.items },
}

impl Sets {
    /// The sets of these names and values.
    pub fn of(alloc: Global, pairs: Vec<(Text, Text)>) -> Result<Sets, NoMemory>
        ensures { IfOk result (λ sets. sets.pairs.items ≡ pairs.items) }
    {
        let mut names = TextIndex::new(alloc);
        let mut places = Vec::new(alloc);
        for (place, pair) in pairs.iter().enumerate() {
            add_place(alloc, &mut names, &mut places, &pair.0, place)?;
        }
        Ok(Sets {
            pairs,
            names,
            places,
        })
    }

    /// The place of the last set of the name among the first so many. None exactly where none of them is of the name.
    pub fn last_before(&self, name: &Text, number: usize) -> Option<usize>
        requires { number ≤ length self.now.pairs.items }
        ensures { MatchOption result (NoneBetween self.now.pairs.items name.now 0 number)
            (λ place. IsLastOf self.now.pairs.items name.now number place) }
    {
        let places = self.places_of(name);
        let behind = split_at(places, number);
        if behind == 0 {
            return None;
        }
        Some(places[behind - 1])
    }

    /// The places of the sets of a name.
    fn places_of(&self, name: &Text) -> &[usize]
        ensures { result.now ≡ listed self.now.names self.now.places.items name.now }
    {
        match self.names.place(name.bytes()) {
            Some(id) => self.places[id].items(),
            None => &[],
        }
    }
}

/// Adds the place of one more set of a name.
fn add_place(
    alloc: Global,
    names: &mut TextIndex,
    places: &mut Vec<List<usize>>,
    name: &Text,
    place: usize,
) -> Result<(), NoMemory>
    requires { length names.old ≡ length places.old.items }
    ensures long { OnOk result (length names.new ≡ length places.new.items) }
    ensures own { OnOk result (listed names.new places.new.items name.now ≡ listed names.old places.old.items name.now ++ place ∷ []) }
    ensures others { OnOk result ((other : Items ℕ) → (other ≡ name.now → ⊥)
        → listed names.new places.new.items other ≡ listed names.old places.old.items other) }
{
    if let Some(id) = names.place(name.bytes()) {
        return places[id].push(place);
    }
    names.add(name.bytes())?;
    let mut own = List::new(alloc);
    own.push(place)?;
    places.push(own)?;
    Ok(())
}

/// How many of some places come before a number, where they ascend.
fn split_at(places: &[usize], number: usize) -> usize
    ensures { SplitsAt places.now number result }
{
    let (mut low, mut high) = (0, places.len());
    while low < high {
        let middle = low + (high - low) / 2;
        if places[middle] < number {
            low = middle + 1;
        } else {
            high = middle;
        }
    }
    low
}
