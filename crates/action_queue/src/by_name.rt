//! Places of actions by names.

ghost use Rattle.std.specs.Prelude.{◌≡◌, ◌++◌, ◌∷◌, [], ℕ, List as Items, false, OnOk, if◌then◌else◌};
ghost use Rattle.std.specs.Str.{bytes_eq};
ghost use Rattle.action_queue.specs.ByName.{places_of};

use collections::{Spelled, TextKey};
use indexmap::IndexMap;
use init_base::NoMemory;
use std::alloc::Global;

/// Lists of places, each under a name. A name without one has the empty list.
#[derive(Drop)]
pub struct PlacesByName {
    pub map: IndexMap<TextKey, Vec<usize>>,
}

/// No place under any name.
pub fn no_places(alloc: Global) -> PlacesByName
    ensures { (name : Items ℕ) → places_of result name ≡ [] }
{
    PlacesByName {
        map: IndexMap::new(alloc),
    }
}

/// The places under a name.
pub fn find<'a>(places: &'a PlacesByName, name: &[u8]) -> &'a [usize]
    ensures { result.now ≡ places_of places.entry.now name.now }
{
    match places.map.get(Spelled { bytes: name }) {
        Some(found) => found.as_slice(),
        None => &[],
    }
}

/// Adds a place at the end of those under a name.
pub fn add(alloc: Global, places: &mut PlacesByName, name: &[u8], at: usize) -> Result<(), NoMemory>
    ensures { OnOk result ((other : Items ℕ) → places_of places.new other
        ≡ (if bytes_eq name.now other then places_of places.old name.now ++ at ∷ [] else places_of places.old other)) }
{
    let mut found = take(alloc, places, name);
    found.push(at)?;
    places.map.insert(TextKey::of(alloc, name)?, found)?;
    Ok(())
}

/// Takes the places under a name away.
fn take(alloc: Global, places: &mut PlacesByName, name: &[u8]) -> Vec<usize>
    ensures found { result.items ≡ places_of places.old name.now }
    ensures others { (other : Items ℕ) → bytes_eq name.now other ≡ false
        → places_of places.new other ≡ places_of places.old other }
{
    match places.map.swap_remove(Spelled { bytes: name }) {
        Some(found) => found,
        None => Vec::new(alloc),
    }
}
