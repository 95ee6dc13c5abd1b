//! Where the writer has noted that the cells of names lie: a walk for a noted name is saved.

ghost use Rattle.std.specs.Prelude.{◌≡◌, ℕ, List as Items, None, Some, OnOk, OnErr, if◌then◌else◌};
ghost use Rattle.std.specs.Str.{bytes_eq};
ghost use Rattle.property_area.specs.Places.{place_in, Notes};

use collections::{Spelled, TextKey};
use indexmap::IndexMap;
use init_base::NoMemory;
use std::alloc::Global;

/// The places of cells by their names. A place for which memory lacks isn't noted.
#[derive(Drop)]
pub(crate) struct Places {
    pub cells: Option<IndexMap<TextKey, usize>>,
    /// Whether each name that is in a set has its place.
    pub whole: bool,
}

impl Places {
    /// No places.
    pub fn new(whole: bool) -> Places
        ensures places { (name : Items ℕ) → place_in result name ≡ None }
        ensures whole { result.whole ≡ whole }
    {
        Places { cells: None, whole }
    }

    /// Gives the allocator from which places are noted.
    pub fn prepare(&mut self, alloc: Global)
        ensures places { (name : Items ℕ) → place_in self.new name ≡ place_in self.old name }
        ensures whole { self.new.whole ≡ self.old.whole }
    {
        if self.cells.is_none() {
            self.cells = Some(IndexMap::new(alloc));
        }
    }

    /// The place of a name's cell, where it is noted.
    pub fn find(&self, name: &[u8]) -> Option<usize>
        ensures { result ≡ place_in self.now name.now }
    {
        let place = self.cells.as_ref()?.get(Spelled { bytes: name })?;
        Some(*place)
    }

    /// Notes the place of a name's cell, or, where memory lacks, that not all are noted.
    pub fn note(&mut self, name: &[u8], place: usize)
        ensures { Notes self.old name.now place self.new }
    {
        if self.try_note(name, place).is_err() {
            self.whole = false;
        }
    }

    fn try_note(&mut self, name: &[u8], place: usize) -> Result<(), NoMemory>
        ensures noted { OnOk result ((other : Items ℕ)
            → place_in self.new other ≡ (if bytes_eq name.now other then Some place else place_in self.old other)) }
        ensures same { OnErr result ((other : Items ℕ) → place_in self.new other ≡ place_in self.old other) }
        ensures whole { self.new.whole ≡ self.old.whole }
    {
        let Some(cells) = &mut self.cells else {
            return Err(NoMemory);
        };
        let alloc = *cells.allocator();
        cells.insert(TextKey::of(alloc, name)?, place)?;
        Ok(())
    }
}
