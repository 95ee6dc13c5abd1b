//! The places of paths: each path at which something was ever made has one, by the order of the first making.
//!
//! A path is found from the root on, by two look-ups for each of its parts, so in time of its length. The places of some
//! texts of paths are noted, so that one of them is found by one comparison of its bytes.

use crate::noted::{Noted, slot_of};
use crate::path::is_path;
use collections::TextIndex;
use indexmap::{IndexMap, IndexSet};
use init_base::NoMemory;
use std::alloc::Global;
use std::marker::Model;

/// How a path is reached: from the place of its parent, by its last part. The root has no parent, and no part: its
/// number stands for nothing.
#[derive(Clone, Copy, PartialEq, Eq, Hash)]
struct Step {
    parent: Option<usize>,
    name: usize,
}

/// Paths that differ, each behind its parent. The root is the first.
#[derive(Drop)]
pub struct Places {
    names: TextIndex,
    steps: IndexSet<Step>,
    noted: IndexMap<u16, Noted>,
}

impl Model for Places {
    ghost use Rattle.std.specs.Prelude.{ℕ, List};

    ghost Value = { List (List (List ℕ)) };

    ghost use Rattle.std.specs.Prelude.{nat_eq};
    ghost use Rattle.indexmap.specs.IndexMap.{get};
    ghost use Rattle.model_fs.specs.internal.Steps.{paths_of, IsIndexed};

    ghost view = { λ places. paths_of places.names places.steps.keys };

    ghost invariant = { λ places. IsIndexed places.names places.steps.keys (get nat_eq places.noted) };
}

impl Places {
    ghost use Rattle.std.specs.Prelude.{◌≡◌, ◌<◌, ℕ, List as Items, [], ◌∷◌, ◌++◌, true, length, Some, None, OnOk, OnErr, IfOk, IfSome};
    ghost use Rattle.init_machine.specs.FileTree.{parts_of};
    ghost use Rattle.init_machine.specs.FileTree as spec;
    ghost use Rattle.model_fs.specs.internal.Steps.{place_of, with_path, AreDistinct};

    /// The place of the root alone.
    pub fn new(alloc: Global) -> Result<Places, NoMemory>
        ensures { IfOk result (λ places. places ≡ [] ∷ []) }
    {
        let names = TextIndex::new(alloc);
        let mut steps = IndexSet::new(alloc);
        steps.insert(Step {
            parent: None,
            name: 0,
        })?;
        let noted = IndexMap::new(alloc);
        Ok(Places {
            names,
            steps,
            noted,
        })
    }

    /// The place of the path that is a part behind the path of a place. A path behind one that has no place has none.
    pub fn child(&self, parent: Option<usize>, part: &[u8]) -> Option<usize>
        ensures place { (front : Items (Items ℕ)) → place_of self.now front ≡ parent
            → result ≡ place_of self.now (front ++ part.now ∷ []) }
        ensures none { parent ≡ None → result ≡ None }
        ensures behind { result ≡ None → (front more : Items (Items ℕ)) → place_of self.now front ≡ parent
            → place_of self.now (front ++ part.now ∷ more) ≡ None }
    {
        let (names, steps) = (&self.names, &self.steps);
        let parent = Some(parent?);
        let name = names.place(part)?;
        steps.get_index_of(&Step { parent, name })
    }

    /// The place that is noted of a text, which is then that of a path.
    pub fn noted(&self, text: &[u8]) -> Option<usize>
        ensures { IfSome result (λ place. (spec.is_path text.now ≡ true) × (place_of self.now (parts_of text.now) ≡ Some place)) }
    {
        let noted = self.noted.get(&slot_of(text))?;
        if noted.text.as_slice() == text {
            Some(noted.place)
        } else {
            None
        }
    }

    /// Notes the place of a path's text, unless there is no memory for it.
    pub fn note(&mut self, text: &[u8], place: usize)
        requires { place_of self.old (parts_of text.now) ≡ Some place }
        ensures { self.new ≡ self.old }
    {
        if !is_path(text) {
            return;
        }
        let alloc = *self.noted.allocator();
        let slot = slot_of(text);
        let Ok(text) = Vec::from_slice(alloc, text) else {
            return;
        };
        match self.noted.insert(slot, Noted { text, place }) {
            Ok(_) => {}
            Err(_) => {}
        }
    }

    /// Gives a place to the path that is a part behind the path of a place, unless it has one, and answers its place.
    pub fn add(&mut self, parent: usize, part: &[u8]) -> Result<usize, NoMemory>
        requires { parent < length self.old }
        ensures paths { OnOk result ((front : Items (Items ℕ)) → place_of self.old front ≡ Some parent
            → self.new ≡ with_path self.old (front ++ part.now ∷ [])) }
        ensures place { IfOk result (λ place. (front : Items (Items ℕ)) → place_of self.old front ≡ Some parent
            → place_of self.new (front ++ part.now ∷ []) ≡ Some place) }
        ensures err { OnErr result (self.new ≡ self.old) }
        ensures distinct { OnOk result (AreDistinct self.new) }
    {
        let name = self.names.add(part)?;
        let parent = Some(parent);
        let (place, _) = self.steps.insert_full(Step { parent, name })?;
        Ok(place)
    }
}
