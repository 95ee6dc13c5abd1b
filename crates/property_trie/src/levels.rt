//! The levels of a trie, as far as they are noted: where each node of a level lies. So the link to the first node that a name misses is
//! found without a walk, wherever it goes among its siblings, which are a chain of nodes if they came in their order.
//!
//! `specs/Siblings.antt` says which link two siblings leave free, and `specs/Levels.antt` what is noted. Where memory lacks, or a part
//! isn't where it should be, nothing is noted from then on.

ghost use Rattle.std.specs.Prelude.{◌≡◌, ◌≤◌, ◌<◌, ◌+◌, ◌++◌, ◌∷◌, ◌^◌, ℕ, List as Items, Option as Maybe, [], drop, length, OnOk, IfSome, IsTrue, None, Some, false, if◌then◌else◌};
ghost use Rattle.std.specs.HashMap.{get_by};
ghost use Rattle.std.specs.Option.{option_copied, option_map};
ghost use Rattle.std.specs.Str.{bytes_eq};
ghost use Rattle.init_machine.specs.Sets.{Set};
ghost use Rattle.property_trie.specs.Siblings.{with_node};
ghost use Rattle.property_trie.specs.Levels.{level_as, level_noted, noted_at, noted_below, AreLevels, BeginsPart, ChangesLevel, Grows, LinkedAt};
ghost use Rattle.property_trie.specs.Levels as spec;

use crate::level::Level;
use crate::part::node_size;
use crate::walk::part_len;
use collections::{Spelled, TextKey};
use indexmap::IndexMap;
use init_base::NoMemory;
use std::alloc::Global;

/// The byte between two parts.
const DOT: u8 = b'.';

/// Where the link of a node to its children stands.
const CHILDREN: usize = 3;

/// The levels that are noted: that at the top, and those below the fronts of names.
#[derive(Drop)]
pub struct Levels {
    pub top: Option<Level>,
    pub below: Option<IndexMap<TextKey, Level>>,
}

/// The front of a name before the part that begins at this byte.
fn front_of(name: &[u8], from: usize) -> Option<&[u8]>
    requires { from ≤ length name.now }
    ensures { option_copied result ≡ spec.front_of from name.now }
{
    if from == 0 {
        return None;
    }
    Some(&name[..from - 1])
}

/// Where the last part of a text begins.
fn last_start(text: &[u8]) -> usize
    ensures inside { result ≤ length text.now }
    ensures begins { BeginsPart text.now result }
{
    match text.iter().rposition(|b| *b == DOT) {
        Some(at) => at + 1,
        None => 0,
    }
}

/// Whether a part of the name begins at this byte.
fn begins_part(name: &[u8], from: usize) -> bool
    requires { from ≤ length name.now }
    ensures { IsTrue result → BeginsPart name.now from }
{
    from == 0 || name[from - 1] == DOT
}

impl Levels {
    /// Those of a trie without names.
    pub fn new() -> Levels
        ensures { AreLevels [] result }
    {
        Levels {
            top: Some(Level::empty(1)),
            below: None,
        }
    }

    /// None is noted.
    pub fn unknown() -> Levels
        ensures { (sets : Items Set) → AreLevels sets result }
    {
        Levels {
            top: None,
            below: None,
        }
    }

    /// Gives the allocator from which levels are noted.
    pub fn prepare(&mut self, alloc: Global)
        ensures top { self.new.top ≡ self.old.top }
        ensures below { (front : Items ℕ) → noted_below self.new.below front ≡ noted_below self.old.below front }
    {
        if self.below.is_none() {
            self.below = Some(IndexMap::new(alloc));
        }
    }

    /// What is noted of the level below a front.
    fn level(&self, front: Option<&[u8]>) -> Option<&Level>
        ensures { option_copied result ≡ noted_at self.now (option_copied front.entry) }
    {
        match front {
            None => self.top.as_ref(),
            Some(front) => self.below.as_ref()?.get(Spelled { bytes: front }),
        }
    }

    /// Notes the level below a front.
    fn put(&mut self, front: &[u8], level: Level) -> Result<(), NoMemory>
        ensures top { OnOk result (self.new.top ≡ self.old.top) }
        ensures below { OnOk result ((other : Items ℕ) → noted_below self.new.below other
            ≡ (if bytes_eq front.now other then Some level else noted_below self.old.below other)) }
    {
        let Some(below) = &mut self.below else {
            return Err(NoMemory);
        };
        let alloc = *below.allocator();
        below.insert(TextKey::of(alloc, front)?, level)?;
        Ok(())
    }

    /// Adds a node to the level below a front, where that is noted.
    fn add(
        &mut self,
        alloc: Global,
        front: Option<&[u8]>,
        part: &[u8],
        place: usize,
    ) -> Result<(), NoMemory>
        ensures { OnOk result (ChangesLevel (option_copied front.entry)
            (option_map (with_node part.now place) (level_noted self.old (option_copied front.entry))) self.old self.new) }
    {
        let Some(front) = front else {
            let Some(level) = &mut self.top else {
                return Ok(());
            };
            return level.add(alloc, part, place);
        };
        let Some(below) = &mut self.below else {
            return Ok(());
        };
        add_below(below, alloc, front, part, place)
    }

    /// Where the link stands that would lead to the first node that a name misses, and the byte from which on its parts have none.
    /// None where nothing is missed but a cell, or the level isn't noted, or memory lacks.
    pub fn missing(&self, name: &[u8]) -> Option<(usize, usize)>
        ensures { IfSome result (λ found. (sets : Items Set) → AreLevels sets self.now → LinkedAt sets name.now found.1 found.0) }
    {
        let alloc = *self.below.as_ref()?.allocator();
        let mut from = last_start(name);
        'fronts: loop {
            if let Some(level) = self.level(front_of(name, from)) {
                let rest = &name[from..];
                let link = level.link_of(alloc, &rest[..part_len(rest)])?;
                return Some((link, from));
            }
            if from == 0 {
                return None;
            }
            from = last_start(&name[..from - 1]);
        }
    }

    /// Notes what a name changes that missed the nodes of its parts from this byte on, of which the first lies at this word. Where
    /// memory lacks, nothing is noted any more.
    pub fn grow(&mut self, name: &[u8], from: usize, mark: usize)
        requires name { length name.now ≤ 255 }
        requires within { from ≤ length name.now }
        requires mark { mark < 2 ^ 32 }
        ensures { (sets : Items Set) (value : Items ℕ) → Grows sets name.now from mark → AreLevels sets self.old
            → AreLevels (sets ++ (name.now, value) ∷ []) self.new }
    {
        if self.try_grow(name, from, mark).is_err() {
            *self = Levels::unknown();
        }
    }

    fn try_grow(&mut self, name: &[u8], from: usize, mark: usize) -> Result<(), NoMemory>
        requires name { length name.now ≤ 255 }
        requires within { from ≤ length name.now }
        requires mark { mark < 2 ^ 32 }
        ensures { OnOk result ((sets : Items Set) (value : Items ℕ) → Grows sets name.now from mark → AreLevels sets self.old
            → AreLevels (sets ++ (name.now, value) ∷ []) self.new) }
    {
        let Some(below) = &self.below else {
            return Err(NoMemory);
        };
        let alloc = *below.allocator();
        if !begins_part(name, from) {
            return Err(NoMemory);
        }
        self.extend(alloc, name, from, mark)?;
        self.add_new(alloc, name, from, mark)?;
        Ok(())
    }

    /// Notes what the first new node changes of its level.
    fn extend(
        &mut self,
        alloc: Global,
        name: &[u8],
        from: usize,
        mark: usize,
    ) -> Result<(), NoMemory>
        requires within { from ≤ length name.now }
        requires begins { BeginsPart name.now from }
        ensures { OnOk result ((sets : Items Set) (value : Items ℕ) → Grows sets name.now from mark → AreLevels sets self.old
            → AreLevels (sets ++ (name.now, value) ∷ []) self.new) }
    {
        let rest = &name[from..];
        let part = &rest[..part_len(rest)];
        let front = front_of(name, from);
        self.add(alloc, front, part, mark)?;
        Ok(())
    }

    /// Notes the levels of the new nodes.
    fn add_new(
        &mut self,
        alloc: Global,
        name: &[u8],
        first: usize,
        mark: usize,
    ) -> Result<(), NoMemory>
        requires name { length name.now ≤ 255 }
        requires within { first ≤ length name.now }
        requires begins { BeginsPart name.now first }
        requires mark { mark < 2 ^ 32 }
        ensures { OnOk result ((sets : Items Set) (value : Items ℕ) → Grows sets name.now first mark
            → AreLevels (sets ++ (name.now, value) ∷ []) self.old → AreLevels (sets ++ (name.now, value) ∷ []) self.new) }
    {
        let mut from = first;
        let mut place = mark;
        'parts: loop {
            let rest = &name[from..];
            let len = part_len(rest);
            let end = from + len;
            let link = place + CHILDREN;
            if end == name.len() {
                self.put(&name[..end], Level::empty(link))?;
                return Ok(());
            }
            if !begins_part(name, end + 1) {
                return Err(NoMemory);
            }
            let next = &name[end + 1..];
            let free = place + node_size(&rest[..len]);
            let level = Level::of_one(alloc, link, &next[..part_len(next)], free)?;
            self.put(&name[..end], level)?;
            from = end + 1;
            place = free;
        }
    }
}

/// Adds a node to the level below a front, where that is noted.
fn add_below(
    below: &mut IndexMap<TextKey, Level>,
    alloc: Global,
    front: &[u8],
    part: &[u8],
    place: usize,
) -> Result<(), NoMemory>
    ensures own { OnOk result (option_map level_as (get_by (bytes_eq front.now) below.new)
        ≡ option_map (with_node part.now place) (option_map level_as (get_by (bytes_eq front.now) below.old))) }
    ensures others { OnOk result ((other : Items ℕ) → bytes_eq front.now other ≡ false
        → get_by (bytes_eq other) below.new ≡ get_by (bytes_eq other) below.old) }
{
    let Some(level) = below.get_mut(Spelled { bytes: front }) else {
        return Ok(());
    };
    level.add(alloc, part, place)
}
