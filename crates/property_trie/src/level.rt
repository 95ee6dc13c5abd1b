//! One level of a trie: where its nodes lie. So the link to a node more is found in time of the logarithm of their count.

ghost use Rattle.std.specs.Prelude.{◌≡◌, ℕ, [], ◌∷◌, IfOk, IfSome, OnOk};
ghost use Rattle.std.specs.BTreeMap.{insert_entry};
ghost use Rattle.std.specs.Map.Iter.{deref_pair};
ghost use Rattle.std.specs.Option.{option_map};
ghost use Rattle.property_trie.specs.Parts.{compare_parts};
ghost use Rattle.property_trie.specs.Siblings.{IsFreeAt, free_link as free_link_of, node_before as node_before_of, node_from as node_from_of, with_node};
ghost use Rattle.property_trie.specs.Levels.{level_as};

use crate::part_key::PartKey;
use init_base::NoMemory;
use std::alloc::Global;
use std::cmp::Ordering;
use std::collections::BTreeMap;
use std::mem;

/// Where the links of a node stand to the siblings before it and behind it.
const BEFORE: usize = 1;

const BEHIND: usize = 2;

/// A level's nodes: their places by their parts. Most levels have one, for which no map is made.
#[derive(Drop)]
pub enum Nodes {
    Empty,
    One { part: PartKey, place: usize },
    Many(BTreeMap<PartKey, usize>),
}

/// The nodes of a level, and where the link to the first of them stands.
#[derive(Drop)]
pub struct Level {
    pub link: usize,
    pub nodes: Nodes,
}

impl Level {
    /// A level without nodes.
    pub fn empty(link: usize) -> Level
        ensures { level_as result ≡ record { link = link; nodes = [] } }
    {
        Level {
            link,
            nodes: Nodes::Empty,
        }
    }

    /// A level of one node.
    pub fn of_one(alloc: Global, link: usize, part: &[u8], place: usize) -> Result<Level, NoMemory>
        ensures { IfOk result (λ level. level_as level ≡ record { link = link; nodes = (part.now, place) ∷ [] }) }
    {
        let part = PartKey::of(alloc, part)?;
        Ok(Level {
            link,
            nodes: Nodes::One { part, place },
        })
    }

    /// Adds a node.
    pub fn add(&mut self, alloc: Global, part: &[u8], place: usize) -> Result<(), NoMemory>
        ensures { OnOk result (level_as self.new ≡ with_node part.now place (level_as self.old)) }
    {
        let part = PartKey::of(alloc, part)?;
        self.nodes = match mem::replace(&mut self.nodes, Nodes::Empty) {
            Nodes::Empty => Nodes::One { part, place },
            Nodes::One {
                part: first,
                place: at,
            } => Nodes::Many(map_of_two(alloc, (first, at), (part, place))?),
            Nodes::Many(mut places) => {
                places.insert(part, place)?;
                Nodes::Many(places)
            }
        };
        Ok(())
    }

    /// Where the link stands that would lead to a node of this part. None where the level has one, or memory lacks.
    pub fn link_of(&self, alloc: Global, part: &[u8]) -> Option<usize>
        ensures { IfSome result (IsFreeAt part.now (level_as self.now)) }
    {
        match &self.nodes {
            Nodes::Empty => Some(self.link),
            Nodes::One { part: only, place } => {
                let key = PartKey::of(alloc, part).ok()?;
                link_beside(&key, only, *place)
            }
            Nodes::Many(places) => {
                let key = PartKey::of(alloc, part).ok()?;
                link_among(self.link, &key, places)
            }
        }
    }
}

/// The places of two nodes.
fn map_of_two(
    alloc: Global,
    first: (PartKey, usize),
    second: (PartKey, usize),
) -> Result<BTreeMap<PartKey, usize>, NoMemory>
    ensures { IfOk result (λ places. places.entries ≡ insert_entry compare_parts (first ∷ []) second.0 second.1) }
{
    let mut places = BTreeMap::new(alloc);
    places.insert(first.0, first.1)?;
    places.insert(second.0, second.1)?;
    Ok(places)
}

/// Where the link stands that would lead to a node of this part, in a level of one node. None where that is it.
fn link_beside(key: &PartKey, only: &PartKey, place: usize) -> Option<usize>
    ensures { (link : ℕ) → IfSome result (IsFreeAt key.now (record { link = link; nodes = (only.now, place) ∷ [] })) }
{
    match key.cmp(only) {
        Ordering::Less => place.checked_add(BEFORE),
        Ordering::Equal => None,
        Ordering::Greater => place.checked_add(BEHIND),
    }
}

/// The same, in a level of many nodes.
fn link_among(link: usize, key: &PartKey, places: &BTreeMap<PartKey, usize>) -> Option<usize>
    ensures { IfSome result (IsFreeAt key.now (record { link = link; nodes = places.now.entries })) }
{
    let from = node_from(places, key);
    if let Some((next, _)) = from {
        if key.cmp(next) != Ordering::Less {
            return None;
        }
    }
    free_link(link, node_before(places, key), from)
}

/// The last node before a part.
fn node_before<'a>(
    places: &'a BTreeMap<PartKey, usize>,
    key: &PartKey,
) -> Option<(&'a PartKey, &'a usize)>
    ensures { option_map deref_pair result ≡ node_before_of key.now places.now.entries }
{
    places.range(..key).next_back()
}

/// The first node that isn't before a part.
fn node_from<'a>(
    places: &'a BTreeMap<PartKey, usize>,
    key: &PartKey,
) -> Option<(&'a PartKey, &'a usize)>
    ensures { option_map deref_pair result ≡ node_from_of key.now places.now.entries }
{
    places.range(key..).next()
}

/// The link that two neighbours leave free, which is that of the later of them, or that to the level where there are none.
fn free_link(
    link: usize,
    before: Option<(&PartKey, &usize)>,
    from: Option<(&PartKey, &usize)>,
) -> Option<usize>
    ensures { IfSome result (λ free. free ≡ free_link_of link (option_map deref_pair before.entry) (option_map deref_pair from.entry)) }
{
    match (before, from) {
        (None, None) => Some(link),
        (None, Some((_, next))) => next.checked_add(BEFORE),
        (Some((_, last)), None) => last.checked_add(BEHIND),
        (Some((_, last)), Some((_, next))) => {
            if *last < *next {
                next.checked_add(BEFORE)
            } else {
                last.checked_add(BEHIND)
            }
        }
    }
}
