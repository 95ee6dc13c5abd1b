//! The entries of a tree: what stands at each place, and how much stands right below it. The tree is what the rows of paths with
//! places show (`tree_of`).

ghost use Rattle.std.specs.Prelude.{◌≡◌, ◌+◌, ◌<◌, ◌≤◌, ◌^◌, true, Some, length, vec_len, vec_capacity};
ghost use Rattle.init_machine.specs.FileTree.{is_there};
ghost use Rattle.model_fs.specs.internal.Entries.{entry_at, grown, mode_changed, one_more, with_entry, with_node, without_entry};

use crate::node::{DIRECTORY_MODE, is_other, is_there, set_mode};
use crate::path::{is_path, is_path_behind, is_root, split_first, split_last};
use crate::places::Places;
use init_base::NoMemory;
use init_machine::Node;
use std::alloc::Global;
use std::marker::Model;

/// What stands at a place, if anything, and the number of places right below at which something stands.
#[derive(Drop)]
struct Entry {
    node: Option<Node>,
    children: usize,
}

/// Where a path leads: its place, if it has one, and whether a file or a link stands above it.
#[derive(Clone, Copy)]
struct Lead {
    at: Option<usize>,
    is_under_other: bool,
}

/// Where the front of a path leads: its place, if it has one, and whether a file or a link stands at it or above.
#[derive(Clone, Copy)]
struct Above {
    at: Option<usize>,
    has_other: bool,
}

/// Where a path leads, for one call: its place and that of its front, if they have one, whether a file or a link stands
/// above it, and whether the place of its front was noted.
#[derive(Clone, Copy)]
pub struct Walk {
    parent: Option<usize>,
    at: Option<usize>,
    pub is_under_other: bool,
    is_noted: bool,
}

/// What a call sees of a path: where it leads, and what stands there.
#[derive(Clone, Copy)]
pub struct Sight<'a> {
    pub walk: Walk,
    pub node: Option<&'a Node>,
}

/// What stands at paths.
#[derive(Drop)]
pub struct Entries {
    places: Places,
    entries: Vec<Entry>,
}

impl Model for Entries {
    ghost use Rattle.std.specs.Prelude.{List};
    ghost use Rattle.model_fs.specs.internal.Rows.{Row};

    ghost Value = { List Row };

    ghost use Rattle.model_fs.specs.internal.Entries.{shown, IsKept};

    ghost view = { λ t. shown t.places t.entries.items };

    ghost invariant = { λ t. IsKept t.places t.entries.items };
}

impl Entries {
    ghost use Rattle.std.specs.Prelude.{◌≡◌, ℕ, [], ◌∷◌, ◌++◌, List as Items, ◌&&◌, ◌||◌, true, false, Some, None, OnOk, IfOk, MatchOption, if◌then◌else◌};
    ghost use Rattle.std.specs.Option.{option_copied};
    ghost use Rattle.std.specs.List.{list_any};
    ghost use Rattle.init_machine.specs.FileTree.{first_tree, parts_of, is_directory, is_below};
    ghost use Rattle.init_machine.specs.FileTree as spec;
    ghost use Rattle.model_fs.specs.internal.Entries.{place_in, node_in, IsWalk};
    ghost use Rattle.model_fs.specs.internal.Rows as rows;
    ghost use Rattle.model_fs.specs.internal.Rows.{tree_of, put_node, with_parent, with_parents};

    /// The root directory alone.
    pub fn new(alloc: Global) -> Result<Entries, NoMemory>
        ensures { IfOk result (λ t. tree_of t ≡ first_tree) }
    {
        let mut entries = Vec::new(alloc);
        let mode = DIRECTORY_MODE;
        let node = Some(Node::Directory { mode });
        entries.push(Entry { node, children: 0 })?;
        let places = Places::new(alloc)?;
        Ok(Entries { places, entries })
    }

    /// What stands at a place.
    fn node(&self, at: Option<usize>) -> Option<&Node>
        ensures { (path : Items (Items ℕ)) → place_in self.now path ≡ at → option_copied result ≡ rows.node_at self.now path }
    {
        let entries = &self.entries;
        entries.get(at?)?.node.as_ref()
    }

    /// What a call sees of a path. None exactly where the text is that of no path.
    pub fn look(&self, path: &[u8]) -> Option<Sight<'_>>
        ensures { MatchOption result (spec.is_path path.now ≡ false) (λ sight. (spec.is_path path.now ≡ true) × IsWalk self.now
            (parts_of path.now) sight.walk × (option_copied sight.node ≡ spec.node_at (tree_of self.now) (parts_of path.now))) }
    {
        let walk = self.walk(path)?;
        let node = self.node(walk.at);
        Some(Sight { walk, node })
    }

    /// Where a path leads. None exactly where the text is that of no path.
    fn walk(&self, path: &[u8]) -> Option<Walk>
        ensures { MatchOption result (spec.is_path path.now ≡ false)
            (λ walk. (spec.is_path path.now ≡ true) × IsWalk self.now (parts_of path.now) walk) }
    {
        let Some((front, part)) = split_last(path) else {
            return self.walk_to_root(path);
        };
        let noted = self.places.noted(front);
        if !is_path_behind(path, front, part, noted.is_some()) {
            return None;
        }
        let above = self.above(front, noted);
        Some(Walk {
            parent: above.at,
            at: self.places.child(above.at, part),
            is_under_other: above.has_other,
            is_noted: noted.is_some(),
        })
    }

    /// Where the path of the root leads, which has no part.
    fn walk_to_root(&self, path: &[u8]) -> Option<Walk>
        requires { parts_of path.now ≡ [] }
        ensures { MatchOption result (spec.is_path path.now ≡ false)
            (λ walk. (spec.is_path path.now ≡ true) × IsWalk self.now (parts_of path.now) walk) }
    {
        let _ = &self.places;
        if !is_path(path) {
            return None;
        }
        Some(Walk {
            parent: None,
            at: Some(0),
            is_under_other: false,
            is_noted: true,
        })
    }

    /// Where the front of a path leads, of which the place may be known. Above what stands, directories alone stand.
    fn above(&self, front: &[u8], known: Option<usize>) -> Above
        requires { (at : ℕ) → known ≡ Some at → place_in self.now (parts_of front.now) ≡ Some at }
        ensures at { result.at ≡ place_in self.now (parts_of front.now) }
        ensures other { result.has_other
            ≡ (rows.is_under_other self.now (parts_of front.now) || spec.is_other (rows.node_at self.now (parts_of front.now))) }
    {
        let _ = &self.places;
        if let Some(at) = known {
            let node = self.node(Some(at));
            if is_there(node) {
                let has_other = is_other(node);
                return Above {
                    at: known,
                    has_other,
                };
            }
        }
        let lead = self.lead(front);
        let has_other = lead.is_under_other || is_other(self.node(lead.at));
        Above {
            at: lead.at,
            has_other,
        }
    }

    /// Where a path leads, by a look at each of its parts.
    fn lead(&self, path: &[u8]) -> Lead
        ensures at { result.at ≡ place_in self.now (parts_of path.now) }
        ensures under { result.is_under_other ≡ rows.is_under_other self.now (parts_of path.now) }
    {
        let _ = &self.places;
        self.lead_on(0, false, path)
    }

    /// Where the parts of a text lead on from a place, up to the first that has none.
    fn lead_on(&self, at: usize, is_under_other: bool, rest: &[u8]) -> Lead
        ensures at { (front : Items (Items ℕ)) → place_in self.now front ≡ Some at
            → result.at ≡ place_in self.now (front ++ parts_of rest.now) }
        ensures under { (front : Items (Items ℕ)) → place_in self.now front ≡ Some at
            → is_under_other ≡ rows.is_under_other self.now front
            → result.is_under_other ≡ rows.is_under_other self.now (front ++ parts_of rest.now) }
    {
        let Some((part, behind)) = split_first(rest) else {
            return Lead {
                at: Some(at),
                is_under_other,
            };
        };
        let is_under_other = is_under_other | is_other(self.node(Some(at)));
        match self.places.child(Some(at), part) {
            Some(next) => self.lead_on(next, is_under_other, behind),
            None => Lead {
                at: None,
                is_under_other,
            },
        }
    }

    /// What stands where a walk led.
    pub fn node_at(&self, path: &[u8], walk: Walk) -> Option<&Node>
        requires { IsWalk self.now (parts_of path.now) walk }
        ensures { option_copied result ≡ spec.node_at (tree_of self.now) (parts_of path.now) }
    {
        self.node(walk.at)
    }

    /// Whether something stands below the path. The root counts as full.
    pub fn is_full(&self, path: &[u8], walk: Walk) -> bool
        requires { IsWalk self.now (parts_of path.now) walk }
        ensures { result ≡ spec.is_full (tree_of self.now) (parts_of path.now) }
    {
        is_root(path) || self.has_children(walk.at)
    }

    /// Whether something stands below a place.
    fn has_children(&self, at: Option<usize>) -> bool
        ensures { (path : Items (Items ℕ)) → place_in self.now path ≡ at
            → result ≡ list_any (λ place. is_below path place.path) (tree_of self.now) }
    {
        let entries = &self.entries;
        let Some(at) = at else {
            return false;
        };
        match entries.get(at) {
            Some(entry) => entry.children > 0,
            None => false,
        }
    }

    /// Puts a node at the path, and makes the missing directories above it. A directory isn't replaced by something else.
    pub fn put(&mut self, path: &[u8], walk: Walk, node: Node) -> Result<(), NoMemory>
        requires walk { IsWalk self.old (parts_of path.now) walk }
        requires under { spec.is_under_other (tree_of self.old) (parts_of path.now) ≡ false }
        requires kept { is_directory (spec.node_at (tree_of self.old) (parts_of path.now)) ≡ true → is_directory (Some node) ≡ true }
        ensures { OnOk result (tree_of self.new
            ≡ spec.put_node (spec.with_parents (tree_of self.old) (parts_of path.now)) (parts_of path.now) node) }
    {
        let Some((front, part)) = split_last(path) else {
            self.put_root(node);
            return Ok(());
        };
        let parent = self.make_front(front, walk.parent)?;
        self.note(front, parent, walk.is_noted);
        self.put_child(parent, part, node)?;
        Ok(())
    }

    /// Notes the place of a path's front, where the walk found one that wasn't noted.
    pub fn remember(&mut self, path: &[u8], walk: Walk)
        requires { IsWalk self.old (parts_of path.now) walk }
        ensures { self.new ≡ self.old }
    {
        let Some((front, _)) = split_last(path) else {
            return;
        };
        if let Some(parent) = walk.parent {
            self.note(front, parent, walk.is_noted);
        }
    }

    /// Notes the place of a path, unless it was noted.
    fn note(&mut self, path: &[u8], at: usize, is_noted: bool)
        requires { place_in self.old (parts_of path.now) ≡ Some at }
        ensures { self.new ≡ self.old }
    {
        if !is_noted {
            self.places.note(path, at);
        }
    }

    /// Takes away what stands at the path. It isn't a directory below which something stands.
    pub fn remove(&mut self, path: &[u8], walk: Walk)
        requires walk { IsWalk self.old (parts_of path.now) walk }
        requires empty { (is_directory (spec.node_at (tree_of self.old) (parts_of path.now))
            && spec.is_full (tree_of self.old) (parts_of path.now)) ≡ false }
        ensures { tree_of self.new ≡ spec.without_path (tree_of self.old) (parts_of path.now) }
    {
        let _ = &self.places;
        if is_root(path) {
            return;
        }
        let Some(at) = walk.at else {
            return;
        };
        let Some(parent) = walk.parent else {
            return;
        };
        take_entry(&mut self.entries, at, parent);
    }

    /// Gives what stands at the path another mode.
    pub fn set_mode(&mut self, path: &[u8], walk: Walk, mode: u16)
        requires { IsWalk self.old (parts_of path.now) walk }
        ensures { tree_of self.new
            ≡ spec.change_mode (tree_of self.old) (parts_of path.now) mode (spec.node_at (tree_of self.old) (parts_of path.now)) }
    {
        let _ = path;
        if let Some(at) = walk.at {
            set_entry_mode(&mut self.entries, at, mode);
        }
    }

    /// Makes the missing directories at the front of a path and above it, where its place may be known, and answers its place.
    /// Above what stands, nothing is missing.
    fn make_front(&mut self, front: &[u8], known: Option<usize>) -> Result<usize, NoMemory>
        requires known { known ≡ place_in self.old (parts_of front.now) }
        requires under { rows.is_under_other self.old (parts_of front.now) ≡ false }
        requires other { spec.is_other (rows.node_at self.old (parts_of front.now)) ≡ false }
        ensures tree { OnOk result (self.new ≡ with_parent (with_parents self.old (parts_of front.now)) (parts_of front.now)) }
        ensures place { IfOk result (λ at. place_in self.new (parts_of front.now) ≡ Some at) }
        ensures directory { OnOk result (is_directory (rows.node_at self.new (parts_of front.now)) ≡ true) }
    {
        let _ = &self.places;
        if let Some(at) = known {
            if is_there(self.node(Some(at))) {
                return Ok(at);
            }
        }
        self.make_directories(front)
    }

    /// Puts a directory in the root's place.
    fn put_root(&mut self, node: Node)
        requires { is_directory (rows.node_at self.old []) ≡ true → is_directory (Some node) ≡ true }
        ensures { self.new ≡ put_node self.old [] node }
    {
        self.entries[0].node = Some(node);
    }

    /// Makes the missing directories at the path and above it, and answers the path's place.
    fn make_directories(&mut self, path: &[u8]) -> Result<usize, NoMemory>
        requires under { rows.is_under_other self.old (parts_of path.now) ≡ false }
        requires other { spec.is_other (rows.node_at self.old (parts_of path.now)) ≡ false }
        ensures tree { OnOk result (self.new ≡ with_parent (with_parents self.old (parts_of path.now)) (parts_of path.now)) }
        ensures place { IfOk result (λ at. place_in self.new (parts_of path.now) ≡ Some at) }
        ensures directory { OnOk result (is_directory (rows.node_at self.new (parts_of path.now)) ≡ true) }
    {
        let Some((front, part)) = split_last(path) else {
            return self.root();
        };
        let parent = self.make_directories(front)?;
        self.make_directory(parent, part)
    }

    /// Makes a directory that is a part behind a place, where nothing stands there, and answers its place.
    fn make_directory(&mut self, parent: usize, part: &[u8]) -> Result<usize, NoMemory>
        requires directory { is_directory (node_in self.old parent) ≡ true }
        requires other { (front : Items (Items ℕ)) → place_in self.old front ≡ Some parent
            → spec.is_other (rows.node_at self.old (front ++ part.now ∷ [])) ≡ false }
        ensures tree { OnOk result ((front : Items (Items ℕ)) → place_in self.old front ≡ Some parent
            → self.new ≡ with_parent self.old (front ++ part.now ∷ [])) }
        ensures place { IfOk result (λ at. (front : Items (Items ℕ)) → place_in self.old front ≡ Some parent
            → place_in self.new (front ++ part.now ∷ []) ≡ Some at) }
    {
        if let Some(at) = self.standing(parent, part) {
            return Ok(at);
        }
        let mode = DIRECTORY_MODE;
        self.put_child(parent, part, Node::Directory { mode })
    }

    /// The place of the path that is a part behind a place, where something stands there.
    fn standing(&self, parent: usize, part: &[u8]) -> Option<usize>
        ensures { (front : Items (Items ℕ)) → place_in self.now front ≡ Some parent → result ≡ (if spec.is_there
            (rows.node_at self.now (front ++ part.now ∷ [])) then place_in self.now (front ++ part.now ∷ []) else None) }
    {
        let at = self.places.child(Some(parent), part);
        if is_there(self.node(at)) { at } else { None }
    }

    /// Puts a node at the path that is a part behind a place, and answers its place.
    fn put_child(&mut self, parent: usize, part: &[u8], node: Node) -> Result<usize, NoMemory>
        requires directory { is_directory (node_in self.old parent) ≡ true }
        requires kept { (front : Items (Items ℕ)) → place_in self.old front ≡ Some parent
            → is_directory (rows.node_at self.old (front ++ part.now ∷ [])) ≡ true → is_directory (Some node) ≡ true }
        ensures tree { OnOk result ((front : Items (Items ℕ)) → place_in self.old front ≡ Some parent
            → self.new ≡ put_node self.old (front ++ part.now ∷ []) node) }
        ensures place { IfOk result (λ at. (front : Items (Items ℕ)) → place_in self.old front ≡ Some parent
            → place_in self.new (front ++ part.now ∷ []) ≡ Some at) }
    {
        self.entries.reserve(1)?;
        let at = self.places.add(parent, part)?;
        put_entry(&mut self.entries, at, parent, node);
        Ok(at)
    }

    /// The place of the root.
    fn root(&self) -> Result<usize, NoMemory>
        ensures tree { self.now ≡ with_parent self.now [] }
        ensures place { IfOk result (λ at. place_in self.now [] ≡ Some at) }
        ensures directory { is_directory (rows.node_at self.now []) ≡ true }
    {
        let _ = &self.places;
        Ok(0)
    }
}

/// Puts a node at a place, which may be the next one, right below another.
fn put_entry(entries: &mut Vec<Entry>, at: usize, parent: usize, node: Node)
    requires at { at ≤ length entries.old.items }
    requires room { vec_len entries.old < vec_capacity entries.old }
    requires parent { parent < length entries.old.items }
    requires fits { (entry_at entries.old.items parent).children + 1 < 2 ^ 64 }
    ensures { entries.new.items ≡ with_entry entries.old.items at parent (Some node) }
{
    grow(entries, at);
    count_new(entries, at, parent);
    entries[at].node = Some(node);
}

/// Makes room for an entry at the next place.
fn grow(entries: &mut Vec<Entry>, at: usize)
    requires at { at ≤ length entries.old.items }
    requires room { vec_len entries.old < vec_capacity entries.old }
    ensures { entries.new.items ≡ grown entries.old.items at }
{
    if at < entries.len() {
        return;
    }
    let node = None;
    match entries.push(Entry { node, children: 0 }) {
        Ok(()) => {}
        Err(_) => unreachable!(),
    }
}

/// Counts a node that is to stand at a place, where none stands yet, right below another.
fn count_new(entries: &mut Vec<Entry>, at: usize, parent: usize)
    requires at { at < length entries.old.items }
    requires parent { parent < length entries.old.items }
    requires fits { (entry_at entries.old.items parent).children + 1 < 2 ^ 64 }
    ensures { entries.new.items ≡ one_more entries.old.items at parent }
{
    if entries[at].node.is_none() {
        entries[parent].children += 1;
    }
}

/// Takes away what stands at a place, right below another.
fn take_entry(entries: &mut Vec<Entry>, at: usize, parent: usize)
    requires at { at < length entries.old.items }
    requires parent { parent < length entries.old.items }
    requires counted { is_there (entry_at entries.old.items at).node ≡ true → 0 < (entry_at entries.old.items parent).children }
    ensures { entries.new.items ≡ without_entry entries.old.items at parent }
{
    if entries[at].node.is_some() {
        entries[parent].children -= 1;
    }
    entries[at].node = None;
}

/// Gives what stands at a place another mode.
fn set_entry_mode(entries: &mut Vec<Entry>, at: usize, mode: u16)
    requires { at < length entries.old.items }
    ensures { entries.new.items ≡ with_node entries.old.items at (mode_changed mode (entry_at entries.old.items at).node) }
{
    if let Some(node) = &mut entries[at].node {
        set_mode(node, mode);
    }
}
