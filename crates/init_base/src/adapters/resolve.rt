//! Where a path leads through the links of a tree. The rules are in `specs/Resolve.antt`.

ghost use Rattle.std.specs.Prelude.{◌≡◌, ◌++◌, ◌∷◌, ◌==◌, position, true, IfOk, IfSome, OnOk, reverse};
ghost use Rattle.std.specs.List.{list_all};
ghost use Rattle.init_base.specs.Resolve.{AreDirectories, PassesNoLink, above, beginning, has_no_slash, is_below_root, leads_to, led, stretch, stopped, stepped, walked};
ghost use Rattle.init_base.specs.Resolve as spec;

use super::links::{LinkTree, Standing};
use super::machine::MachineRefusal;
use crate::list::List;
use crate::memory::NoMemory;
use crate::text::Text;
use std::alloc::Global;

/// How many stretches a walk has: 40 links may be followed, as on Linux, and it goes on behind the last.
const MAX_STRETCHES: u8 = 41;

/// What a path leads to.
#[derive(Clone, Copy)]
pub(crate) enum End {
    Directory,
    PlainFile,
    /// A file that is no plain one.
    Other,
    Nothing,
    /// A name was looked for in what is no directory.
    NotDirectory,
    TooManyLinks,
}

/// Where a path leads: the names from the root to the place, and what is there.
#[derive(Drop)]
pub(crate) struct Lead {
    pub(crate) place: List<Text>,
    pub(crate) end: End,
}

/// What ends a stretch of a walk.
#[derive(Drop)]
enum Stop {
    End(End),
    /// A link, and its target.
    Link(Text),
}

/// A walk through a tree: the names from the root to where it is, and the parts that are left, the next one last.
#[derive(Drop)]
struct Walk {
    place: List<Text>,
    left: List<Text>,
}

/// Where a path leads from a directory. `TooManyLinks` exactly where it leads over more than 40 links.
#[tactic(auto, using(crate::proofs::Walks::leads_first))]
pub(crate) fn resolve<T: LinkTree>(
    tree: &T,
    alloc: Global,
    from: &List<Text>,
    path: &[u8],
) -> Result<Lead, MachineRefusal>
    requires { is_below_root from.now ≡ true }
    ensures leads { IfSome (T.standing tree.now) (λ at.
        IfOk result (λ lead. led lead.place lead.end ≡ leads_to at from.now path.now)) }
    ensures plain { IfSome (T.standing tree.now) (λ at. AreDirectories at from.now →
        IfOk result (λ lead. PassesNoLink at lead.place lead.end)) }
    ensures below { IfOk result (λ lead. is_below_root lead.place ≡ true) }
{
    let mut walk = Walk {
        place: shared(alloc, from)?,
        left: List::new(alloc),
    };
    begin(alloc, &mut walk, path)?;
    'stretches: for _ in 0..MAX_STRETCHES {
        if let Some(end) = follow(tree, alloc, &mut walk)? {
            let place = walk.place;
            return Ok(Lead { place, end });
        }
    }
    Ok(Lead {
        place: walk.place,
        end: End::TooManyLinks,
    })
}

/// The same names.
pub(crate) fn shared(alloc: Global, names: &List<Text>) -> Result<List<Text>, NoMemory>
    ensures { IfOk result (λ copy. copy ≡ names.now) }
{
    let mut copy = List::new(alloc);
    for name in names.items() {
        copy.push(name.share()?)?;
    }
    Ok(copy)
}

/// Goes on with a path that is met where a walk is, and then with what is left.
#[tactic(auto, using(crate::proofs::Walks::whole_left))]
fn begin(alloc: Global, walk: &mut Walk, path: &[u8]) -> Result<(), NoMemory>
    requires left { list_all has_no_slash walk.old.left ≡ true }
    ensures place { OnOk result (walk.new.place ≡ beginning walk.old.place path.now) }
    ensures parts { OnOk result (reverse walk.new.left ≡ spec.parts_of path.now ++ reverse walk.old.left) }
    ensures left { OnOk result (list_all has_no_slash walk.new.left ≡ true) }
{
    if path.starts_with(b"/") {
        walk.place.truncate(0);
    }
    push_reversed(&mut walk.left, parts_of(alloc, path)?)
}

/// The parts of a path.
#[tactic(auto, using(crate::proofs::Walks::part_more, crate::proofs::Walks::one_part))]
pub(crate) fn parts_of(alloc: Global, path: &[u8]) -> Result<List<Text>, NoMemory>
    ensures { IfOk result (λ parts. parts ≡ spec.parts_of path.now) }
{
    let mut parts = List::new(alloc);
    let mut rest = path;
    while let Some(at) = slash_in(rest) {
        parts.push(Text::of(alloc, &rest[..at])?)?;
        rest = &rest[at + 1..];
    }
    parts.push(Text::of(alloc, rest)?)?;
    Ok(parts)
}

/// The place of the first slash.
fn slash_in(path: &[u8]) -> Option<usize>
    ensures { result ≡ position (λ byte. byte == 47) path.now }
{
    path.iter().position(|byte| *byte == b'/')
}

/// Adds texts at the end of a list, the last one first.
fn push_reversed(list: &mut List<Text>, mut texts: List<Text>) -> Result<(), NoMemory>
    ensures { OnOk result (list.new ≡ list.old ++ reverse texts) }
{
    while let Some(text) = texts.pop() {
        list.push(text)?;
    }
    Ok(())
}

/// Walks to the end, or to the next link and begins with its target. None where the walk goes on.
fn follow<T: LinkTree>(
    tree: &T,
    alloc: Global,
    walk: &mut Walk,
) -> Result<Option<End>, MachineRefusal>
    requires below { is_below_root walk.old.place ≡ true }
    requires left { list_all has_no_slash walk.old.left ≡ true }
    ensures end { IfSome (T.standing tree.now) (λ at. IfOk result (λ end.
        stretch at walk.old.place (reverse walk.old.left) ≡ walked end walk.new.place (reverse walk.new.left))) }
    ensures below { OnOk result (is_below_root walk.new.place ≡ true) }
    ensures left { OnOk result (list_all has_no_slash walk.new.left ≡ true) }
{
    match walk_on(tree, alloc, walk)? {
        Stop::End(end) => Ok(Some(end)),
        Stop::Link(target) => {
            begin(alloc, walk, target.bytes())?;
            Ok(None)
        }
    }
}

/// Walks to the next link, or to the end.
fn walk_on<T: LinkTree>(tree: &T, alloc: Global, walk: &mut Walk) -> Result<Stop, MachineRefusal>
    requires below { is_below_root walk.old.place ≡ true }
    requires left { list_all has_no_slash walk.old.left ≡ true }
    ensures stop { IfSome (T.standing tree.now) (λ at. IfOk result (λ stop.
        stretch at walk.old.place (reverse walk.old.left) ≡ stopped stop walk.new.place (reverse walk.new.left))) }
    ensures below { OnOk result (is_below_root walk.new.place ≡ true) }
    ensures left { OnOk result (list_all has_no_slash walk.new.left ≡ true) }
{
    while let Some(part) = walk.left.pop() {
        if let Some(stop) = step(tree, alloc, walk, part)? {
            return Ok(stop);
        }
    }
    Ok(Stop::End(End::Directory))
}

/// Walks one part on. None where the walk goes on.
#[tactic(auto, using(crate::proofs::Walks::above_below))]
fn step<T: LinkTree>(
    tree: &T,
    alloc: Global,
    walk: &mut Walk,
    part: Text,
) -> Result<Option<Stop>, MachineRefusal>
    requires below { is_below_root walk.old.place ≡ true }
    requires part { has_no_slash part ≡ true }
    ensures stop { IfSome (T.standing tree.now) (λ at. IfOk result (λ stop.
        stretch at walk.old.place (part ∷ reverse walk.old.left) ≡ stepped at stop walk.new.place (reverse walk.new.left))) }
    ensures below { OnOk result (is_below_root walk.new.place ≡ true) }
    ensures left { walk.new.left ≡ walk.old.left }
{
    if part.is_empty() || part.is(b".") {
        return Ok(None);
    }
    if part.is(b"..") {
        go_up(&mut walk.place);
        return Ok(None);
    }
    walk.place.push(part)?;
    let path = path_to(alloc, &walk.place)?;
    match tree.look_up(alloc, path.bytes())? {
        Standing::Directory => Ok(None),
        Standing::Nothing => Ok(Some(Stop::End(End::Nothing))),
        Standing::PlainFile => Ok(Some(Stop::End(file_end(End::PlainFile, &walk.left)))),
        Standing::Other => Ok(Some(Stop::End(file_end(End::Other, &walk.left)))),
        Standing::Link(target) => {
            go_up(&mut walk.place);
            Ok(Some(Stop::Link(target)))
        }
    }
}

/// Goes to the directory above. Above the root is the root.
fn go_up(place: &mut List<Text>)
    ensures { place.new ≡ above place.old }
{
    place.truncate(place.len().saturating_sub(1));
}

/// A file ends a walk: it has nothing below it.
#[tactic(auto, using(crate::proofs::Walks::file_is_no_end))]
fn file_end(file: End, left: &List<Text>) -> End
    ensures { result ≡ spec.file_end file (reverse left.now) }
{
    if left.is_empty() {
        file
    } else {
        End::NotDirectory
    }
}

/// The path of a place: a slash before each name.
pub(crate) fn path_to(alloc: Global, place: &List<Text>) -> Result<Text, NoMemory>
    ensures { IfOk result (λ path. path ≡ spec.path_to place.now) }
{
    let mut path = Vec::new(alloc);
    for name in place.items() {
        path.push(b'/')?;
        path.extend_from_slice(name.bytes())?;
    }
    Text::from_vec(path)
}
