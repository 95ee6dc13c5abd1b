//! Following imports: a file is followed by all that its imports lead to. The order is that of `specs/Order.antt`; the calls
//! end, since each level of imports has one less below it.

ghost use Rattle.std.specs.Prelude.{◌≡◌, ◌∷◌, [], IfOk};
ghost use Rattle.std.specs.List.{flat_map};
ghost use Rattle.init_base.specs.Faults.{Counted};
ghost use Rattle.init_base.specs.Tree.{file_at};
ghost use Rattle.init_machine.specs.Props.{value_in};
ghost use Rattle.rc_import.specs.Answers.{HasItsNumber, is_read_fault};
ghost use Rattle.rc_import.specs.Order.{at_expanded, at_file, at_import, at_path, at_target, fault};
ghost use Rattle.rc_import.specs.Paths as spec;
ghost use Rattle.rc_import.specs.Stores.{IsKept};
ghost use Rattle.rc_import.specs.internal.Steps.{Follows, FollowsFile};

use crate::gathers::Gathers;
use crate::listing::list;
use crate::loaded::LoadRefusal;
use crate::loading::Loading;
use crate::path::{bare, expanded, file_in, is_absolute};
use crate::place::Place;
use init_base::{Files, List, Text};
use init_machine::{DiagKind, PropStore};
use rc_parse::Import;
use std::alloc::Global;

/// Reads the file of a place, and all that its imports lead to. It answers whether the file is there.
#[cycle(imports)]
pub fn follow_file<F: Files, S: PropStore, G: Gathers>(
    alloc: Global,
    files: &mut F,
    props: &mut S,
    loading: Loading<G>,
    place: &Place,
) -> Result<(Loading<G>, bool), LoadRefusal>
    ensures order { FollowsFile G.holds (F.tree files.old) (value_in (S.meaning props.old)) loading result
        (λ world. at_file world (at_target world place.now.left place.now.trail place.now.file) [] place.now.file
        (file_at world.tree place.now.file)) place.now.file }
    ensures number { HasItsNumber result }
    ensures tree { F.tree files.new ≡ F.tree files.old }
    ensures cause { Counted (is_read_fault result) (F.fault_count files.old) (F.fault_count files.new) }
    ensures store { IsKept S.meaning S.told S.spare S.Beside props.old props.new }
{
    let (loading, imports) = loading.read(alloc, files, &place.file)?;
    let Some(imports) = imports else {
        return Ok((loading, false));
    };
    let loading = follow_imports(alloc, files, props, loading, place, imports)?;
    Ok((loading, true))
}

/// Follows the imports of a file, one after another.
#[cycle(imports)]
fn follow_imports<F: Files, S: PropStore, G: Gathers>(
    alloc: Global,
    files: &mut F,
    props: &mut S,
    loading: Loading<G>,
    place: &Place,
    imports: List<Import>,
) -> Result<Loading<G>, LoadRefusal>
    ensures order { Follows G.holds (F.tree files.old) (value_in (S.meaning props.old)) loading result
        (λ world. flat_map (at_import world place.now.file (at_target world place.now.left place.now.trail place.now.file)) imports) }
    ensures number { HasItsNumber result }
    ensures tree { F.tree files.new ≡ F.tree files.old }
    ensures cause { Counted (is_read_fault result) (F.fault_count files.old) (F.fault_count files.new) }
    ensures store { IsKept S.meaning S.told S.spare S.Beside props.old props.new }
{
    let mut loading = loading;
    for import in imports.into_vec() {
        loading = follow_import(alloc, files, props, loading, place, import)?;
    }
    Ok(loading)
}

/// Follows an import of a file. Its path is expanded first.
#[cycle(imports)]
fn follow_import<F: Files, S: PropStore, G: Gathers>(
    alloc: Global,
    files: &mut F,
    props: &mut S,
    loading: Loading<G>,
    place: &Place,
    import: Import,
) -> Result<Loading<G>, LoadRefusal>
    ensures order { Follows G.holds (F.tree files.old) (value_in (S.meaning props.old)) loading result
        (λ world. at_import world place.now.file (at_target world place.now.left place.now.trail place.now.file) import) }
    ensures number { HasItsNumber result }
    ensures tree { F.tree files.new ≡ F.tree files.old }
    ensures cause { Counted (is_read_fault result) (F.fault_count files.old) (F.fault_count files.new) }
    ensures store { IsKept S.meaning S.told S.spare S.Beside props.old props.new }
{
    match expanded(alloc, props, &import.path)? {
        Some(path) => follow_path(alloc, files, props, loading, place, import.line, path),
        None => loading.with_fault(&place.file, import.line, DiagKind::BadExpand),
    }
}

/// Follows an import whose path is expanded: to a file, or to the files of a directory.
#[cycle(imports)]
fn follow_path<F: Files, S: PropStore, G: Gathers>(
    alloc: Global,
    files: &mut F,
    props: &mut S,
    loading: Loading<G>,
    place: &Place,
    line: u32,
    path: Text,
) -> Result<Loading<G>, LoadRefusal>
    ensures order { Follows G.holds (F.tree files.old) (value_in (S.meaning props.old)) loading result (λ world. at_expanded world
        (fault place.now.file line) (at_target world place.now.left place.now.trail place.now.file line) (Ok path)) }
    ensures number { HasItsNumber result }
    ensures tree { F.tree files.new ≡ F.tree files.old }
    ensures cause { Counted (is_read_fault result) (F.fault_count files.old) (F.fault_count files.new) }
    ensures store { IsKept S.meaning S.told S.spare S.Beside props.old props.new }
{
    if !is_absolute(path.bytes()) {
        return loading.with_fault(&place.file, line, DiagKind::NoFile);
    }
    let path = bare(&path)?;
    match list(alloc, files, &path)? {
        Some(names) => follow_names(alloc, files, props, loading, place, line, &path, names),
        None => follow_target(alloc, files, props, loading, place, line, path),
    }
}

/// Follows an import to the files of these names in a directory.
#[cycle(imports)]
fn follow_names<F: Files, S: PropStore, G: Gathers>(
    alloc: Global,
    files: &mut F,
    props: &mut S,
    loading: Loading<G>,
    place: &Place,
    line: u32,
    dir: &Text,
    names: List<Text>,
) -> Result<Loading<G>, LoadRefusal>
    ensures order { Follows G.holds (F.tree files.old) (value_in (S.meaning props.old)) loading result (λ world. flat_map
        (λ name. at_target world place.now.left place.now.trail place.now.file line (spec.file_in dir.now name)) names) }
    ensures number { HasItsNumber result }
    ensures tree { F.tree files.new ≡ F.tree files.old }
    ensures cause { Counted (is_read_fault result) (F.fault_count files.old) (F.fault_count files.new) }
    ensures store { IsKept S.meaning S.told S.spare S.Beside props.old props.new }
{
    let mut loading = loading;
    for name in names.into_vec() {
        let path = file_in(alloc, dir, name)?;
        loading = follow_target(alloc, files, props, loading, place, line, path)?;
    }
    Ok(loading)
}

/// Follows an import to a file, unless it is being imported now, or no level is left.
#[cycle(imports)]
fn follow_target<F: Files, S: PropStore, G: Gathers>(
    alloc: Global,
    files: &mut F,
    props: &mut S,
    loading: Loading<G>,
    place: &Place,
    line: u32,
    path: Text,
) -> Result<Loading<G>, LoadRefusal>
    ensures order { Follows G.holds (F.tree files.old) (value_in (S.meaning props.old)) loading result
        (λ world. at_target world place.now.left place.now.trail place.now.file line path) }
    ensures number { HasItsNumber result }
    ensures tree { F.tree files.new ≡ F.tree files.old }
    ensures cause { Counted (is_read_fault result) (F.fault_count files.old) (F.fault_count files.new) }
    ensures store { IsKept S.meaning S.told S.spare S.Beside props.old props.new }
{
    if place.is_open(path.bytes()) {
        return loading.with_fault(&place.file, line, DiagKind::Loop);
    }
    if place.left == 0 {
        return loading.with_fault(&place.file, line, DiagKind::TooDeep);
    }
    let below = place.below(alloc, path)?;
    match follow_file(alloc, files, props, loading, &below)? {
        (loading, true) => Ok(loading),
        (loading, false) => loading.with_fault(&place.file, line, DiagKind::NoFile),
    }
}
