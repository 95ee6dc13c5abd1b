//! Loading a tree: the root file, and then the files of five directories.

ghost use Rattle.std.specs.Prelude.{◌≡◌, ◌∷◌, [], IfOk};
ghost use Rattle.std.specs.List.{flat_map};
ghost use Rattle.init_base.specs.Faults.{Counted};
ghost use Rattle.init_machine.specs.Props.{value_in};
ghost use Rattle.init_machine.specs.WellFormed.{IsWellFormed};
ghost use Rattle.rc_import.specs.Answers.{HasItsNumber, IsAnswer, is_read_fault};
ghost use Rattle.rc_import.specs.Limits.{diagnostics_of};
ghost use Rattle.rc_import.specs.Limits as limits_spec;
ghost use Rattle.rc_import.specs.Order.{at_first, directories, in_directory};
ghost use Rattle.rc_import.specs.Paths as paths_spec;
ghost use Rattle.rc_import.specs.Stores.{IsKept};
ghost use Rattle.rc_import.specs.World.{IsWorld, World};
ghost use Rattle.rc_import.specs.internal.Steps.{Follows, FollowsFile, IsGatheredOf};

use crate::gathered::Gathered;
use crate::gathers::Gathers;
use crate::import::follow_file;
use crate::listing::list;
use crate::loaded::{LoadRefusal, Loaded};
use crate::loading::Loading;
use crate::path::file_in;
use crate::place::Place;
use init_base::{Files, List, Text};
use init_machine::{Diagnostic, PropStore};
use rc_parse::Names;
use std::alloc::Global;

const ROOT_FILE: &[u8] = b"/system/etc/init/hw/init.rc";

/// The directories whose files are read behind the root file.
const DIRECTORIES: [&[u8]; 5] = [
    b"/system/etc/init",
    b"/system_ext/etc/init",
    b"/vendor/etc/init",
    b"/odm/etc/init",
    b"/product/etc/init",
];

/// Loads a tree. Each path of an import is expanded with the properties of the store.
///
/// `NoInit` comes exactly where the root file isn't there. `ReadFault` comes only where the count of the files' faults rose.
/// `TooLarge` and `TooMany` come exactly where what is read passes a limit, the first one that does.
pub fn load<F: Files, S: PropStore>(
    alloc: Global,
    files: &mut F,
    props: &mut S,
) -> Result<Loaded, LoadRefusal>
    // What is loaded, or why nothing is, where the tree is told.
    ensures loaded { (world : World) → IsWorld (F.tree files.old) (value_in (S.meaning props.old)) world
        → IsAnswer result (limits_spec.loaded world) }
    ensures well_formed { IfOk result (λ loaded. IsWellFormed loaded.config) }
    ensures number { HasItsNumber result }
    ensures tree { F.tree files.new ≡ F.tree files.old }
    ensures cause { Counted (is_read_fault result) (F.fault_count files.old) (F.fault_count files.new) }
    ensures store { IsKept S.meaning S.told S.spare S.Beside props.old props.new }
{
    let (gathered, diagnostics) = gather::<F, S, Gathered>(alloc, files, props)?;
    Ok(Loaded {
        config: gathered.into_config(alloc)?,
        diagnostics,
    })
}

/// The diagnostics with which `load` loads a tree, or why it doesn't. Of a file nothing is kept but these, its imports until
/// they are followed, and the names of its services.
pub fn diagnose<F: Files, S: PropStore>(
    alloc: Global,
    files: &mut F,
    props: &mut S,
) -> Result<List<Diagnostic>, LoadRefusal>
    // The diagnostics of what is loaded, or why nothing is, where the tree is told.
    ensures diagnostics { (world : World) → IsWorld (F.tree files.old) (value_in (S.meaning props.old)) world →
        IsAnswer result (diagnostics_of (limits_spec.loaded world)) }
    ensures number { HasItsNumber result }
    ensures tree { F.tree files.new ≡ F.tree files.old }
    ensures cause { Counted (is_read_fault result) (F.fault_count files.old) (F.fault_count files.new) }
    ensures store { IsKept S.meaning S.told S.spare S.Beside props.old props.new }
{
    let (_, diagnostics) = gather::<F, S, Names>(alloc, files, props)?;
    Ok(diagnostics)
}

/// Gathers the files of a tree, and their diagnostics.
fn gather<F: Files, S: PropStore, G: Gathers>(
    alloc: Global,
    files: &mut F,
    props: &mut S,
) -> Result<(G, List<Diagnostic>), LoadRefusal>
    ensures gathered { (world : World) → IsWorld (F.tree files.old) (value_in (S.meaning props.old)) world
        → IsGatheredOf G.holds result (limits_spec.loaded world) }
    ensures number { HasItsNumber result }
    ensures tree { F.tree files.new ≡ F.tree files.old }
    ensures cause { Counted (is_read_fault result) (F.fault_count files.old) (F.fault_count files.new) }
    ensures store { IsKept S.meaning S.told S.spare S.Beside props.old props.new }
{
    let root = Text::of(alloc, ROOT_FILE)?;
    let loading = match follow_first(alloc, files, props, Loading::<G>::new(alloc), root)? {
        (loading, true) => loading,
        (_, false) => return Err(LoadRefusal::NoInit),
    };
    let loading = follow_directories(alloc, files, props, loading)?;
    Ok(loading.into_parts())
}

/// Follows the directories whose files are read behind the root file.
fn follow_directories<F: Files, S: PropStore, G: Gathers>(
    alloc: Global,
    files: &mut F,
    props: &mut S,
    loading: Loading<G>,
) -> Result<Loading<G>, LoadRefusal>
    ensures order { Follows G.holds (F.tree files.old) (value_in (S.meaning props.old)) loading result
        (λ world. flat_map (in_directory world) directories) }
    ensures number { HasItsNumber result }
    ensures tree { F.tree files.new ≡ F.tree files.old }
    ensures cause { Counted (is_read_fault result) (F.fault_count files.old) (F.fault_count files.new) }
    ensures store { IsKept S.meaning S.told S.spare S.Beside props.old props.new }
{
    let mut loading = loading;
    for dir in DIRECTORIES {
        let dir = Text::of(alloc, dir)?;
        loading = follow_directory(alloc, files, props, loading, &dir)?;
    }
    Ok(loading)
}

/// Follows the files of a directory. One that isn't there is skipped.
fn follow_directory<F: Files, S: PropStore, G: Gathers>(
    alloc: Global,
    files: &mut F,
    props: &mut S,
    loading: Loading<G>,
    dir: &Text,
) -> Result<Loading<G>, LoadRefusal>
    ensures order { Follows G.holds (F.tree files.old) (value_in (S.meaning props.old)) loading result
        (λ world. in_directory world dir.now) }
    ensures number { HasItsNumber result }
    ensures tree { F.tree files.new ≡ F.tree files.old }
    ensures cause { Counted (is_read_fault result) (F.fault_count files.old) (F.fault_count files.new) }
    ensures store { IsKept S.meaning S.told S.spare S.Beside props.old props.new }
{
    match list(alloc, files, dir)? {
        Some(names) => follow_names(alloc, files, props, loading, dir, names),
        None => Ok(loading),
    }
}

/// Follows the files of these names in a directory.
fn follow_names<F: Files, S: PropStore, G: Gathers>(
    alloc: Global,
    files: &mut F,
    props: &mut S,
    loading: Loading<G>,
    dir: &Text,
    names: List<Text>,
) -> Result<Loading<G>, LoadRefusal>
    ensures order { Follows G.holds (F.tree files.old) (value_in (S.meaning props.old)) loading result
        (λ world. flat_map (λ name. at_first world (paths_spec.file_in dir.now name)) names) }
    ensures number { HasItsNumber result }
    ensures tree { F.tree files.new ≡ F.tree files.old }
    ensures cause { Counted (is_read_fault result) (F.fault_count files.old) (F.fault_count files.new) }
    ensures store { IsKept S.meaning S.told S.spare S.Beside props.old props.new }
{
    let mut loading = loading;
    for name in names.into_vec() {
        let path = file_in(alloc, dir, name)?;
        loading = follow_first(alloc, files, props, loading, path)?.0;
    }
    Ok(loading)
}

/// Follows a file that no import leads to. It answers whether the file is there.
fn follow_first<F: Files, S: PropStore, G: Gathers>(
    alloc: Global,
    files: &mut F,
    props: &mut S,
    loading: Loading<G>,
    path: Text,
) -> Result<(Loading<G>, bool), LoadRefusal>
    ensures order { FollowsFile G.holds (F.tree files.old) (value_in (S.meaning props.old)) loading result
        (λ world. at_first world path) path }
    ensures number { HasItsNumber result }
    ensures tree { F.tree files.new ≡ F.tree files.old }
    ensures cause { Counted (is_read_fault result) (F.fault_count files.old) (F.fault_count files.new) }
    ensures store { IsKept S.meaning S.told S.spare S.Beside props.old props.new }
{
    let place = Place::first(alloc, path)?;
    follow_file(alloc, files, props, loading, &place)
}
