//! What the build files and the rc files of a tree give, read as `initsim check` reads them.

ghost use Rattle.std.specs.Prelude.{◌≡◌, ◌≤◌, IfOk, IfSome, length};
ghost use Rattle.init_base.specs.Faults.{Counted};
ghost use Rattle.rc_import.specs.Answers.{IsAnswer, is_read_fault};
ghost use Rattle.rc_import.specs.World.{World};
ghost use Rattle.lint_sources.specs.Loads.{IsWorldOf};
ghost use Rattle.lint_sources.specs.Loads as spec;
ghost use Rattle.lint_sources.specs.internal.Steps.{GivesBuildFile, GivesBuildFiles, GivesText};

use init_base::{Files, ReadRefusal, Text};
use prop_rules::{BuildProps, boot_view, build_props};
use rc_import::{LoadLimit, LoadRefusal, Loaded};
use std::alloc::Global;

/// The most bytes of a build file.
const MOST_BYTES: usize = 1_048_576;

/// One byte more than a file may have.
const BYTES_OF_LONG_FILE: u64 = 1_048_577;

pub const SYSTEM_PATH: &[u8] = b"/system/build.prop";

pub const VENDOR_PATH: &[u8] = b"/vendor/build.prop";

/// The text of a build file. An absent one is empty.
fn read_text<F: Files>(alloc: Global, files: &mut F, path: &Text) -> Result<Text, LoadRefusal>
    ensures text { IfSome (F.tree files.old) (λ tree. GivesText tree path.now result) }
    ensures short { IfOk result (λ text. length text ≤ 1048576) }
    ensures tree { F.tree files.new ≡ F.tree files.old }
    ensures cause { Counted (is_read_fault result) (F.fault_count files.old) (F.fault_count files.new) }
{
    match files.read(alloc, path.bytes(), MOST_BYTES) {
        Ok(Some(text)) => Ok(text),
        Ok(None) => Ok(Text::empty()),
        Err(ReadRefusal::Failed) => Err(LoadRefusal::ReadFault),
        Err(ReadRefusal::TooLarge) => Err(LoadRefusal::TooLarge {
            path: path.share()?,
            limit: LoadLimit::FileBytes,
            number: BYTES_OF_LONG_FILE,
        }),
        Err(ReadRefusal::NoMemory) => Err(LoadRefusal::NoMemory),
    }
}

/// The pairs and the diagnostics of a build file. An absent one has none.
fn read_build_file<F: Files>(
    alloc: Global,
    files: &mut F,
    path: &[u8],
) -> Result<BuildProps, LoadRefusal>
    ensures props { IfSome (F.tree files.old) (λ tree. GivesBuildFile tree path.now result) }
    ensures tree { F.tree files.new ≡ F.tree files.old }
    ensures cause { Counted (is_read_fault result) (F.fault_count files.old) (F.fault_count files.new) }
{
    let path = Text::of(alloc, path)?;
    let text = read_text(alloc, files, &path)?;
    Ok(build_props(alloc, &path, text.bytes())?)
}

/// The pairs and the diagnostics of both build files, in the order in which they are read.
fn read_build_files<F: Files>(alloc: Global, files: &mut F) -> Result<BuildProps, LoadRefusal>
    ensures props { IfSome (F.tree files.old) (λ tree. GivesBuildFiles tree result) }
    ensures tree { F.tree files.new ≡ F.tree files.old }
    ensures cause { Counted (is_read_fault result) (F.fault_count files.old) (F.fault_count files.new) }
{
    let mut props = read_build_file(alloc, files, SYSTEM_PATH)?;
    let more = read_build_file(alloc, files, VENDOR_PATH)?;
    props.pairs.append(more.pairs)?;
    props.diagnostics.append(more.diagnostics)?;
    Ok(props)
}

/// Reads the build files, and then the rc files, whose imports are expanded in the view of the former's pairs.
///
/// `NoInit` comes exactly where the root file isn't there, `TooLarge` and `TooMany` exactly where what is read passes a limit,
/// the first one that does, and `ReadFault` only where the count of the files' faults rose.
pub fn load<F: Files>(alloc: Global, files: &mut F) -> Result<Loaded, LoadRefusal>
    ensures load { (world : World) → IsWorldOf (F.tree files.old) world → IsAnswer result (spec.loaded world) }
    ensures tree { F.tree files.new ≡ F.tree files.old }
    ensures cause { Counted (is_read_fault result) (F.fault_count files.old) (F.fault_count files.new) }
{
    let build_files = read_build_files(alloc, files)?;
    let mut view = boot_view(alloc, &build_files.pairs)?;
    let loaded = rc_import::load(alloc, files, &mut view)?;
    Ok(loaded.behind(build_files)?)
}
