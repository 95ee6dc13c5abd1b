//! The files of a tree that aren't rc files: the property policy, and the build files.

ghost use Rattle.std.specs.Prelude.{◌≡◌, ◌≤◌, [], IfErr, IfOk, IfSome, length};
ghost use Rattle.init_base.specs.Faults.{Counted};
ghost use Rattle.init_base.specs.Tree.{file_at};
ghost use Rattle.job_reader.specs.Check.{IsCheckStatus};
ghost use Rattle.job_reader.specs.Stops.{GivesBuildFile, GivesBuildFiles, GivesPolicy, GivesText, IsOfTree, has_read_fault, status_of};
ghost use Rattle.job_reader.specs.Texts.{build_text, bytes_or};
ghost use Rattle.job_reader.specs.Tree.{IsWorldOf};
ghost use Rattle.prop_rules.specs.Build.{IsBuildFile};
ghost use Rattle.rc_import.specs.World.{World};

use crate::stop::Stop;
use init_base::{Files, Text};
use init_machine::Limit;
use prop_contexts::Policy;
use prop_rules::{BuildProps, build_props};
use std::alloc::Global;

/// The most bytes of such a file.
const MOST_BYTES: usize = 1_048_576;

const CONTEXTS_PATH: &[u8] = b"/property_contexts";

const ALLOW_PATH: &[u8] = b"/property_allow";

const SYSTEM_PATH: &[u8] = b"/system/build.prop";

const VENDOR_PATH: &[u8] = b"/vendor/build.prop";

/// What an absent contexts file counts as.
const DEFAULT_CONTEXTS: &[u8] = b"* default_prop";

/// The bytes of a file, or other ones where it is absent.
fn read_or<F: Files>(alloc: Global, files: &mut F, path: &[u8], absent: &[u8]) -> Result<Text, Stop>
    requires { length absent.now ≤ 1048576 }
    ensures text { IfSome (F.tree files.old) (λ tree. GivesText (bytes_or absent.now (file_at tree path.now)) result) }
    ensures short { IfOk result (λ text. length text ≤ 1048576) }
    ensures kind { IfErr result (λ why. IsCheckStatus (status_of why)) }
    ensures tree { F.tree files.new ≡ F.tree files.old }
    ensures cause { Counted (has_read_fault result) (F.fault_count files.old) (F.fault_count files.new) }
{
    match files.read(alloc, path, MOST_BYTES) {
        Ok(Some(text)) => Ok(text),
        Ok(None) => Ok(Text::of(alloc, absent)?),
        Err(refusal) => Err(Stop::of_reading(refusal, Limit::FileBytes, MOST_BYTES)),
    }
}

/// Reads the contexts text and the allow text, and then judges them.
pub fn read_policy<F: Files>(alloc: Global, files: &mut F) -> Result<Policy, Stop>
    ensures policy { (world : World) → IsWorldOf (F.tree files.old) world → GivesPolicy world result }
    ensures kind { IfErr result IsOfTree }
    ensures tree { F.tree files.new ≡ F.tree files.old }
    ensures cause { Counted (has_read_fault result) (F.fault_count files.old) (F.fault_count files.new) }
{
    let contexts = read_or(alloc, files, CONTEXTS_PATH, DEFAULT_CONTEXTS)?;
    let allow = read_or(alloc, files, ALLOW_PATH, b"")?;
    Ok(Policy::read(alloc, contexts.bytes(), allow.bytes())?)
}

/// The pairs and the diagnostics of a build file. An absent one has none.
fn read_build_file<F: Files>(alloc: Global, files: &mut F, path: &[u8]) -> Result<BuildProps, Stop>
    ensures props { IfSome (F.tree files.old) (λ tree. GivesBuildFile path.now (build_text tree path.now) result) }
    ensures kind { IfErr result (λ why. IsCheckStatus (status_of why)) }
    ensures tree { F.tree files.new ≡ F.tree files.old }
    ensures cause { Counted (has_read_fault result) (F.fault_count files.old) (F.fault_count files.new) }
{
    let text = read_or(alloc, files, path, b"")?;
    let file = Text::of(alloc, path)?;
    Ok(build_props(alloc, &file, text.bytes())?)
}

/// The pairs and the diagnostics of both build files, in the order in which they are read.
pub fn read_build_files<F: Files>(alloc: Global, files: &mut F) -> Result<BuildProps, Stop>
    ensures props { IfSome (F.tree files.old) (λ tree. GivesBuildFiles tree result) }
    ensures kind { IfErr result (λ why. IsCheckStatus (status_of why)) }
    ensures tree { F.tree files.new ≡ F.tree files.old }
    ensures cause { Counted (has_read_fault result) (F.fault_count files.old) (F.fault_count files.new) }
{
    let mut props = read_build_file(alloc, files, SYSTEM_PATH)?;
    let more = read_build_file(alloc, files, VENDOR_PATH)?;
    props.pairs.append(more.pairs)?;
    props.diagnostics.append(more.diagnostics)?;
    Ok(props)
}
