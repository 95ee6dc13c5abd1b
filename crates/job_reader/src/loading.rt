//! What the build files and the rc files of a tree give.

ghost use Rattle.std.specs.Prelude.{◌≡◌, IfErr, IfOk};
ghost use Rattle.init_base.specs.Faults.{Counted};
ghost use Rattle.init_machine.specs.WellFormed.{IsWellFormed};
ghost use Rattle.job_reader.specs.Check.{IsCheckStatus};
ghost use Rattle.job_reader.specs.Stops.{GivesDiagnostics, GivesLoad, has_read_fault, status_of};
ghost use Rattle.job_reader.specs.Tree.{IsWorldOf};
ghost use Rattle.rc_import.specs.World.{World};

use crate::stop::Stop;
use crate::texts::read_build_files;
use init_base::{Files, List};
use init_machine::Diagnostic;
use prop_rules::{BuildProps, boot_view};
use rc_import::Loaded;
use std::alloc::Global;

/// Reads the build files, and then the rc files, whose imports are expanded in the view of the former's pairs.
pub fn load<F: Files>(alloc: Global, files: &mut F) -> Result<Loaded, Stop>
    ensures load { (world : World) → IsWorldOf (F.tree files.old) world → GivesLoad world result }
    ensures kind { IfErr result (λ why. IsCheckStatus (status_of why)) }
    ensures well_formed { IfOk result (λ loaded. IsWellFormed loaded.config) }
    ensures cause { Counted (has_read_fault result) (F.fault_count files.old) (F.fault_count files.new) }
{
    let build_files = read_build_files(alloc, files)?;
    let mut view = boot_view(alloc, &build_files.pairs)?;
    let loaded = rc_import::load(alloc, files, &mut view)?;
    Ok(loaded.behind(build_files)?)
}

/// Reads the same files for what is wrong in them, and keeps nothing else of the rc files but names.
pub fn diagnose<F: Files>(alloc: Global, files: &mut F) -> Result<List<Diagnostic>, Stop>
    ensures diagnostics { (world : World) → IsWorldOf (F.tree files.old) world → GivesDiagnostics world result }
    ensures kind { IfErr result (λ why. IsCheckStatus (status_of why)) }
    ensures cause { Counted (has_read_fault result) (F.fault_count files.old) (F.fault_count files.new) }
{
    let BuildProps {
        pairs,
        mut diagnostics,
    } = read_build_files(alloc, files)?;
    let mut view = boot_view(alloc, &pairs)?;
    let found = rc_import::diagnose(alloc, files, &mut view)?;
    diagnostics.append(found)?;
    Ok(diagnostics)
}
