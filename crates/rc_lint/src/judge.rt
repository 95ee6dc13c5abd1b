//! What is told of the diagnostics of a tree.

ghost use Rattle.std.specs.Prelude.{◌≡◌, ◌++◌, IfErr, IfOk, OnOk};
ghost use Rattle.init_base.specs.Faults.{Counted};
ghost use Rattle.rc_import.specs.Answers.{is_read_fault};
ghost use Rattle.rc_lint.specs.internal.Judged.{told_by};
ghost use Rattle.lint_sources.specs.Sources.{IsLater};
ghost use Rattle.lint_sources.specs.Excused.{errors_among};
ghost use Rattle.lint_findings.specs.Findings.{diagnostics_of};
ghost use Rattle.lint_sources.specs.Told.{IsTold, Told};

use crate::request::Request;
use init_base::{Files, List, NoMemory};
use init_machine::Diagnostic;
use lint_findings::{About, Finding, WarningKind};
use lint_messages::Teller;
use lint_sources::{Source, Sources};
use rc_import::LoadRefusal;
use std::alloc::Global;

/// Tells of a diagnostic: as an error, or as a warning where it is excused.
fn tell(
    findings: &mut List<Finding>,
    request: &Request,
    teller: &mut Teller<'_>,
    source: &Source,
    diagnostic: &Diagnostic,
) -> Result<(), NoMemory>
    ensures { OnOk result (diagnostics_of findings.new ≡ diagnostics_of findings.old ++ told_by source.now diagnostic.now) }
{
    let is_excused = source.is_excused(diagnostic);
    if is_excused && !request.warns {
        return Ok(());
    }
    let (about, message, other) = if is_excused {
        (
            About::Warning(WarningKind::NotModelled),
            teller.not_modelled(source, diagnostic)?,
            None,
        )
    } else {
        (
            About::Error(diagnostic.kind),
            teller.error(source, diagnostic)?,
            teller.other(source, diagnostic)?,
        )
    };
    findings.push(Finding {
        file: diagnostic.file.share()?,
        line: diagnostic.line,
        about,
        message,
        other,
    })
}

/// What is told of the diagnostics of a tree, and the files that have them.
#[derive(Drop)]
pub struct Judged {
    pub findings: List<Finding>,
    pub sources: List<Source>,
}

/// Tells of the diagnostics of a tree, in order.
pub fn tell_all<F: Files>(
    alloc: Global,
    files: &mut F,
    request: &Request,
    teller: &mut Teller<'_>,
    diagnostics: &[Diagnostic],
) -> Result<Judged, LoadRefusal>
    ensures told { (told : Told) → IsTold (F.tree files.old) told
        → IfOk result (λ judged. diagnostics_of judged.findings ≡ errors_among request.now.allowed told diagnostics.now) }
    ensures kind { IfErr result IsLater }
    ensures tree { F.tree files.new ≡ F.tree files.old }
    ensures cause { Counted (is_read_fault result) (F.fault_count files.old) (F.fault_count files.new) }
{
    let mut sources = Sources::new(alloc);
    let mut findings = List::with_capacity(alloc, diagnostics.len())?;
    for diagnostic in diagnostics {
        let place = sources.place_of(alloc, files, &request.allowed, &diagnostic.file)?;
        let source = &sources.sources.items()[place];
        tell(&mut findings, request, teller, source, diagnostic)?;
    }
    Ok(Judged {
        findings,
        sources: sources.sources,
    })
}
