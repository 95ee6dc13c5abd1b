//! The top call: all that the program does for a request.

ghost use Rattle.std.specs.Prelude.{◌≡◌, ℕ, IfErr, IfOk};
ghost use Rattle.init_base.specs.Faults.{Counted};
ghost use Rattle.rc_import.specs.Answers.{is_read_fault};
ghost use Rattle.lint_findings.specs.Findings.{diagnostics_of, errors_in};
ghost use Rattle.rc_lint.specs.internal.Reported.{Finds, IsRead};
ghost use Rattle.rc_lint.specs.internal.Reported as spec;
ghost use Rattle.lint_sources.specs.Sources.{IsLater};
ghost use Rattle.lint_sources.specs.Excused.{errors_among};
ghost use Rattle.rc_lint.specs.Keeps.{IsUnkept, LintKeeps};
ghost use Rattle.rc_lint.specs.Says.{IsUnwritten, LintSays, Tells};
ghost use Rattle.rc_lint.specs.Status.{AreCounted};
ghost use Rattle.lint_sources.specs.Told.{IsTold, Told};
ghost use Rattle.rc_lint.specs.declared.request.Request.{Request as AnyRequest};

use crate::judge::{Judged, tell_all};
use crate::request::Request;
use crate::status::Status;
use init_base::{Files, IoRefusal, Keeper, List, Sink};
use init_trace::send;
use lint_findings::{Finding, Promoted, count_errors, keep, left, page_of};
use lint_messages::{Teller, add_notes};
use lint_sources::{SeenFiles, Watched, load};
use rc_import::{LoadRefusal, Loaded};
use std::alloc::Global;
use std::mem::forget;

/// What is told of a tree.
#[derive(Drop)]
pub struct Report {
    pub findings: List<Finding>,
    /// The tree. It is let go behind the writing: before it the allocator would put together what is let go.
    pub tree: Read,
}

/// A tree that was loaded, and the files that were read.
#[derive(Drop)]
pub struct Read {
    pub loaded: Loaded,
    pub seen: SeenFiles,
}

/// Loads the tree, and takes the texts that were read.
fn read_tree<F: Files>(alloc: Global, files: &mut Watched<F>) -> Result<Read, LoadRefusal>
    ensures load { (told : Told) → IsTold (F.tree files.old.files) told → IsRead told result }
    ensures tree { F.tree files.new.files ≡ F.tree files.old.files }
    ensures cause { Counted (is_read_fault result) (F.fault_count files.old.files) (F.fault_count files.new.files) }
{
    let loaded = load(alloc, files)?;
    let seen = std::mem::replace(&mut files.seen, SeenFiles::new(alloc, false));
    Ok(Read { loaded, seen })
}

/// Tells what is wrong in a tree that was read.
fn findings_of<F: Files>(
    alloc: Global,
    request: &Request,
    files: &mut F,
    tree: &Read,
) -> Result<List<Finding>, LoadRefusal>
    ensures told { (told : Told) → IsTold (F.tree files.old) told
        → IfOk result (λ findings. diagnostics_of findings ≡ errors_among request.now.allowed told tree.now.loaded.diagnostics) }
    ensures kind { IfErr result IsLater }
    ensures cause { Counted (is_read_fault result) (F.fault_count files.old) (F.fault_count files.new) }
{
    let mut teller = Teller::new(alloc, &tree.loaded.config, &tree.seen)?;
    let diagnostics = tree.loaded.diagnostics.items();
    let Judged {
        mut findings,
        sources,
    } = tell_all(alloc, files, request, &mut teller, diagnostics)?;
    if request.warns {
        let config = &tree.loaded.config;
        add_notes(alloc, &mut findings, config, &tree.seen, sources.items())?;
    }
    Ok(findings)
}

/// Reads the tree, and tells what is wrong in it and isn't known.
fn report_of<F: Files>(
    alloc: Global,
    request: &Request,
    files: &mut Watched<F>,
) -> Result<Report, LoadRefusal>
    ensures found { (told : Told) → IsTold (F.tree files.old.files) told → Finds request.now told result }
    ensures cause { Counted (is_read_fault result) (F.fault_count files.old.files) (F.fault_count files.new.files) }
{
    let tree = read_tree(alloc, files)?;
    let all = findings_of(alloc, request, &mut files.files, &tree)?;
    let findings = left(alloc, &request.baseline, all)?;
    Ok(Report { findings, tree })
}

/// The status of a report that is written.
fn status_of(promoted: &Promoted, findings: &[Finding]) -> Status
    ensures { result ≡ spec.status_of (errors_in promoted.now findings.now) }
{
    if count_errors(promoted, findings) == 0 {
        Status::Clean
    } else {
        Status::Faulty
    }
}

/// Writes a report.
fn write_report<K: Sink>(alloc: Global, request: &Request, report: &Report, out: &mut K) -> Status
    ensures report { (told : Told) → Tells request.now told report.now.findings
        → LintSays request.now told (K.taken out.old) (K.taken out.new) result }
    ensures faults { (files : ℕ) → AreCounted result
        (record { files = files; out = K.fault_count out.old }) (record { files = files; out = K.fault_count out.new }) }
    ensures unwritten { IsUnwritten (K.taken out.old) (K.taken out.new) result }
{
    let files = report.tree.seen.files.len();
    let findings = report.findings.items();
    let page = match page_of(alloc, &request.style, findings, files) {
        Ok(page) => page,
        Err(_) => return Status::Refused(LoadRefusal::NoMemory),
    };
    match send(alloc, out, page.as_slice()) {
        Ok(()) => status_of(&request.style.promoted, findings),
        Err(IoRefusal::Failed) => Status::WriteFault,
        Err(IoRefusal::NoMemory) => Status::Refused(LoadRefusal::NoMemory),
    }
}

/// Does all that the program does for a request.
///
/// The build files and the rc files of the tree are read as `initsim check` reads them. What is written is a report: its errors
/// are the documented diagnostics of the tree, each once and in order, but for those of words that AOSP's init has and this
/// machine doesn't model, of words that are allowed, and of tests with `!=`. A tree that can't be read is refused as `check`
/// refuses it, and nothing is written then. Memory may run out at any point.
pub fn lint<F: Files, K: Sink>(
    alloc: Global,
    request: &Request,
    files: &mut Watched<F>,
    out: &mut K,
) -> Status
    // What the status says of a told tree, and what is written then.
    ensures report { (told : Told) → IsTold (F.tree files.old.files) told
        → LintSays request.now told (K.taken out.old) (K.taken out.new) result }

    // A fault comes only where the count of its object rose, and all other counts are as before.
    ensures faults { AreCounted result
        (record { files = F.fault_count files.old.files; out = K.fault_count out.old })
        (record { files = F.fault_count files.new.files; out = K.fault_count out.new }) }

    // A refusal writes nothing, also where nothing is told.
    ensures unwritten { IsUnwritten (K.taken out.old) (K.taken out.new) result }
{
    match report_of(alloc, request, files) {
        Ok(report) => {
            let status = write_report(alloc, request, &report, out);
            // The program ends behind this, and the system takes its memory at once.
            forget(report);
            status
        }
        Err(refusal) => Status::Refused(refusal),
    }
}

/// The status where the baseline of some findings is put into a keeper.
fn keep_report<K: Keeper>(alloc: Global, report: &Report, keeper: &mut K) -> Status
    ensures kept { (request : AnyRequest) (told : Told) → Tells request told report.now.findings
        → LintKeeps request told (K.held keeper.old) (K.held keeper.new) result }
    ensures faults { (files : ℕ) → AreCounted result
        (record { files = files; out = K.fault_count keeper.old }) (record { files = files; out = K.fault_count keeper.new }) }
    ensures unkept { IsUnkept (K.held keeper.old) (K.held keeper.new) result }
{
    match keep(alloc, report.findings.items(), keeper) {
        Ok(()) => Status::Clean,
        Err(IoRefusal::Failed) => Status::WriteFault,
        Err(IoRefusal::NoMemory) => Status::Refused(LoadRefusal::NoMemory),
    }
}

/// Reads the tree as `lint` does, and puts the baseline of what is told of it into a keeper. Nothing is put there where the tree
/// can't be read.
pub fn keep_known<F: Files, K: Keeper>(
    alloc: Global,
    request: &Request,
    files: &mut Watched<F>,
    keeper: &mut K,
) -> Status
    // What the status says of a told tree, and what is held then.
    ensures kept { (told : Told) → IsTold (F.tree files.old.files) told
        → LintKeeps request.now told (K.held keeper.old) (K.held keeper.new) result }

    // A fault comes only where the count of its object rose, and all other counts are as before.
    ensures faults { AreCounted result
        (record { files = F.fault_count files.old.files; out = K.fault_count keeper.old })
        (record { files = F.fault_count files.new.files; out = K.fault_count keeper.new }) }

    // A refusal leaves what is held, also where nothing is told.
    ensures unkept { IsUnkept (K.held keeper.old) (K.held keeper.new) result }
{
    match report_of(alloc, request, files) {
        Ok(report) => {
            let status = keep_report(alloc, &report, keeper);
            // As in `lint`.
            forget(report);
            status
        }
        Err(refusal) => Status::Refused(refusal),
    }
}
