//! The page of a report, in the form that is asked for.

ghost use Rattle.std.specs.Prelude.{IfOk};
ghost use Rattle.lint_findings.specs.Page.{IsPage};

use crate::finding::Finding;
use crate::gcc::gcc_page;
use crate::json::json_page;
use crate::sarif::sarif_page;
use crate::style::{Format, Style};
use init_base::NoMemory;
use std::alloc::Global;

/// The page of a report on so many files.
pub fn page_of(
    alloc: Global,
    style: &Style,
    findings: &[Finding],
    files: usize,
) -> Result<Vec<u8>, NoMemory>
    ensures { IfOk result (λ page. IsPage style.now findings.now files page.items) }
{
    match style.format {
        Format::Gcc => gcc_page(alloc, style, findings, files),
        Format::Json => json_page(alloc, style, findings, files),
        Format::Sarif => sarif_page(alloc, style, findings),
    }
}
