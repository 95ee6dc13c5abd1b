//! The line of a finding in a baseline.

ghost use Rattle.std.specs.Prelude.{◌≡◌, IfOk};
ghost use Rattle.lint_findings.specs.Baseline as spec;

use crate::finding::Finding;
use crate::name::about_name;
use init_base::NoMemory;
use init_trace::{put, put_byte, put_quoted};
use std::alloc::Global;

/// About how many bytes a line has.
const BYTES_OF_ROW: usize = 160;

/// The line of a finding, without its end.
pub fn row_of(alloc: Global, finding: &Finding) -> Result<Vec<u8>, NoMemory>
    ensures { IfOk result (λ row. row.items ≡ spec.row_of finding.now) }
{
    let mut row = Vec::with_capacity(alloc, BYTES_OF_ROW)?;
    put(&mut row, about_name(finding.about))?;
    put_byte(&mut row, b' ')?;
    put_quoted(&mut row, finding.file.bytes())?;
    put_byte(&mut row, b' ')?;
    put_quoted(&mut row, finding.message.bytes())?;
    Ok(row)
}
