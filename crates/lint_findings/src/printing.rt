//! The text of a baseline.

ghost use Rattle.std.specs.Prelude.{◌≡◌, ◌++◌, IfOk, OnOk, ℕ, List as Items, map};
ghost use Rattle.lint_findings.specs.Baseline.{IsBaselineOf, baseline_text, ended};
ghost use Rattle.lint_findings.specs.Baseline as spec;

use crate::finding::Finding;
use crate::row::row_of;
use init_base::NoMemory;
use std::alloc::Global;

/// The first line, with its end.
const HEAD: &[u8] = b"rc-lint baseline 1\n";

/// The lines of findings, in their order.
fn rows_of(alloc: Global, findings: &[Finding]) -> Result<Vec<Vec<u8>>, NoMemory>
    ensures { IfOk result (λ rows. map (λ row. row.items) rows.items ≡ map spec.row_of findings.now) }
{
    let mut rows = Vec::with_capacity(alloc, findings.len())?;
    for finding in findings {
        rows.push(row_of(alloc, finding)?)?;
    }
    Ok(rows)
}

fn put_row(page: &mut Vec<u8>, row: &[u8]) -> Result<(), NoMemory>
    ensures { OnOk result (page.new.items ≡ page.old.items ++ ended row.now) }
{
    page.extend_from_slice(row)?;
    page.push(b'\n')?;
    Ok(())
}

/// The text of lines.
fn text_of(alloc: Global, rows: &[Vec<u8>]) -> Result<Vec<u8>, NoMemory>
    ensures { IfOk result (λ text. text.items ≡ baseline_text (map (λ row. row.items) rows.now)) }
{
    let mut page = Vec::new(alloc);
    page.extend_from_slice(HEAD)?;
    for row in rows {
        put_row(&mut page, row)?;
    }
    Ok(page)
}

/// The text of the baseline of findings, against which nothing of them is left.
pub fn print(alloc: Global, findings: &[Finding]) -> Result<Vec<u8>, NoMemory>
    ensures { IfOk result (λ text. (rows : Items (Items ℕ)) × IsBaselineOf findings.now rows × (text.items ≡ baseline_text rows)) }
{
    let mut rows = rows_of(alloc, findings)?;
    rows.sort_unstable();
    let text = text_of(alloc, &rows)?;
    Ok(text)
}
