//! The findings that a baseline leaves.

ghost use Rattle.std.specs.Prelude.{◌≡◌, ◌-◌, ◌++◌, ◌∷◌, [], ℕ, List as Items, IfOk, OnOk, nat_lt, if◌then◌else◌};
ghost use Rattle.std.specs.Str.{bytes_eq};
ghost use Rattle.lint_findings.specs.Baseline as baseline_spec;
ghost use Rattle.lint_findings.specs.internal.Rows.{count_in};
ghost use Rattle.lint_findings.specs.Left.{known};
ghost use Rattle.lint_findings.specs.Left as left_spec;

use crate::counts::Counts;
use crate::finding::Finding;
use crate::reading::Baseline;
use crate::row::row_of;
use init_base::{List, NoMemory, Text};
use std::alloc::Global;

/// Counts the lines of a baseline.
fn counts_of(alloc: Global, rows: &[Text]) -> Result<Counts, NoMemory>
    ensures { IfOk result (λ counts. (q : Items ℕ) → count_in counts.numbers q ≡ known rows.now q) }
{
    let mut counts = Counts::new(alloc);
    for row in rows {
        counts.add(alloc, row.bytes())?;
    }
    Ok(counts)
}

/// Lets a finding go where its line is there, which is used up once then.
fn pass(
    alloc: Global,
    counts: &mut Counts,
    left: &mut List<Finding>,
    finding: Finding,
) -> Result<(), NoMemory>
    ensures left { OnOk result (
        left.new ≡ left.old ++ (if nat_lt 0 (count_in counts.old.numbers (baseline_spec.row_of finding)) then [] else finding ∷ [])) }
    ensures counts { OnOk result ((q : Items ℕ) →
        count_in counts.new.numbers q ≡ count_in counts.old.numbers q - (if bytes_eq (baseline_spec.row_of finding) q then 1 else 0)) }
{
    let row = row_of(alloc, &finding)?;
    if counts.take(row)? {
        Ok(())
    } else {
        left.push(finding)
    }
}

/// What is left of findings: of those of each line as many are let go as the line stands in the baseline, the first ones.
pub fn left(
    alloc: Global,
    baseline: &Baseline,
    findings: List<Finding>,
) -> Result<List<Finding>, NoMemory>
    ensures { IfOk result (λ rest. rest ≡ left_spec.left baseline.now.rows findings) }
{
    if baseline.rows.is_empty() {
        return Ok(findings);
    }
    let mut counts = counts_of(alloc, baseline.rows.items())?;
    let mut left = List::new(alloc);
    for finding in findings.into_vec() {
        pass(alloc, &mut counts, &mut left, finding)?;
    }
    Ok(left)
}
