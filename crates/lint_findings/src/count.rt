//! How many findings are errors, and how many are warnings.

ghost use Rattle.std.specs.Prelude.{◌≡◌, length};
ghost use Rattle.lint_findings.specs.Findings.{errors_in, warnings_in};
ghost use Rattle.lint_findings.specs.Findings as spec;

use crate::finding::Finding;
use crate::promoted::{Promoted, Severity};

fn is_error(promoted: &Promoted, finding: &Finding) -> bool
    ensures { result ≡ spec.is_error promoted.now finding.now }
{
    matches!(promoted.severity(finding.about), Severity::Error)
}

fn is_warning(promoted: &Promoted, finding: &Finding) -> bool
    ensures { result ≡ spec.is_warning promoted.now finding.now }
{
    matches!(promoted.severity(finding.about), Severity::Warning)
}

/// How many findings are errors.
pub fn count_errors(promoted: &Promoted, findings: &[Finding]) -> usize
    ensures { result ≡ length (errors_in promoted.now findings.now) }
{
    findings
        .iter()
        .filter(|finding| is_error(promoted, finding))
        .count()
}

/// How many findings are warnings.
pub fn count_warnings(promoted: &Promoted, findings: &[Finding]) -> usize
    ensures { result ≡ length (warnings_in promoted.now findings.now) }
{
    findings
        .iter()
        .filter(|finding| is_warning(promoted, finding))
        .count()
}
