//! What is asked of the program.

use init_base::{List, Text};
use lint_findings::{Baseline, Style};

/// What is asked of the program.
#[derive(Debug, Drop)]
pub struct Request {
    /// In which form findings are told.
    pub style: Style,
    /// Words that are taken as those that AOSP's init has and this machine doesn't model.
    pub allowed: List<Text>,
    /// Whether warnings and hints are told.
    pub warns: bool,
    /// Findings that are known, of which nothing is told.
    pub baseline: Baseline,
}
