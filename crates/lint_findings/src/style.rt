//! In which form findings are told.

use crate::promoted::Promoted;
use init_base::Text;

/// In which form findings are told.
#[derive(Debug, Drop)]
pub struct Style {
    /// What stands before the paths of files, which begin with a slash.
    pub root: Text,
    /// Which kinds are told as errors.
    pub promoted: Promoted,
    pub format: Format,
}

/// The form of a page.
#[derive(Clone, Copy, Debug, PartialEq, Eq)]
pub enum Format {
    /// A line for each finding, as compilers write them.
    Gcc,
    /// One object of JSON.
    Json,
    /// SARIF 2.1.0.
    Sarif,
}
