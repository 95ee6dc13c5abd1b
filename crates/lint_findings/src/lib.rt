//! Findings: what a check of a tree's rc files and build files tells, and how grave each one is.
//!
//! A finding is about a kind, which has one name. A kind is an error, a warning or a hint by itself, and an error if it is
//! promoted. The definitions stand in `specs/`.
//!
//! A baseline has the findings that are known, so that a check can tell of the others alone. Its text is a first line and a line for
//! each known finding, in ascending order: `print` writes that of findings, and `read` gives the lines, or the first one that doesn't
//! fit. A line has no line's number, so that edits elsewhere in a file leave it as it is. `load` reads a source, and `keep` puts the
//! text into a keeper. `left` lets the known findings through: of each line's findings as many as it stands there, the first ones. The
//! form is in `specs/Baseline.antt`, what is left in `specs/Left.antt`.
//!
//! A page is the text of a report on a tree's findings, in the form that a caller asks for. The form of compilers has a line for each
//! finding, and a last line with their numbers; JSON is for programs, and SARIF for services that show findings beside the code. What a
//! page is stands in `specs/Page.antt`, byte for byte.
#![tactic(auto)]

mod baseline_law;
mod count;
mod counts;
mod finding;
mod gcc;
mod json;
mod law;
mod leaving;
mod name;
mod outside;
mod page;
mod printing;
mod promoted;
mod reading;
mod refusal;
mod row;
mod sarif;
mod style;
mod text;
mod uri;

pub use baseline_law::{each_text_has_one_reading, known_findings_go};
pub use count::{count_errors, count_warnings};
pub use finding::{About, Finding, HintKind, Place, WarningKind};
pub use law::each_kind_has_its_name;
pub use leaving::left;
pub use name::{KINDS, about_name, about_of};
pub use outside::{keep, load};
pub use page::page_of;
pub use printing::print;
pub use promoted::{Promoted, Severity};
pub use reading::{Baseline, read};
pub use refusal::BaselineRefusal;
pub use style::{Format, Style};
