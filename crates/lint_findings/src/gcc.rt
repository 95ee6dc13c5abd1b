//! The form of compilers: a line for each finding, and a last line with their numbers.

ghost use Rattle.std.specs.Prelude.{◌≡◌, ◌++◌, IfOk, OnOk};
ghost use Rattle.std.specs.List.{flat_map};
ghost use Rattle.lint_findings.specs.Gcc.{front_text, message_text, other_text, place_text, report_text, severity_text};
ghost use Rattle.lint_findings.specs.Gcc as spec;

use crate::count::{count_errors, count_warnings};
use crate::finding::{Finding, Place};
use crate::name::about_name;
use crate::promoted::Severity;
use crate::style::Style;
use crate::text::put_shown;
use init_base::{NoMemory, Text};
use init_trace::{put, put_number};
use std::alloc::Global;

/// About how many bytes a finding's line has.
const BYTES_OF_LINE: usize = 128;

/// The word for a severity.
pub fn severity_name(severity: Severity) -> &'static [u8]
    ensures { result.now ≡ severity_text severity }
{
    match severity {
        Severity::Error => b"error",
        Severity::Warning => b"warning",
        Severity::Hint => b"hint",
    }
}

/// Adds a line of a file.
fn put_place(page: &mut Vec<u8>, root: &Text, file: &Text, line: u32) -> Result<(), NoMemory>
    ensures { OnOk result (page.new.items ≡ page.old.items ++ place_text root.now file.now line) }
{
    put_shown(page, root.bytes())?;
    put_shown(page, file.bytes())?;
    put(page, b":")?;
    put_number(page, u64::from(line))
}

/// Adds where a message leads to.
fn put_other(page: &mut Vec<u8>, root: &Text, other: &Option<Place>) -> Result<(), NoMemory>
    ensures { OnOk result (page.new.items ≡ page.old.items ++ other_text root.now other.now) }
{
    match other {
        Some(place) => {
            put(page, b"; see ")?;
            put_place(page, root, &place.file, place.line)
        }
        None => Ok(()),
    }
}

/// Adds where a finding is, and how grave it is.
fn put_front(page: &mut Vec<u8>, style: &Style, finding: &Finding) -> Result<(), NoMemory>
    ensures { OnOk result (page.new.items ≡ page.old.items ++ front_text style.now finding.now) }
{
    put_place(page, &style.root, &finding.file, finding.line)?;
    put(page, b": ")?;
    put(page, severity_name(style.promoted.severity(finding.about)))?;
    put(page, b": ")
}

/// Adds what a finding says.
fn put_message(page: &mut Vec<u8>, root: &Text, finding: &Finding) -> Result<(), NoMemory>
    ensures { OnOk result (page.new.items ≡ page.old.items ++ message_text root.now finding.now) }
{
    put_shown(page, finding.message.bytes())?;
    put_other(page, root, &finding.other)?;
    put(page, b" [")?;
    put(page, about_name(finding.about))?;
    put(page, b"]\n")
}

/// Adds the line of a finding.
fn put_finding(page: &mut Vec<u8>, style: &Style, finding: &Finding) -> Result<(), NoMemory>
    ensures { OnOk result (page.new.items ≡ page.old.items ++ spec.finding_line style.now finding.now) }
{
    put_front(page, style, finding)?;
    put_message(page, &style.root, finding)
}

fn put_findings(page: &mut Vec<u8>, style: &Style, findings: &[Finding]) -> Result<(), NoMemory>
    ensures { OnOk result (page.new.items ≡ page.old.items ++ flat_map (spec.finding_line style.now) findings.now) }
{
    for finding in findings {
        put_finding(page, style, finding)?;
    }
    Ok(())
}

/// Adds a number of things, by the name of one.
fn put_counted(page: &mut Vec<u8>, number: usize, name: &[u8]) -> Result<(), NoMemory>
    ensures { OnOk result (page.new.items ≡ page.old.items ++ spec.counted number name.now) }
{
    put_number(page, number as u64)?;
    put(page, b" ")?;
    put(page, name)?;
    if number == 1 { Ok(()) } else { put(page, b"s") }
}

/// Adds the last line.
fn put_last(
    page: &mut Vec<u8>,
    errors: usize,
    warnings: usize,
    files: usize,
) -> Result<(), NoMemory>
    ensures { OnOk result (page.new.items ≡ page.old.items ++ spec.last_line errors warnings files) }
{
    put_counted(page, errors, b"error")?;
    put(page, b", ")?;
    put_counted(page, warnings, b"warning")?;
    put(page, b" in ")?;
    put_counted(page, files, b"file")?;
    put(page, b"\n")
}

/// The page of a report on so many files.
pub fn gcc_page(
    alloc: Global,
    style: &Style,
    findings: &[Finding],
    files: usize,
) -> Result<Vec<u8>, NoMemory>
    ensures { IfOk result (λ page. page.items ≡ report_text style.now findings.now files) }
{
    let mut page = Vec::with_capacity(alloc, findings.len().saturating_mul(BYTES_OF_LINE))?;
    put_findings(&mut page, style, findings)?;
    put_last(
        &mut page,
        count_errors(&style.promoted, findings),
        count_warnings(&style.promoted, findings),
        files,
    )?;
    Ok(page)
}
