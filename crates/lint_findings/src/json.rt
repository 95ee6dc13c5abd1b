//! The form for programs: one object of JSON in a line.

ghost use Rattle.std.specs.Prelude.{◌≡◌, ◌++◌, IfOk, OnOk, codes, string_bytes};
ghost use Rattle.std.specs.List.{flat_map};
ghost use Rattle.lint_findings.specs.Json.{back_json, counts_json, finding_json, front_json, parted, place_json, report_json, see_json, text_json};

use crate::count::{count_errors, count_warnings};
use crate::finding::{Finding, Place};
use crate::gcc::severity_name;
use crate::name::about_name;
use crate::style::Style;
use init_base::{NoMemory, Text};
use init_trace::{put, put_number};
use serde_json::Value;
use std::alloc::Global;

/// About how many bytes a finding has.
const BYTES_OF_FINDING: usize = 256;

/// A text as a JSON string, in which what isn't UTF-8 is replaced.
fn json_of(alloc: Global, bytes: &[u8]) -> Result<String, NoMemory>
    ensures { IfOk result (λ json. string_bytes json ≡ text_json bytes.now) }
{
    let value = Value::String(String::from_utf8_lossy(alloc, bytes)?);
    let json = value.to_string(alloc)?;
    Ok(json)
}

/// Adds a text as a JSON string.
pub fn put_text(page: &mut Vec<u8>, bytes: &[u8]) -> Result<(), NoMemory>
    ensures { OnOk result (page.new.items ≡ page.old.items ++ text_json bytes.now) }
{
    let json = json_of(*page.allocator(), bytes)?;
    put(page, json.as_bytes())
}

/// Adds the path of a file as a JSON string.
fn put_path(page: &mut Vec<u8>, root: &[u8], file: &[u8]) -> Result<(), NoMemory>
    ensures { OnOk result (page.new.items ≡ page.old.items ++ text_json (root.now ++ file.now)) }
{
    let mut path = Vec::from_slice(*page.allocator(), root)?;
    path.extend_from_slice(file)?;
    put_text(page, &path)
}

/// Adds a line of a file.
fn put_place(page: &mut Vec<u8>, root: &Text, file: &Text, line: u32) -> Result<(), NoMemory>
    ensures { OnOk result (page.new.items ≡ page.old.items ++ place_json root.now file.now line) }
{
    put(page, b"\"file\":")?;
    put_path(page, root.bytes(), file.bytes())?;
    put(page, b",\"line\":")?;
    put_number(page, u64::from(line))
}

/// Adds where a message leads to.
fn put_see(page: &mut Vec<u8>, root: &Text, other: &Option<Place>) -> Result<(), NoMemory>
    ensures { OnOk result (page.new.items ≡ page.old.items ++ see_json root.now other.now) }
{
    match other {
        Some(place) => {
            put(page, b"{")?;
            put_place(page, root, &place.file, place.line)?;
            put(page, b"}")
        }
        None => put(page, b"null"),
    }
}

/// Adds what a finding is about.
fn put_front(page: &mut Vec<u8>, style: &Style, finding: &Finding) -> Result<(), NoMemory>
    ensures { OnOk result (page.new.items ≡ page.old.items ++ front_json style.now finding.now) }
{
    put(page, b"{\"severity\":\"")?;
    put(page, severity_name(style.promoted.severity(finding.about)))?;
    put(page, b"\",\"kind\":\"")?;
    put(page, about_name(finding.about))?;
    put(page, b"\",")
}

/// Adds where a finding is, and what it says.
fn put_back(page: &mut Vec<u8>, root: &Text, finding: &Finding) -> Result<(), NoMemory>
    ensures { OnOk result (page.new.items ≡ page.old.items ++ back_json root.now finding.now) }
{
    put_place(page, root, &finding.file, finding.line)?;
    put(page, b",\"message\":")?;
    put_text(page, finding.message.bytes())?;
    put(page, b",\"see\":")?;
    put_see(page, root, &finding.other)?;
    put(page, b"}")
}

fn put_finding(page: &mut Vec<u8>, style: &Style, finding: &Finding) -> Result<(), NoMemory>
    ensures { OnOk result (page.new.items ≡ page.old.items ++ finding_json style.now finding.now) }
{
    put_front(page, style, finding)?;
    put_back(page, &style.root, finding)
}

/// Adds a finding behind a comma.
fn put_next(page: &mut Vec<u8>, style: &Style, finding: &Finding) -> Result<(), NoMemory>
    ensures { OnOk result (page.new.items ≡ page.old.items ++ (codes "," ++ finding_json style.now finding.now)) }
{
    put(page, b",")?;
    put_finding(page, style, finding)
}

/// Adds findings, each behind a comma.
fn put_more(page: &mut Vec<u8>, style: &Style, findings: &[Finding]) -> Result<(), NoMemory>
    ensures { OnOk result (
        page.new.items ≡ page.old.items ++ flat_map (λ finding. codes "," ++ finding_json style.now finding) findings.now) }
{
    for finding in findings {
        put_next(page, style, finding)?;
    }
    Ok(())
}

fn put_findings(page: &mut Vec<u8>, style: &Style, findings: &[Finding]) -> Result<(), NoMemory>
    ensures { OnOk result (page.new.items ≡ page.old.items ++ parted (finding_json style.now) findings.now) }
{
    match findings {
        [] => Ok(()),
        [first, rest @ ..] => {
            put_finding(page, style, first)?;
            put_more(page, style, rest)
        }
    }
}

fn put_counts(
    page: &mut Vec<u8>,
    errors: usize,
    warnings: usize,
    files: usize,
) -> Result<(), NoMemory>
    ensures { OnOk result (page.new.items ≡ page.old.items ++ counts_json errors warnings files) }
{
    put(page, b"\"errors\":")?;
    put_number(page, errors as u64)?;
    put(page, b",\"warnings\":")?;
    put_number(page, warnings as u64)?;
    put(page, b",\"files\":")?;
    put_number(page, files as u64)
}

/// The page of a report on so many files.
pub fn json_page(
    alloc: Global,
    style: &Style,
    findings: &[Finding],
    files: usize,
) -> Result<Vec<u8>, NoMemory>
    ensures { IfOk result (λ page. page.items ≡ report_json style.now findings.now files) }
{
    let mut page = Vec::with_capacity(alloc, findings.len().saturating_mul(BYTES_OF_FINDING))?;
    let errors = count_errors(&style.promoted, findings);
    let warnings = count_warnings(&style.promoted, findings);
    put(&mut page, b"{\"findings\":[")?;
    put_findings(&mut page, style, findings)?;
    put(&mut page, b"],")?;
    put_counts(&mut page, errors, warnings, files)?;
    put(&mut page, b"}\n")?;
    Ok(page)
}
