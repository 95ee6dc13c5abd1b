//! The form of SARIF 2.1.0, which services that show findings beside the code read.

ghost use Rattle.std.specs.Prelude.{◌≡◌, ◌++◌, IfOk, OnOk, codes};
ghost use Rattle.std.specs.List.{flat_map};
ghost use Rattle.lint_findings.specs.Json.{parted};
ghost use Rattle.lint_findings.specs.Sarif.{artifact_text, back_text, front_text, level_text, location_text, locations_text, log_text, region_text, related_text, result_text, rule_text};

use crate::finding::{About, Finding, Place};
use crate::json::put_text;
use crate::name::{KINDS, about_name};
use crate::promoted::Severity;
use crate::style::Style;
use crate::uri::uri_of;
use init_base::{NoMemory, Text};
use init_trace::{put, put_number};
use std::alloc::Global;

/// About how many bytes a finding has.
const BYTES_OF_RESULT: usize = 320;

/// What stands before the rules.
const HEAD: &[u8] =
    b"{\"$schema\":\"https://json.schemastore.org/sarif-2.1.0.json\",\"version\":\"2.1.0\",\"runs\":[{\"tool\":{\"driver\":{\"name\":\"rc-lint\",\"version\":\"0.1.0\",\"rules\":[";

/// What stands before a file.
const ARTIFACT: &[u8] = b"{\"physicalLocation\":{\"artifactLocation\":{\"uri\":\"";

/// What stands before a line.
const REGION: &[u8] = b",\"region\":{\"startLine\":";

/// What stands before where a message leads to.
const RELATED: &[u8] = b",\"relatedLocations\":[";

/// What stands before where a finding is.
const LOCATIONS: &[u8] = b"},\"locations\":[";

/// What stands between the rules and the results.
const RESULTS: &[u8] = b"]}},\"results\":[";

/// What stands behind the results.
const TAIL: &[u8] = b"]}]}\n";

fn level_name(severity: Severity) -> &'static [u8]
    ensures { result.now ≡ level_text severity }
{
    match severity {
        Severity::Error => b"error",
        Severity::Warning => b"warning",
        Severity::Hint => b"note",
    }
}

/// Adds a file.
fn put_artifact(page: &mut Vec<u8>, root: &Text, file: &Text) -> Result<(), NoMemory>
    ensures { OnOk result (page.new.items ≡ page.old.items ++ artifact_text root.now file.now) }
{
    let uri = uri_of(*page.allocator(), root.bytes(), file.bytes())?;
    put(page, ARTIFACT)?;
    put(page, &uri)?;
    put(page, b"\"}")
}

/// Adds a line.
fn put_region(page: &mut Vec<u8>, line: u32) -> Result<(), NoMemory>
    ensures { OnOk result (page.new.items ≡ page.old.items ++ region_text line) }
{
    put(page, REGION)?;
    put_number(page, u64::from(line))?;
    put(page, b"}}}")
}

/// Adds a line of a file.
fn put_location(page: &mut Vec<u8>, root: &Text, file: &Text, line: u32) -> Result<(), NoMemory>
    ensures { OnOk result (page.new.items ≡ page.old.items ++ location_text root.now file.now line) }
{
    put_artifact(page, root, file)?;
    put_region(page, line)
}

/// Adds where a message leads to.
fn put_related(page: &mut Vec<u8>, root: &Text, other: &Option<Place>) -> Result<(), NoMemory>
    ensures { OnOk result (page.new.items ≡ page.old.items ++ related_text root.now other.now) }
{
    match other {
        Some(place) => {
            put(page, RELATED)?;
            put_location(page, root, &place.file, place.line)?;
            put(page, b"]")
        }
        None => Ok(()),
    }
}

/// Adds what a finding is about.
fn put_front(page: &mut Vec<u8>, style: &Style, finding: &Finding) -> Result<(), NoMemory>
    ensures { OnOk result (page.new.items ≡ page.old.items ++ front_text style.now finding.now) }
{
    put(page, b"{\"ruleId\":\"")?;
    put(page, about_name(finding.about))?;
    put(page, b"\",\"level\":\"")?;
    put(page, level_name(style.promoted.severity(finding.about)))?;
    put(page, b"\",\"message\":{\"text\":")
}

/// Adds where a finding is, and the end of its result.
fn put_locations(page: &mut Vec<u8>, root: &Text, finding: &Finding) -> Result<(), NoMemory>
    ensures { OnOk result (page.new.items ≡ page.old.items ++ locations_text root.now finding.now) }
{
    put_location(page, root, &finding.file, finding.line)?;
    put(page, b"]")?;
    put_related(page, root, &finding.other)?;
    put(page, b"}")
}

/// Adds what a finding says, and where it is.
fn put_back(page: &mut Vec<u8>, root: &Text, finding: &Finding) -> Result<(), NoMemory>
    ensures { OnOk result (page.new.items ≡ page.old.items ++ back_text root.now finding.now) }
{
    put_text(page, finding.message.bytes())?;
    put(page, LOCATIONS)?;
    put_locations(page, root, finding)
}

#[tactic(auto, unfolding(crate::specs::Sarif::result_text))]
fn put_result(page: &mut Vec<u8>, style: &Style, finding: &Finding) -> Result<(), NoMemory>
    ensures { OnOk result (page.new.items ≡ page.old.items ++ result_text style.now finding.now) }
{
    put_front(page, style, finding)?;
    put_back(page, &style.root, finding)
}

/// Adds a result behind a comma.
fn put_next(page: &mut Vec<u8>, style: &Style, finding: &Finding) -> Result<(), NoMemory>
    ensures { OnOk result (page.new.items ≡ page.old.items ++ (codes "," ++ result_text style.now finding.now)) }
{
    put(page, b",")?;
    put_result(page, style, finding)
}

/// Adds results, each behind a comma.
fn put_more(page: &mut Vec<u8>, style: &Style, findings: &[Finding]) -> Result<(), NoMemory>
    ensures { OnOk result (
        page.new.items ≡ page.old.items ++ flat_map (λ finding. codes "," ++ result_text style.now finding) findings.now) }
{
    for finding in findings {
        put_next(page, style, finding)?;
    }
    Ok(())
}

fn put_results(page: &mut Vec<u8>, style: &Style, findings: &[Finding]) -> Result<(), NoMemory>
    ensures { OnOk result (page.new.items ≡ page.old.items ++ parted (result_text style.now) findings.now) }
{
    match findings {
        [] => Ok(()),
        [first, rest @ ..] => {
            put_result(page, style, first)?;
            put_more(page, style, rest)
        }
    }
}

fn put_rule(page: &mut Vec<u8>, about: About) -> Result<(), NoMemory>
    ensures { OnOk result (page.new.items ≡ page.old.items ++ rule_text about) }
{
    put(page, b"{\"id\":\"")?;
    put(page, about_name(about))?;
    put(page, b"\"}")
}

/// Adds rules, each behind a comma.
fn put_more_rules(page: &mut Vec<u8>, kinds: &[(&[u8], About)]) -> Result<(), NoMemory>
    ensures { OnOk result (page.new.items ≡ page.old.items ++ flat_map (λ kind. codes "," ++ rule_text kind.1) kinds.now) }
{
    for kind in kinds {
        put(page, b",")?;
        put_rule(page, kind.1)?;
    }
    Ok(())
}

fn put_rules(page: &mut Vec<u8>, kinds: &[(&[u8], About)]) -> Result<(), NoMemory>
    ensures { OnOk result (page.new.items ≡ page.old.items ++ parted (λ kind. rule_text kind.1) kinds.now) }
{
    match kinds {
        [] => Ok(()),
        [first, rest @ ..] => {
            put_rule(page, first.1)?;
            put_more_rules(page, rest)
        }
    }
}

/// The page of a report.
pub fn sarif_page(alloc: Global, style: &Style, findings: &[Finding]) -> Result<Vec<u8>, NoMemory>
    ensures { IfOk result (λ page. page.items ≡ log_text style.now findings.now) }
{
    let mut page = Vec::with_capacity(alloc, findings.len().saturating_mul(BYTES_OF_RESULT))?;
    put(&mut page, HEAD)?;
    put_rules(&mut page, &KINDS)?;
    put(&mut page, RESULTS)?;
    put_results(&mut page, style, findings)?;
    put(&mut page, TAIL)?;
    Ok(page)
}
