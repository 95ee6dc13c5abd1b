//! The first line of a text that no report has there. What a fault says is in `specs/Faults.antt`.

ghost use Rattle.std.specs.Prelude.{◌≡◌, ◌≤◌, IfOk, MatchOption, length, true};
ghost use Rattle.init_base.specs.Lines.{lines_of};
ghost use Rattle.trace_causes.specs.Faults as spec;
ghost use Rattle.trace_causes.specs.Faults.{IsNoReports, IsReports, OneFault, Says, Shows, ended_front, has_title};

use crate::bad_line::{bad_line, stop_in};
use crate::lines::{count_lines, line_at};
use init_base::NoMemory;
use std::alloc::Global;

/// What is wrong with a line.
#[derive(Clone, Copy, Debug, PartialEq, Eq)]
pub enum LineFault {
    /// The first line of a trace should stand there.
    NoTitle,
    /// The line is in no form, or can't stand there.
    NoForm,
    /// The text ends without the last line of a trace.
    NoEnd,
    /// It is the last line, and doesn't end with LF.
    NoLineFeed,
}

/// The first line of a text that no report has there.
#[derive(Clone, Copy, Debug, PartialEq, Eq)]
pub struct TextFault {
    pub line: u64,
    pub what: LineFault,
}

/// The first line of a text that no report has there. None exactly where the text is a report's.
pub fn fault_in(alloc: Global, text: &[u8]) -> Result<Option<TextFault>, NoMemory>
    ensures { IfOk result (λ fault. MatchOption fault (IsReports text.now) (Shows text.now)) }
{
    if stop_in(alloc, text)?.is_none() {
        return Ok(None);
    }
    Ok(Some(fault_of(alloc, text)?))
}

/// No text has two faults.
pub fn a_text_has_one_fault()
    ensures { OneFault }
{}

/// What is wrong first with a text that is no report's.
fn fault_of(alloc: Global, text: &[u8]) -> Result<TextFault, NoMemory>
    requires { IsNoReports text.now }
    ensures { IfOk result (λ fault. Says fault.what text.now fault.line) }
{
    if is_line(text, 1, b"initsim 1") {
        fault_behind(alloc, text)
    } else {
        Ok(TextFault {
            line: 1,
            what: LineFault::NoTitle,
        })
    }
}

/// What is wrong first with a text that is no report's, whose first line is that of a trace.
fn fault_behind(alloc: Global, text: &[u8]) -> Result<TextFault, NoMemory>
    requires none { IsNoReports text.now }
    requires title { has_title (lines_of text.now) ≡ true }
    ensures { IfOk result (λ fault. Says fault.what text.now fault.line) }
{
    match bad_line(alloc, text, inner_count(text))? {
        Some(bad) => Ok(TextFault {
            line: told_number(text, bad),
            what: LineFault::NoForm,
        }),
        None => Ok(end_fault(text)),
    }
}

/// How many lines stand before a last line `end`; all where the last one is another.
fn inner_count(text: &[u8]) -> u64
    ensures { result ≡ spec.inner_count (lines_of text.now) }
{
    let count = count_lines(text);
    if is_line(text, count, b"end") {
        count - 1
    } else {
        count
    }
}

/// The number that is told of a bad line.
fn told_number(text: &[u8], bad: u64) -> u64
    requires { bad ≤ length (lines_of text.now) }
    ensures { result ≡ spec.told_number (lines_of text.now) bad }
{
    if is_line(text, bad, b"end") {
        bad + 1
    } else {
        bad
    }
}

/// What is wrong with the end of a text that is no report's, in whose lines nothing is wrong.
fn end_fault(text: &[u8]) -> TextFault
    requires none { IsNoReports text.now }
    requires title { has_title (lines_of text.now) ≡ true }
    requires good { IsReports (ended_front (lines_of text.now) (spec.inner_count (lines_of text.now))) }
    ensures { Says result.what text.now result.line }
{
    let count = count_lines(text);
    if text.ends_with(b"\n") {
        TextFault {
            line: count + 1,
            what: LineFault::NoEnd,
        }
    } else {
        TextFault {
            line: count,
            what: LineFault::NoLineFeed,
        }
    }
}

/// Whether the line with this number stands in a text, and is this one.
fn is_line(text: &[u8], number: u64, wanted: &[u8]) -> bool
    ensures { result ≡ spec.has_line (lines_of text.now) number wanted.now }
{
    match line_at(text, number) {
        Some(line) => line == wanted,
        None => false,
    }
}
