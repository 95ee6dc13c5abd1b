//! Reading a report's text.

ghost use Rattle.std.specs.Prelude.{◌≡◌, ◌+◌, ◌≤◌, ◌<◌, IfOk, MatchOption, MatchResult, length};
ghost use Rattle.std.specs.List.{slice_split};
ghost use Rattle.trace_reader.specs.Drafts.{IsStep, body_of, body_report, finished, framed, line_added, report_from};
ghost use Rattle.trace_reader.specs.Reading.{IsReading, IsUnread};
ghost use Rattle.trace_reader.specs.Reports.{IsReportOf};
ghost use Rattle.trace_reader.specs.Split.{is_line_feed};

use crate::draft::Draft;
use crate::fields::cut;
use crate::line::read_line;
use init_base::NoMemory;
use init_machine::Report;
use script_lang::Fault;
use std::alloc::Global;

/// The first line of each text, with its end.
const TITLE: &[u8] = b"initsim 1\n";

/// The last line of each text, with its end.
const END: &[u8] = b"end\n";

/// The report that the bytes are the text of. None exactly where they are the text of no report.
pub fn read(alloc: Global, text: &[u8]) -> Result<Option<Report>, NoMemory>
    ensures { IfOk result (IsReportOf text.now) }
{
    match report(alloc, text) {
        Ok(report) => Ok(Some(report)),
        Err(Fault::Bad) => Ok(None),
        Err(Fault::NoMemory) => Err(NoMemory),
    }
}

fn report(alloc: Global, text: &[u8]) -> Result<Report, Fault>
    ensures { IsReading result (framed text.now) }
{
    match within_frame(text) {
        Some(body) => lines(alloc, body),
        None => Err(Fault::Bad),
    }
}

/// What stands between the first line and the last one.
pub fn within_frame(text: &[u8]) -> Option<&[u8]>
    ensures { MatchOption result (body_of text.entry.now ≡ None) (λ body. body_of text.entry.now ≡ Some body.now) }
{
    text.strip_prefix(TITLE)?.strip_suffix(END)
}

/// The report of the lines between the first one and the last one.
fn lines(alloc: Global, body: &[u8]) -> Result<Report, Fault>
    ensures { IsReading result (body_report (slice_split is_line_feed body.now)) }
{
    let mut draft = Draft::new(alloc);
    let mut rest = body;
    while !rest.is_empty() {
        rest = take_line(alloc, &mut draft, rest)?;
    }
    Ok(draft.finish()?)
}

/// Adds the first line of a text to a draft, and answers what stands behind the line.
pub fn take_line<'a>(alloc: Global, draft: &mut Draft, text: &'a [u8]) -> Result<&'a [u8], Fault>
    requires { 0 < length text.now }
    ensures added { MatchResult result
        (λ behind. report_from draft.old (slice_split is_line_feed text.entry.now)
        ≡ report_from draft.new (slice_split is_line_feed behind.now))
        (IsUnread (report_from draft.old (slice_split is_line_feed text.entry.now))) }
    ensures shorter { IfOk result (λ behind. length behind.now < length text.entry.now) }
    ensures entries { IfOk result (λ _. length (finished draft.new).history ≤ length (finished draft.old).history + 1) }
{
    let Some((bytes, behind)) = cut(text, b'\n') else {
        return Err(Fault::Bad);
    };
    add_line(alloc, draft, bytes)?;
    Ok(behind)
}

/// Adds a line to a draft, without the LF that ends it.
fn add_line(alloc: Global, draft: &mut Draft, bytes: &[u8]) -> Result<(), Fault>
    ensures { IsStep result draft.new (line_added draft.old bytes.now) }
{
    let told = read_line(alloc, bytes)?;
    draft.add(alloc, told)
}
