//! The first line of a trace that can't stand behind those before it.

ghost use Rattle.std.specs.Prelude.{◌≡◌, ◌<◌, ◌+◌, IfOk, MatchOption, is_none, is_some, true};
ghost use Rattle.init_base.specs.Lines.{lines_of};
ghost use Rattle.trace_reader.specs.Pieces.{left_of};
ghost use Rattle.trace_causes.specs.Faults as spec;
ghost use Rattle.trace_causes.specs.Faults.{IsFirstBad, IsNoReports, IsReports, has_title};

use crate::lines::number_at;
use init_base::{NoMemory, first_line};
use std::alloc::Global;
use trace_reader::{Fault, Piece, Pieces};

/// The last line of each trace, with its end.
const END: &[u8] = b"end\n";

/// How many bytes the reader has left before the last line where it finds that a text is no report's. None exactly where it is
/// a report's.
pub fn stop_in(alloc: Global, text: &[u8]) -> Result<Option<usize>, NoMemory>
    ensures { IfOk result (λ stop. MatchOption stop (IsReports text.now) (λ _. IsNoReports text.now)) }
{
    let Some(mut pieces) = Pieces::of(alloc, text) else {
        return Ok(Some(text.len()));
    };
    let stop = stop_among(alloc, &mut pieces);
    drop(pieces);
    stop
}

/// The same of the pieces that are left: none exactly where they are a report's. What it is given goes by `drop`, so that this proof
/// has nothing to do with it.
fn stop_among(alloc: Global, pieces: &mut Pieces<'_>) -> Result<Option<usize>, NoMemory>
    ensures { IfOk result (λ stop. is_none stop ≡ is_some (left_of pieces.old)) }
{
    loop {
        match pieces.next(alloc) {
            Ok(Piece::Entry(entry)) => drop(entry),
            Ok(Piece::Rest(rest)) => {
                drop(rest);
                return Ok(None);
            }
            Err(Fault::NoMemory) => return Err(NoMemory),
            Err(Fault::Bad) => return Ok(Some(pieces.left())),
        }
    }
}

/// The first lines of a text, so many, and the last line of each trace.
fn ended_front(alloc: Global, text: &[u8], count: u64) -> Result<Vec<u8>, NoMemory>
    ensures { IfOk result (λ page. page.items ≡ spec.ended_front (lines_of text.now) count) }
{
    let mut page = Vec::with_capacity(alloc, text.len() + 1 + END.len())?;
    let mut rest = text;
    let mut left = count;
    while left > 0 && !rest.is_empty() {
        let (line, behind) = first_line(rest);
        page.extend_from_slice(line)?;
        page.push(b'\n')?;
        rest = behind;
        left -= 1;
    }
    page.extend_from_slice(END)?;
    Ok(page)
}

/// The line at which the reader finds that the first lines of a text, so many, don't begin a trace. None exactly where they do.
fn stop_line(alloc: Global, text: &[u8], count: u64) -> Result<Option<u64>, NoMemory>
    ensures { IfOk result (λ line. MatchOption line (IsReports (spec.ended_front (lines_of text.now) count))
        (λ _. IsNoReports (spec.ended_front (lines_of text.now) count))) }
{
    let page = ended_front(alloc, text, count)?;
    match stop_in(alloc, &page)? {
        None => Ok(None),
        Some(left) => {
            let behind = left.saturating_add(END.len());
            Ok(Some(number_at(&page, page.len().saturating_sub(behind))))
        }
    }
}

/// The first line among the first ones, so many, with which no trace goes on. None exactly where a trace may begin with them.
pub fn bad_line(alloc: Global, text: &[u8], count: u64) -> Result<Option<u64>, NoMemory>
    requires title { has_title (lines_of text.now) ≡ true }
    requires some { 0 < count }
    ensures { IfOk result (λ line. MatchOption line (IsReports (spec.ended_front (lines_of text.now) count))
        (IsFirstBad (lines_of text.now) count)) }
{
    match stop_line(alloc, text, count)? {
        None => Ok(None),
        Some(near) => Ok(Some(bad_up_to(alloc, text, count, near)?)),
    }
}

/// The first bad line among the first ones, so many, where they aren't all good. The line at which the reader stopped is tried
/// first, so that two more readings are enough.
fn bad_up_to(alloc: Global, text: &[u8], count: u64, near: u64) -> Result<u64, NoMemory>
    requires title { has_title (lines_of text.now) ≡ true }
    requires bad { IsNoReports (spec.ended_front (lines_of text.now) count) }
    requires more { 1 < count }
    ensures { IfOk result (IsFirstBad (lines_of text.now) count) }
{
    let mut good: u64 = 1;
    let mut bad = count;
    while good + 1 < bad {
        let middle = between(good, bad, near);
        match stop_line(alloc, text, middle)? {
            None => good = middle,
            Some(_) => bad = middle,
        }
    }
    Ok(bad)
}

/// A number between two others: the one before this one, or this one, where these are.
fn between(low: u64, high: u64, near: u64) -> u64
    requires { low + 1 < high }
    ensures above { low < result }
    ensures below { result < high }
{
    if low + 1 < near && near <= high {
        near - 1
    } else if low < near && near < high {
        near
    } else {
        low + (high - low) / 2
    }
}
