//! Reading a baseline's text.

ghost use Rattle.std.specs.Prelude.{◌≡◌, ◌≤◌, ◌++◌, ◌∷◌, [], ◌==◌, position, IsTrue, IfOk, IfErr, MatchOption, length, is_some};
ghost use Rattle.init_base.specs.Quoted as quoted_spec;
ghost use Rattle.lint_findings.specs.Baseline.{ascend, are_rows, behind_word, word_of, BeginsWithNext, IsBaseline, IsRefused, lacks};
ghost use Rattle.lint_findings.specs.Baseline as baseline_spec;
ghost use Rattle.init_machine.specs.Pairs as pairs_spec;
ghost use Rattle.lint_findings.specs.internal.Rows.{TakesRow};

use crate::name::about_of;
use crate::refusal::BaselineRefusal;
use init_base::{List, NoMemory, Text, unquoted};
use std::alloc::Global;

/// The first line, with its end.
const HEAD: &[u8] = b"rc-lint baseline 1\n";

/// The lines of findings that are known.
#[derive(Debug, Drop)]
pub struct Baseline {
    /// Without their ends.
    pub rows: List<Text>,
}

/// The lines of a baseline's text.
pub fn read(alloc: Global, bytes: &[u8]) -> Result<Baseline, BaselineRefusal>
    requires { length bytes.now ≤ 33554432 }
    ensures baseline { IfOk result (λ baseline. IsBaseline bytes.now baseline.rows) }
    ensures refused { IfErr result (IsRefused bytes.now) }
{
    let mut rows = List::new(alloc);
    let Some(mut rest) = bytes.strip_prefix(HEAD) else {
        return Err(BaselineRefusal::BadLine { line: 1 });
    };
    while !rest.is_empty() {
        let line = rows.len() as u32 + 2;
        let Some(behind) = take_row(alloc, &mut rows, rest)? else {
            return Err(BaselineRefusal::BadLine { line });
        };
        rest = behind;
    }
    Ok(Baseline { rows })
}

/// Takes the first line, and answers what stands behind it. None, and nothing is taken, where it can't follow the others.
fn take_row<'a>(
    alloc: Global,
    rows: &mut List<Text>,
    bytes: &'a [u8],
) -> Result<Option<&'a [u8]>, NoMemory>
    requires { IsTrue (are_rows rows.old) }
    ensures { IfOk result (λ behind. MatchOption behind
        (¬ BeginsWithNext rows.old bytes.entry.now) (λ behind. TakesRow rows.old rows.new bytes.entry.now behind.now)) }
{
    let Some((line, behind)) = cut(bytes, b'\n') else {
        return Ok(None);
    };
    if !is_row(alloc, line)? {
        return Ok(None);
    }
    if !may_follow(rows, line) {
        return Ok(None);
    }
    rows.push(Text::of(alloc, line)?)?;
    Ok(Some(behind))
}

/// What stands before the first byte of this value, and what stands behind it.
fn cut(bytes: &[u8], at: u8) -> Option<(&[u8], &[u8])>
    ensures { MatchOption result (IsTrue (lacks at bytes.entry.now))
        (λ parts. (bytes.entry.now ≡ parts.0.now ++ at ∷ parts.1.now) × IsTrue (lacks at parts.0.now)) }
{
    let place = place_of(bytes, at)?;
    Some((&bytes[..place], &bytes[place + 1..]))
}

fn place_of(bytes: &[u8], at: u8) -> Option<usize>
    ensures { result ≡ position (λ b. b == at) bytes.now }
{
    bytes.iter().position(|byte| *byte == at)
}

/// The first word of a text, and what stands behind the space behind it.
fn parted(text: &[u8]) -> (&[u8], &[u8])
    ensures word { result.0.now ≡ word_of text.entry.now }
    ensures behind { result.1.now ≡ behind_word text.entry.now }
{
    match place_of(text, b' ') {
        Some(place) => (&text[..place], &text[place + 1..]),
        None => (text, &[]),
    }
}

fn is_q_form(alloc: Global, word: &[u8]) -> Result<bool, NoMemory>
    ensures { IfOk result (λ is. is ≡ is_some (quoted_spec.unquoted word.now)) }
{
    Ok(unquoted(alloc, word)?.is_some())
}

/// Whether a text without a line's end is a finding's line.
fn is_row(alloc: Global, line: &[u8]) -> Result<bool, NoMemory>
    requires { IsTrue (lacks 10 line.now) }
    ensures { IfOk result (λ is. is ≡ baseline_spec.is_row line.now) }
{
    let (name, texts) = parted(line);
    let (file, message) = parted(texts);
    if about_of(name).is_none() || !is_q_form(alloc, file)? {
        return Ok(false);
    }
    is_q_form(alloc, message)
}

/// Whether a line may stand behind others.
fn may_follow(rows: &List<Text>, line: &[u8]) -> bool
    ensures { IsTrue (ascend rows.now) → result ≡ ascend (rows.now ++ line.now ∷ []) }
{
    match rows.items().last() {
        Some(last) => !is_before(line, last.bytes()),
        None => true,
    }
}

/// Whether one text is before another in the order of bytes.
fn is_before(text: &[u8], other: &[u8]) -> bool
    ensures { result ≡ pairs_spec.is_before text.now other.now }
{
    text < other
}
