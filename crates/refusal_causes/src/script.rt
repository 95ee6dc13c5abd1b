//! Why a line of a script is bad. The causes are defined in `specs/Script.antt`.

ghost use Rattle.std.specs.Prelude.{◌≡◌, ◌↔◌, ℕ, IfOk, IsTrue, List as Bytes, MatchOption, not};
ghost use Rattle.std.specs.List.{find};
ghost use Rattle.refusal_causes.specs.Script.{IsScriptCause};
ghost use Rattle.refusal_causes.specs.Script as script_spec;
ghost use Rattle.script_lang.specs.Lines as lines_spec;
ghost use Rattle.script_lang.specs.Refusal.{IsBadAt, IsRefused};

mod argument;
pub mod cause;
mod misfit;
mod statement;

use crate::lines::lines;
use cause::ScriptCause;
use init_base::{NoMemory, Text};
use misfit::misfit_cause;
use script_lang::{
    ScriptRefusal, all_words, each_text_has_one_reading, is_permitted, says_nothing,
};
use statement::statement_cause;
use std::alloc::Global;

/// Why the line with this number is the first bad one of a script, from 1. None exactly where it isn't.
#[tactic(auto, using(crate::proofs::ScriptCauses::is_told))]
pub fn script_cause(
    alloc: Global,
    bytes: &[u8],
    number: u32,
) -> Result<Option<ScriptCause>, NoMemory>
    ensures { IfOk result (λ cause. MatchOption cause (¬ IsBadAt bytes.now number) (IsScriptCause bytes.now number)) }
{
    if is_first_bad(alloc, bytes, number)? {
        numbered_cause(alloc, bytes, number)
    } else {
        Ok(None)
    }
}

/// Whether the line with this number is the first bad one.
fn is_first_bad(alloc: Global, bytes: &[u8], number: u32) -> Result<bool, NoMemory>
    ensures { IfOk result (λ is. IsTrue is ↔ IsBadAt bytes.now number) }
{
    match refusal_of(alloc, bytes) {
        Some(refusal) => is_at(refusal, number),
        None => Ok(false),
    }
}

/// Why bytes are no script.
fn refusal_of(alloc: Global, bytes: &[u8]) -> Option<ScriptRefusal>
    ensures { MatchOption result ((number : ℕ) → ¬ IsBadAt bytes.now number) (IsRefused bytes.now) }
{
    each_text_has_one_reading();
    script_lang::read(alloc, bytes).err()
}

/// Whether a refusal is of this line.
fn is_at(refusal: ScriptRefusal, number: u32) -> Result<bool, NoMemory>
    ensures { (bytes : Bytes ℕ) → IsRefused bytes refusal → IfOk result (λ is. IsTrue is ↔ IsBadAt bytes number) }
{
    each_text_has_one_reading();
    match refusal {
        ScriptRefusal::BadLine { line } => Ok(line == number),
        ScriptRefusal::TooLarge { .. } => Ok(false),
        ScriptRefusal::NoMemory => Err(NoMemory),
    }
}

/// Why the line with this number is bad. None where it isn't, or isn't there.
fn numbered_cause(alloc: Global, bytes: &[u8], number: u32) -> Result<Option<ScriptCause>, NoMemory>
    ensures { IfOk result (λ cause. cause ≡ script_spec.numbered_cause bytes.now number) }
{
    let lines = lines(alloc, bytes)?;
    let at = number.saturating_sub(1) as usize;
    match lines.at(at) {
        Some(line) => line_cause(alloc, &lines.items()[..at], line.bytes()),
        None => Ok(None),
    }
}

/// Why a line is bad behind the lines before it.
fn line_cause(alloc: Global, before: &[Text], line: &[u8]) -> Result<Option<ScriptCause>, NoMemory>
    ensures { IfOk result (λ cause. cause ≡ script_spec.line_cause before.now line.now) }
{
    if says_nothing(line) {
        return Ok(None);
    }
    if let Some(byte) = forbidden_byte(line) {
        return Ok(Some(ScriptCause::BadByte { byte }));
    }
    let words = all_words(alloc, line)?;
    match statement_cause(alloc, words.items())? {
        Some(cause) => Ok(Some(cause)),
        None => misfit_cause(alloc, before, words.items()),
    }
}

/// The first byte of a line that may not stand in one.
fn forbidden_byte(line: &[u8]) -> Option<u8>
    ensures { result ≡ find (λ byte. not (lines_spec.is_permitted byte)) line.now }
{
    line.iter().copied().find(|byte| !is_permitted(*byte))
}
