//! Why a line of a policy's texts is bad. The causes are defined in `specs/Contexts.antt` and `specs/Allows.antt`.

ghost use Rattle.std.specs.Prelude.{◌≡◌, ◌≤◌, ◌↔◌, ℕ, IfOk, IsTrue, List as Bytes, MatchOption, length};
ghost use Rattle.refusal_causes.specs.Allows.{IsAllowCause};
ghost use Rattle.refusal_causes.specs.Allows as allows_spec;
ghost use Rattle.refusal_causes.specs.Contexts.{IsBadContexts, IsContextCause};
ghost use Rattle.refusal_causes.specs.Contexts as contexts_spec;
ghost use Rattle.prop_contexts.specs.Grammar.{IsBadAllow, IsRefused};
ghost use Rattle.refusal_causes.specs.Contexts.{IsUnrefused};

mod allow;
pub mod cause;
mod context;

use crate::lines::lines;
use allow::allow_line_cause;
use cause::{AllowCause, ContextCause};
use context::{context_line_cause, has_default};
use init_base::NoMemory;
use prop_contexts::{Policy, PolicyRefusal, each_text_has_one_reading};
use std::alloc::Global;

/// Why the line with this number is the first bad one of a contexts text, from 1; the number of its lines plus 1 is that of a line
/// for `*`, where there is none. None exactly where it isn't the first bad one.
#[tactic(auto, using(crate::proofs::ContextCauses::is_told))]
pub fn context_cause(
    alloc: Global,
    bytes: &[u8],
    number: u32,
) -> Result<Option<ContextCause>, NoMemory>
    requires { length bytes.now ≤ 1048576 }
    ensures { IfOk result (λ cause. MatchOption cause (¬ IsBadContexts bytes.now number) (IsContextCause bytes.now number)) }
{
    if is_first_bad_context(alloc, bytes, number)? {
        numbered_context_cause(alloc, bytes, number)
    } else {
        Ok(None)
    }
}

/// Whether the line with this number is the first bad one of a contexts text.
fn is_first_bad_context(alloc: Global, bytes: &[u8], number: u32) -> Result<bool, NoMemory>
    requires { length bytes.now ≤ 1048576 }
    ensures { IfOk result (λ is. IsTrue is ↔ IsBadContexts bytes.now number) }
{
    match refusal_of(alloc, bytes, b"") {
        Some(refusal) => is_at(refusal, number),
        None => Ok(false),
    }
}

/// Why two texts are no policy.
fn refusal_of(alloc: Global, contexts: &[u8], allow: &[u8]) -> Option<PolicyRefusal>
    requires contexts { length contexts.now ≤ 1048576 }
    requires allow { length allow.now ≤ 1048576 }
    ensures { MatchOption result (IsUnrefused contexts.now allow.now) (IsRefused contexts.now allow.now) }
{
    each_text_has_one_reading();
    Policy::read(alloc, contexts, allow).err()
}

/// Whether a refusal is of this line of the contexts text.
fn is_at(refusal: PolicyRefusal, number: u32) -> Result<bool, NoMemory>
    ensures { (contexts allow : Bytes ℕ) → IsRefused contexts allow refusal →
        IfOk result (λ is. IsTrue is ↔ IsBadContexts contexts number) }
{
    match refusal {
        PolicyRefusal::BadLine { allow, line } => Ok(!allow && line == number),
        PolicyRefusal::Twice { line } => Ok(line == number),
        PolicyRefusal::NoDefault { line } => Ok(line == number),
        PolicyRefusal::NoMemory => Err(NoMemory),
    }
}

/// Why the line with this number of the contexts text is bad. None where it isn't.
fn numbered_context_cause(
    alloc: Global,
    bytes: &[u8],
    number: u32,
) -> Result<Option<ContextCause>, NoMemory>
    ensures { IfOk result (λ cause. cause ≡ contexts_spec.numbered_context_cause bytes.now number) }
{
    let lines = lines(alloc, bytes)?;
    let at = number.saturating_sub(1) as usize;
    match lines.at(at) {
        Some(line) => context_line_cause(alloc, &lines.items()[..at], line.bytes()),
        None if at == lines.len() && !has_default(lines.items()) => Ok(Some(
            ContextCause::NoDefault,
        )),
        None => Ok(None),
    }
}

/// Why the line with this number is the first bad one of an allow text, from 1, beside a contexts text in which nothing is wrong.
/// None exactly where it isn't.
#[tactic(auto, using(crate::proofs::AllowCauses::is_told))]
pub fn allow_cause(
    alloc: Global,
    contexts: &[u8],
    bytes: &[u8],
    number: u32,
) -> Result<Option<AllowCause>, NoMemory>
    requires contexts { length contexts.now ≤ 1048576 }
    requires allow { length bytes.now ≤ 1048576 }
    ensures { IfOk result (λ cause.
        MatchOption cause (¬ IsBadAllow contexts.now bytes.now number) (IsAllowCause contexts.now bytes.now number)) }
{
    if is_first_bad_allow(alloc, contexts, bytes, number)? {
        numbered_allow_cause(alloc, bytes, number)
    } else {
        Ok(None)
    }
}

/// Whether the line with this number is the first bad one of an allow text.
fn is_first_bad_allow(
    alloc: Global,
    contexts: &[u8],
    bytes: &[u8],
    number: u32,
) -> Result<bool, NoMemory>
    requires contexts { length contexts.now ≤ 1048576 }
    requires allow { length bytes.now ≤ 1048576 }
    ensures { IfOk result (λ is. IsTrue is ↔ IsBadAllow contexts.now bytes.now number) }
{
    match refusal_of(alloc, contexts, bytes) {
        Some(refusal) => is_at_allow(refusal, number),
        None => Ok(false),
    }
}

/// Whether a refusal is of this line of the allow text.
fn is_at_allow(refusal: PolicyRefusal, number: u32) -> Result<bool, NoMemory>
    ensures { (contexts allow : Bytes ℕ) → IsRefused contexts allow refusal →
        IfOk result (λ is. IsTrue is ↔ IsBadAllow contexts allow number) }
{
    match refusal {
        PolicyRefusal::BadLine { allow, line } => Ok(allow && line == number),
        PolicyRefusal::Twice { .. } => Ok(false),
        PolicyRefusal::NoDefault { .. } => Ok(false),
        PolicyRefusal::NoMemory => Err(NoMemory),
    }
}

/// Why the line with this number of the allow text is bad. None where it isn't, or isn't there.
fn numbered_allow_cause(
    alloc: Global,
    bytes: &[u8],
    number: u32,
) -> Result<Option<AllowCause>, NoMemory>
    ensures { IfOk result (λ cause. cause ≡ allows_spec.numbered_allow_cause bytes.now number) }
{
    let lines = lines(alloc, bytes)?;
    match lines.at(number.saturating_sub(1) as usize) {
        Some(line) => allow_line_cause(alloc, line.bytes()),
        None => Ok(None),
    }
}
