//! Reading a script.

ghost use Rattle.std.specs.Prelude.{◌≡◌, [], All, IfOk, IfErr};
ghost use Rattle.script_lang.specs.Gathering.{IsGatheredWithin, or_else};
ghost use Rattle.script_lang.specs.Ordering as spec;
ghost use Rattle.script_lang.specs.Refusal.{IsOverLimit, IsRefused};
ghost use Rattle.script_lang.specs.Script.{IsScript};
ghost use Rattle.script_lang.specs.Sets.{IsRefusedOfSets, IsScriptOfSets, IsSetOrMain};

use crate::build::build;
use crate::gather::{Gathered, gather};
use crate::order::{first_unfit, first_unfit_of_sets};
use crate::refusal::ScriptRefusal;
use crate::script::Script;
use init_base::NoMemory;
use init_machine::Limit;
use std::alloc::Global;

const MOST_BYTES: usize = 16_777_216;

const MOST_LINES: u32 = 100_000;

const MOST_STEPS: u64 = 1_000_000;

/// Reads a script.
pub fn read(alloc: Global, bytes: &[u8]) -> Result<Script, ScriptRefusal>
    ensures script { IfOk result (IsScript bytes.now) }
    ensures refused { IfErr result (IsRefused bytes.now) }
{
    let gathered = gather_within(alloc, bytes)?;
    if let Some(line) = first_bad(alloc, &gathered)? {
        return Err(ScriptRefusal::BadLine { line });
    }
    Ok(build(alloc, gathered.said)?)
}

/// Reads a script whose clients only set. The limits and the lines are those of `read`, but for a client's read, sync and
/// catch, each of which is a bad line.
pub fn read_sets(alloc: Global, bytes: &[u8]) -> Result<Script, ScriptRefusal>
    ensures script { IfOk result (IsScriptOfSets bytes.now) }
    ensures sets { IfOk result (λ script. All IsSetOrMain script.acts) }
    ensures refused { IfErr result (IsRefusedOfSets bytes.now) }
{
    let gathered = gather_within(alloc, bytes)?;
    if let Some(line) = first_bad_of_sets(alloc, &gathered)? {
        return Err(ScriptRefusal::BadLine { line });
    }
    Ok(build(alloc, gathered.said)?)
}

/// What the lines say, of bytes that pass no limit.
fn gather_within(alloc: Global, bytes: &[u8]) -> Result<Gathered, ScriptRefusal>
    ensures gathered { IfOk result (IsGatheredWithin bytes.now) }
    ensures refused { IfErr result (IsOverLimit bytes.now) }
{
    if bytes.len() > MOST_BYTES {
        return Err(ScriptRefusal::TooLarge {
            limit: Limit::ScriptBytes,
            number: MOST_BYTES as u64 + 1,
        });
    }
    let gathered = gather(alloc, bytes)?;
    if gathered.lines > MOST_LINES {
        return Err(ScriptRefusal::TooLarge {
            limit: Limit::ScriptLines,
            number: u64::from(gathered.lines),
        });
    }
    if gathered.steps > MOST_STEPS {
        return Err(ScriptRefusal::TooLarge {
            limit: Limit::Steps,
            number: gathered.steps,
        });
    }
    Ok(gathered)
}

/// The first line that is out of form, or says what doesn't fit.
fn first_bad(alloc: Global, gathered: &Gathered) -> Result<Option<u32>, NoMemory>
    ensures { IfOk result (λ line. line ≡ or_else (spec.first_unfit [] gathered.now.said) gathered.now.unread) }
{
    Ok(first_unfit(alloc, gathered.said.items())?.or(gathered.unread))
}

/// The first line that is out of form, says what doesn't fit, or is a client's read, sync or catch.
fn first_bad_of_sets(alloc: Global, gathered: &Gathered) -> Result<Option<u32>, NoMemory>
    ensures { IfOk result
        (λ line. line ≡ or_else (spec.first_unfit_of_sets [] gathered.now.said) gathered.now.unread) }
{
    Ok(first_unfit_of_sets(alloc, gathered.said.items())?.or(gathered.unread))
}
