//! Why a command failed, and how a process ended, as a trace tells it.

ghost use Rattle.std.specs.Prelude.{◌≡◌};
ghost use Rattle.script_lang.specs.Statements.{status_in};
ghost use Rattle.trace_reader.specs.Reading.{IsReading, only};
ghost use Rattle.trace_reader.specs.Reading as spec;
ghost use Rattle.trace_reader.specs.Refusals.{cause_in, cause_of, how_of};
ghost use Rattle.trace_reader.specs.Words.{tree_in};

use crate::fields::Fields;
use crate::number::status;
use crate::refusal::refusal;
use crate::table::named;
use crate::word::{only_number, only_text, tree_refusal};
use init_machine::{Cause, FsRefusal, How};
use script_lang::Fault;
use std::alloc::Global;

/// The causes of failures.
#[derive(Clone, Copy, Debug, PartialEq, Eq)]
pub enum CauseWord {
    Absent,
    BadForm,
    TooLong,
    NoSuchService,
    AlreadyRunning,
    NoPid,
    BadArgument,
    Tree,
    Set,
}

pub const CAUSES: [(&[u8], CauseWord); 9] = [
    (b"Absent", CauseWord::Absent),
    (b"BadForm", CauseWord::BadForm),
    (b"TooLong", CauseWord::TooLong),
    (b"NoSuchService", CauseWord::NoSuchService),
    (b"AlreadyRunning", CauseWord::AlreadyRunning),
    (b"NoPid", CauseWord::NoPid),
    (b"BadArgument", CauseWord::BadArgument),
    (b"Tree", CauseWord::Tree),
    (b"Set", CauseWord::Set),
];

/// A cause, by its name and what it tells.
pub fn cause(alloc: Global, mut fields: Fields<'_>) -> Result<Cause, Fault>
    ensures { IsReading result (cause_of fields.entry) }
{
    let word = fields.field()?;
    told_cause(alloc, named(&CAUSES, word)?, fields)
}

/// A cause, by what it tells.
fn told_cause(alloc: Global, word: CauseWord, fields: Fields<'_>) -> Result<Cause, Fault>
    ensures { IsReading result (cause_in word fields.entry) }
{
    match word {
        CauseWord::Absent => Ok(Cause::Absent {
            name: only_text(alloc, fields)?,
        }),
        CauseWord::BadForm => Ok(Cause::BadForm {
            place: only_number(fields)?,
        }),
        CauseWord::TooLong => lone(Cause::TooLong, fields),
        CauseWord::NoSuchService => Ok(Cause::NoSuchService {
            name: only_text(alloc, fields)?,
        }),
        CauseWord::AlreadyRunning => Ok(Cause::AlreadyRunning {
            name: only_text(alloc, fields)?,
        }),
        CauseWord::NoPid => lone(Cause::NoPid, fields),
        CauseWord::BadArgument => Ok(Cause::BadArgument {
            number: only_number(fields)?,
        }),
        CauseWord::Tree => Ok(Cause::Tree {
            kind: only_tree_refusal(fields)?,
        }),
        CauseWord::Set => Ok(Cause::Set {
            refusal: refusal(alloc, fields)?,
        }),
    }
}

/// A cause that tells nothing but its name.
fn lone(cause: Cause, fields: Fields<'_>) -> Result<Cause, Fault>
    ensures { IsReading result (spec.lone cause fields.entry) }
{
    fields.end()?;
    Ok(cause)
}

fn only_tree_refusal(mut fields: Fields<'_>) -> Result<FsRefusal, Fault>
    ensures { IsReading result (only tree_in fields.entry) }
{
    let word = fields.field()?;
    fields.end()?;
    tree_refusal(word)
}

/// How a process ended.
pub fn how(mut fields: Fields<'_>) -> Result<How, Fault>
    ensures { IsReading result (how_of fields.entry) }
{
    let word = fields.field()?;
    if word == b"exit".as_slice() {
        Ok(How::Exit(only_status(fields)?))
    } else if word == b"killed".as_slice() {
        fields.end()?;
        Ok(How::Killed)
    } else {
        Err(Fault::Bad)
    }
}

/// The status that the one field is that is left.
fn only_status(mut fields: Fields<'_>) -> Result<u8, Fault>
    ensures { IsReading result (only status_in fields.entry) }
{
    let word = fields.field()?;
    fields.end()?;
    status(word)
}
