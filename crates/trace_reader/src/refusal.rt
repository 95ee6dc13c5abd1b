//! Why a property isn't set, as a trace tells it.

ghost use Rattle.std.specs.Prelude.{◌≡◌};
ghost use Rattle.trace_reader.specs.Reading.{IsReading};
ghost use Rattle.trace_reader.specs.Reading as spec;
ghost use Rattle.trace_reader.specs.Refusals.{area_full_of, refusal_in, refusal_of};

use crate::fields::Fields;
use crate::number::large;
use crate::table::named;
use crate::word::{only_number, only_text};
use init_machine::SetRefusal;
use script_lang::Fault;
use std::alloc::Global;

/// The refusals that may stand in a trace.
#[derive(Clone, Copy, Debug, PartialEq, Eq)]
pub enum RefusalWord {
    Down,
    InvalidName,
    UnknownControl,
    Denied,
    NoSuchService,
    InvalidType,
    ValueTooLong,
    NotUtf8,
    ReadOnly,
    AreaFull,
    NumberSpent,
}

pub const REFUSALS: [(&[u8], RefusalWord); 11] = [
    (b"Down", RefusalWord::Down),
    (b"InvalidName", RefusalWord::InvalidName),
    (b"UnknownControl", RefusalWord::UnknownControl),
    (b"Denied", RefusalWord::Denied),
    (b"NoSuchService", RefusalWord::NoSuchService),
    (b"InvalidType", RefusalWord::InvalidType),
    (b"ValueTooLong", RefusalWord::ValueTooLong),
    (b"NotUtf8", RefusalWord::NotUtf8),
    (b"ReadOnly", RefusalWord::ReadOnly),
    (b"AreaFull", RefusalWord::AreaFull),
    (b"NumberSpent", RefusalWord::NumberSpent),
];

/// A refusal, by its name and what it tells.
pub fn refusal(alloc: Global, mut fields: Fields<'_>) -> Result<SetRefusal, Fault>
    ensures { IsReading result (refusal_of fields.entry) }
{
    let word = fields.field()?;
    told_refusal(alloc, named(&REFUSALS, word)?, fields)
}

/// A refusal, by what it tells.
fn told_refusal(alloc: Global, word: RefusalWord, fields: Fields<'_>) -> Result<SetRefusal, Fault>
    ensures { IsReading result (refusal_in word fields.entry) }
{
    match word {
        RefusalWord::Down => Ok(SetRefusal::Down {
            target: only_text(alloc, fields)?,
        }),
        RefusalWord::InvalidName => lone(SetRefusal::InvalidName, fields),
        RefusalWord::UnknownControl => lone(SetRefusal::UnknownControl, fields),
        RefusalWord::Denied => Ok(SetRefusal::Denied {
            context: only_text(alloc, fields)?,
        }),
        RefusalWord::NoSuchService => lone(SetRefusal::NoSuchService, fields),
        RefusalWord::InvalidType => lone(SetRefusal::InvalidType, fields),
        RefusalWord::ValueTooLong => Ok(SetRefusal::ValueTooLong {
            len: only_number(fields)?,
        }),
        RefusalWord::NotUtf8 => lone(SetRefusal::NotUtf8, fields),
        RefusalWord::ReadOnly => Ok(SetRefusal::ReadOnly {
            number: only_number(fields)?,
        }),
        RefusalWord::AreaFull => area_full(fields),
        RefusalWord::NumberSpent => Ok(SetRefusal::NumberSpent {
            last: only_number(fields)?,
        }),
    }
}

/// A refusal that tells nothing but its name.
fn lone(refusal: SetRefusal, fields: Fields<'_>) -> Result<SetRefusal, Fault>
    ensures { IsReading result (spec.lone refusal fields.entry) }
{
    fields.end()?;
    Ok(refusal)
}

fn area_full(mut fields: Fields<'_>) -> Result<SetRefusal, Fault>
    ensures { IsReading result (area_full_of fields.entry) }
{
    let used = fields.field()?;
    let need = fields.field()?;
    fields.end()?;
    Ok(SetRefusal::AreaFull {
        used: large(used)?,
        need: large(need)?,
    })
}
