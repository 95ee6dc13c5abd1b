//! Readings: what a client learned, line by line.

ghost use Rattle.std.specs.Prelude.{◌≡◌};
ghost use Rattle.trace_reader.specs.Reading.{IsReading};
ghost use Rattle.trace_reader.specs.Lines.{absent_of, again_of, found_of, reading_of};

use crate::fields::Fields;
use crate::number::large;
use crate::serial::serial;
use crate::word::{only_number, text};
use init_machine::Reading;
use script_lang::Fault;
use std::alloc::Global;

/// A reading, by its first word and the fields behind it.
pub fn reading(alloc: Global, word: &[u8], fields: Fields<'_>) -> Result<Reading, Fault>
    ensures { IsReading result (reading_of word.now fields.entry) }
{
    if word == b"found".as_slice() {
        found(alloc, fields)
    } else if word == b"absent".as_slice() {
        absent(alloc, fields)
    } else if word == b"again".as_slice() {
        again(alloc, fields)
    } else if word == b"synced".as_slice() {
        Ok(Reading::Synced {
            number: only_number(fields)?,
        })
    } else if word == b"caught".as_slice() {
        Ok(Reading::Caught {
            number: only_number(fields)?,
        })
    } else {
        Err(Fault::Bad)
    }
}

fn found(alloc: Global, mut fields: Fields<'_>) -> Result<Reading, Fault>
    ensures { IsReading result (found_of fields.entry) }
{
    let name = fields.field()?;
    let number = fields.field()?;
    let value = fields.field()?;
    fields.end()?;
    Ok(Reading::Found {
        name: text(alloc, name)?,
        number: large(number)?,
        value: text(alloc, value)?,
    })
}

fn absent(alloc: Global, mut fields: Fields<'_>) -> Result<Reading, Fault>
    ensures { IsReading result (absent_of fields.entry) }
{
    let name = fields.field()?;
    let number = fields.field()?;
    fields.end()?;
    Ok(Reading::Absent {
        name: text(alloc, name)?,
        number: large(number)?,
    })
}

fn again(alloc: Global, mut fields: Fields<'_>) -> Result<Reading, Fault>
    ensures { IsReading result (again_of fields.entry) }
{
    let name = fields.field()?;
    let number = fields.field()?;
    let first = fields.field()?;
    let second = fields.field()?;
    fields.end()?;
    Ok(Reading::Again {
        name: text(alloc, name)?,
        number: large(number)?,
        first: serial(alloc, first)?,
        second: serial(alloc, second)?,
    })
}
