//! Lines that no space begins: diagnostics, the heads of entries, and those of clients.

ghost use Rattle.std.specs.Prelude.{◌≡◌};
ghost use Rattle.trace_reader.specs.Reading.{IsReading};
ghost use Rattle.trace_reader.specs.Lines.{client_of, diagnostic_of, exit_of, file_of, input_of, set_of, tick_of};

use crate::fields::Fields;
use crate::line::Line;
use crate::number::{large, small, status};
use crate::word::{kind, only_number, text, two_texts};
use init_base::ClientId;
use init_machine::{Diagnostic, Input};
use script_lang::Fault;
use std::alloc::Global;

/// The input of an entry, by the first word of its head and the fields behind it.
pub fn input(alloc: Global, word: &[u8], fields: Fields<'_>) -> Result<Input, Fault>
    ensures { IsReading result (input_of word.now fields.entry) }
{
    if word == b"next".as_slice() {
        fields.end()?;
        Ok(Input::Next)
    } else if word == b"set".as_slice() {
        set(alloc, fields)
    } else if word == b"tick".as_slice() {
        tick(fields)
    } else if word == b"exit".as_slice() {
        exit(alloc, fields)
    } else if word == b"file".as_slice() {
        file(alloc, fields)
    } else if word == b"boot".as_slice() {
        fields.end()?;
        Ok(Input::Boot)
    } else {
        Err(Fault::Bad)
    }
}

fn tick(fields: Fields<'_>) -> Result<Input, Fault>
    ensures { IsReading result (tick_of fields.entry) }
{
    Ok(Input::Tick {
        ms: only_number(fields)?,
    })
}

fn exit(alloc: Global, mut fields: Fields<'_>) -> Result<Input, Fault>
    ensures { IsReading result (exit_of fields.entry) }
{
    let name = fields.field()?;
    let code = fields.field()?;
    fields.end()?;
    Ok(Input::Exit {
        name: text(alloc, name)?,
        status: status(code)?,
    })
}

fn file(alloc: Global, fields: Fields<'_>) -> Result<Input, Fault>
    ensures { IsReading result (file_of fields.entry) }
{
    let (path, content) = two_texts(alloc, fields)?;
    Ok(Input::File { path, content })
}

fn set(alloc: Global, mut fields: Fields<'_>) -> Result<Input, Fault>
    ensures { IsReading result (set_of fields.entry) }
{
    let who = fields.field()?;
    let name = fields.field()?;
    let value = fields.field()?;
    fields.end()?;
    Ok(Input::Set {
        who: ClientId(small(who)?),
        name: text(alloc, name)?,
        value: text(alloc, value)?,
    })
}

/// A diagnostic, by the fields behind its word.
pub fn diagnostic(alloc: Global, mut fields: Fields<'_>) -> Result<Diagnostic, Fault>
    ensures { IsReading result (diagnostic_of fields.entry) }
{
    let file = fields.field()?;
    let line = fields.field()?;
    let name = fields.field()?;
    fields.end()?;
    Ok(Diagnostic {
        file: text(alloc, file)?,
        line: small(line)?,
        kind: kind(name)?,
    })
}

/// The head of a client's part, by the fields behind its word.
pub fn client(alloc: Global, mut fields: Fields<'_>) -> Result<Line, Fault>
    ensures { IsReading result (client_of fields.entry) }
{
    let id = fields.field()?;
    let name = fields.field()?;
    let domain = fields.field()?;
    fields.end()?;
    Ok(Line::Client {
        id: large(id)?,
        name: text(alloc, name)?,
        domain: text(alloc, domain)?,
    })
}
