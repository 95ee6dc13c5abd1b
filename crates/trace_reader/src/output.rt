//! Outputs: what the machine did, line by line.

ghost use Rattle.std.specs.Prelude.{◌≡◌};
ghost use Rattle.trace_reader.specs.Reading.{IsReading};
ghost use Rattle.trace_reader.specs.Reading as spec;
ghost use Rattle.trace_reader.specs.Outputs.{action_of, command_of, kill_of, output_in, put_of, reap_of, spawn_of, unset_of, wait_child_of, wait_file_of, wait_of, wait_prop_of};

use crate::cause::{cause, how};
use crate::fields::Fields;
use crate::number::{large, small};
use crate::output_word::OutputWord;
use crate::refusal::refusal;
use crate::word::{command_word, only_number, only_text, text, texts, two_texts};
use init_base::{Millis, Pid, SharedList};
use init_machine::Output;
use script_lang::Fault;
use std::alloc::Global;

/// An output, by its first word and the fields behind it.
pub fn output(alloc: Global, word: OutputWord, fields: Fields<'_>) -> Result<Output, Fault>
    ensures { IsReading result (output_in word fields.entry) }
{
    match word {
        OutputWord::Event => Ok(Output::Event {
            name: only_text(alloc, fields)?,
        }),
        OutputWord::Change => change(alloc, fields),
        OutputWord::AllProperties => lone(Output::AllProperties, fields),
        OutputWord::Action => action(alloc, fields),
        OutputWord::Command => command(alloc, fields),
        OutputWord::Put => put(alloc, fields),
        OutputWord::Stored => Ok(Output::Stored {
            name: only_text(alloc, fields)?,
        }),
        OutputWord::Unset => unset(alloc, fields),
        OutputWord::Spawn => spawn(alloc, fields),
        OutputWord::NoPid => Ok(Output::NoPid {
            name: only_text(alloc, fields)?,
        }),
        OutputWord::Kill => kill(alloc, fields),
        OutputWord::Reap => reap(alloc, fields),
        OutputWord::Env => env(alloc, fields),
        OutputWord::Tree => Ok(Output::Tree {
            path: only_text(alloc, fields)?,
        }),
        OutputWord::Noted => lone(Output::Noted, fields),
        OutputWord::Ok => lone(Output::Ok, fields),
        OutputWord::Failed => Ok(Output::Failed {
            cause: cause(alloc, fields)?,
        }),
        OutputWord::Wait => wait(alloc, fields),
        OutputWord::Released => lone(Output::Released, fields),
        OutputWord::Timeout => lone(Output::Timeout, fields),
        OutputWord::Blocked => lone(Output::Blocked, fields),
        OutputWord::Idle => lone(Output::Idle, fields),
        OutputWord::Down => lone(Output::Down, fields),
        OutputWord::TooFar => lone(Output::TooFar, fields),
        OutputWord::NoProcess => lone(Output::NoProcess, fields),
        OutputWord::Reboot => Ok(Output::Reboot {
            target: only_text(alloc, fields)?,
        }),
        OutputWord::Accepted => Ok(Output::Accepted {
            number: only_number(fields)?,
        }),
        OutputWord::Control => Ok(Output::Control {
            number: only_number(fields)?,
        }),
        OutputWord::Refused => Ok(Output::Refused {
            refusal: refusal(alloc, fields)?,
        }),
    }
}

/// An output that is one word.
fn lone(output: Output, fields: Fields<'_>) -> Result<Output, Fault>
    ensures { IsReading result (spec.lone output fields.entry) }
{
    fields.end()?;
    Ok(output)
}

fn change(alloc: Global, fields: Fields<'_>) -> Result<Output, Fault>
    ensures { IsReading result (output_in OutputWord.Change fields.entry) }
{
    let (name, value) = two_texts(alloc, fields)?;
    Ok(Output::Change { name, value })
}

fn env(alloc: Global, fields: Fields<'_>) -> Result<Output, Fault>
    ensures { IsReading result (output_in OutputWord.Env fields.entry) }
{
    let (name, value) = two_texts(alloc, fields)?;
    Ok(Output::Env { name, value })
}

fn action(alloc: Global, mut fields: Fields<'_>) -> Result<Output, Fault>
    ensures { IsReading result (action_of fields.entry) }
{
    let file = fields.field()?;
    let line = fields.field()?;
    fields.end()?;
    Ok(Output::Action {
        file: text(alloc, file)?,
        line: small(line)?,
    })
}

fn command(alloc: Global, mut fields: Fields<'_>) -> Result<Output, Fault>
    ensures { IsReading result (command_of fields.entry) }
{
    let file = fields.field()?;
    let line = fields.field()?;
    let word = fields.field()?;
    Ok(Output::Command {
        file: text(alloc, file)?,
        line: small(line)?,
        word: command_word(word)?,
        args: SharedList::of(alloc, texts(alloc, fields)?)?,
    })
}

fn put(alloc: Global, mut fields: Fields<'_>) -> Result<Output, Fault>
    ensures { IsReading result (put_of fields.entry) }
{
    let number = fields.field()?;
    let name = fields.field()?;
    let value = fields.field()?;
    fields.end()?;
    Ok(Output::Put {
        number: large(number)?,
        name: text(alloc, name)?,
        value: text(alloc, value)?,
    })
}

fn unset(alloc: Global, mut fields: Fields<'_>) -> Result<Output, Fault>
    ensures { IsReading result (unset_of fields.entry) }
{
    let name = fields.field()?;
    Ok(Output::Unset {
        name: text(alloc, name)?,
        refusal: refusal(alloc, fields)?,
    })
}

fn spawn(alloc: Global, mut fields: Fields<'_>) -> Result<Output, Fault>
    ensures { IsReading result (spawn_of fields.entry) }
{
    let pid = fields.field()?;
    let name = fields.field()?;
    let path = fields.field()?;
    fields.end()?;
    Ok(Output::Spawn {
        pid: Pid(small(pid)?),
        name: text(alloc, name)?,
        path: text(alloc, path)?,
    })
}

fn kill(alloc: Global, mut fields: Fields<'_>) -> Result<Output, Fault>
    ensures { IsReading result (kill_of fields.entry) }
{
    let pid = fields.field()?;
    let name = fields.field()?;
    fields.end()?;
    Ok(Output::Kill {
        pid: Pid(small(pid)?),
        name: text(alloc, name)?,
    })
}

fn reap(alloc: Global, mut fields: Fields<'_>) -> Result<Output, Fault>
    ensures { IsReading result (reap_of fields.entry) }
{
    let pid = fields.field()?;
    let name = fields.field()?;
    Ok(Output::Reap {
        pid: Pid(small(pid)?),
        name: text(alloc, name)?,
        how: how(fields)?,
    })
}

/// What a command waits for.
fn wait(alloc: Global, mut fields: Fields<'_>) -> Result<Output, Fault>
    ensures { IsReading result (wait_of fields.entry) }
{
    let word = fields.field()?;
    if word == b"child".as_slice() {
        wait_child(fields)
    } else if word == b"prop".as_slice() {
        wait_prop(alloc, fields)
    } else if word == b"file".as_slice() {
        wait_file(alloc, fields)
    } else {
        Err(Fault::Bad)
    }
}

fn wait_child(mut fields: Fields<'_>) -> Result<Output, Fault>
    ensures { IsReading result (wait_child_of fields.entry) }
{
    let pid = fields.field()?;
    fields.end()?;
    Ok(Output::WaitChild {
        pid: Pid(small(pid)?),
    })
}

fn wait_prop(alloc: Global, fields: Fields<'_>) -> Result<Output, Fault>
    ensures { IsReading result (wait_prop_of fields.entry) }
{
    let (name, value) = two_texts(alloc, fields)?;
    Ok(Output::WaitProp { name, value })
}

fn wait_file(alloc: Global, mut fields: Fields<'_>) -> Result<Output, Fault>
    ensures { IsReading result (wait_file_of fields.entry) }
{
    let path = fields.field()?;
    let until = fields.field()?;
    fields.end()?;
    Ok(Output::WaitFile {
        path: text(alloc, path)?,
        until: Millis(large(until)?),
    })
}
