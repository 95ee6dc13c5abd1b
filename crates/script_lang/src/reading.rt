//! What one line says.

ghost use Rattle.std.specs.Prelude.{◌≡◌, ◌<◌};
ghost use Rattle.std.specs.List.{list_all};
ghost use Rattle.init_base.specs.Quoted as quoted_spec;
ghost use Rattle.script_lang.specs.Lines.{first_begins_with_hash};
ghost use Rattle.script_lang.specs.Lines as lines_spec;
ghost use Rattle.script_lang.specs.Reading.{IsReading};
ghost use Rattle.script_lang.specs.Statements.{act_of, area_of, ask_of, client_of, exit_of, file_of, plain_statement_of, plan_of, read_of, reading_of, set_of, statement_of, step_of, tick_of};

use crate::fault::Fault;
use crate::number::{number, status};
use crate::script::{Ask, Client};
use crate::statement::Statement;
use crate::words::{Words, is_space};
use init_base::{Millis, PropName, Text, unquoted};
use init_machine::{Pair, Plan};
use std::alloc::Global;

/// The last moment of the clock, in milliseconds.
const LAST_MOMENT: u64 = 1 << 53;

/// What a line says: nothing, or a statement.
#[tactic(auto, unfolding(crate::specs::Statements::reading_of))]
pub fn reading(alloc: Global, line: &[u8]) -> Result<Option<Statement>, Fault>
    ensures { IsReading result (reading_of line.now) }
{
    if says_nothing(line) {
        return Ok(None);
    }
    Ok(Some(statement(alloc, Words::of(line))?))
}

/// Whether a line is empty or a comment.
pub fn says_nothing(line: &[u8]) -> bool
    ensures { result ≡ lines_spec.says_nothing line.now }
{
    is_empty_line(line) || is_comment(line)
}

fn is_empty_line(line: &[u8]) -> bool
    ensures { result ≡ lines_spec.is_empty_line line.now }
{
    line.iter().all(|byte| is_blank(*byte))
}

fn is_blank(byte: u8) -> bool
    ensures { result ≡ lines_spec.is_blank byte }
{
    is_space(byte) || byte == b'\r'
}

fn is_comment(line: &[u8]) -> bool
    ensures { result ≡ lines_spec.is_comment line.now }
{
    begins_with_hash(Words::of(line)) && has_only_permitted(line)
}

/// Whether all bytes are permitted. It goes on behind one that isn't, so that many bytes are judged at a time.
fn has_only_permitted(line: &[u8]) -> bool
    ensures { result ≡ list_all lines_spec.is_permitted line.now }
{
    let mut permitted = true;
    for byte in line {
        permitted = permitted & is_permitted(*byte);
    }
    permitted
}

/// Whether the first word begins with `#`.
fn begins_with_hash(mut words: Words<'_>) -> bool
    ensures { result ≡ first_begins_with_hash words.entry }
{
    match words.next() {
        Ok([first, ..]) => *first == b'#',
        _ => false,
    }
}

/// Whether a byte may stand in a line.
pub fn is_permitted(byte: u8) -> bool
    ensures { result ≡ lines_spec.is_permitted byte }
{
    (byte >= 0x21 && byte <= 0x7e) || is_space(byte)
}

/// The text that a word is in q form.
fn text(alloc: Global, word: &[u8]) -> Result<Text, Fault>
    ensures { IsReading result (quoted_spec.unquoted word.now) }
{
    unquoted(alloc, word)?.ok_or(Fault::Bad)
}

fn area(mut words: Words<'_>) -> Result<Statement, Fault>
    ensures { IsReading result (area_of words.entry) }
{
    let size = words.next()?;
    words.end()?;
    Ok(Statement::Area(number(size, 64, 1_048_576)?))
}

fn plan(alloc: Global, mut words: Words<'_>) -> Result<Statement, Fault>
    ensures { IsReading result (plan_of words.entry) }
{
    let path = words.next()?;
    let after = words.next()?;
    let code = words.next()?;
    words.end()?;
    Ok(Statement::Plan(Plan {
        path: text(alloc, path)?,
        after: Millis(number(after, 0, LAST_MOMENT)?),
        status: status(code)?,
    }))
}

fn client(alloc: Global, mut words: Words<'_>) -> Result<Statement, Fault>
    ensures { IsReading result (client_of words.entry) }
{
    let name = words.next()?;
    let domain = words.next()?;
    words.end()?;
    Ok(Statement::Client(Client {
        name: text(alloc, name)?,
        domain: text(alloc, domain)?,
    }))
}

fn step(mut words: Words<'_>) -> Result<Statement, Fault>
    ensures { IsReading result (step_of words.entry) }
{
    let count = words.next()?;
    words.end()?;
    Ok(Statement::Step(number(count, 1, 1_000_000)? as u32))
}

fn tick(mut words: Words<'_>) -> Result<Statement, Fault>
    ensures { IsReading result (tick_of words.entry) }
{
    let ms = words.next()?;
    words.end()?;
    Ok(Statement::Tick(number(ms, 0, LAST_MOMENT)?))
}

fn exit(alloc: Global, mut words: Words<'_>) -> Result<Statement, Fault>
    ensures { IsReading result (exit_of words.entry) }
{
    let name = words.next()?;
    let code = words.next()?;
    words.end()?;
    Ok(Statement::Exit {
        name: text(alloc, name)?,
        status: status(code)?,
    })
}

fn file(alloc: Global, mut words: Words<'_>) -> Result<Statement, Fault>
    ensures { IsReading result (file_of words.entry) }
{
    let path = words.next()?;
    let content = words.next()?;
    words.end()?;
    Ok(Statement::File {
        path: text(alloc, path)?,
        content: text(alloc, content)?,
    })
}

fn set(alloc: Global, mut words: Words<'_>) -> Result<Ask, Fault>
    ensures { IsReading result (set_of words.entry) }
{
    let name = words.next()?;
    let value = words.next()?;
    words.end()?;
    Ok(Ask::Set(Pair {
        name: text(alloc, name)?,
        value: text(alloc, value)?,
    }))
}

fn read(alloc: Global, mut words: Words<'_>) -> Result<Ask, Fault>
    ensures { IsReading result (read_of words.entry) }
{
    let name = words.next()?;
    words.end()?;
    let name = text(alloc, name)?;
    if PropName::of(name.bytes()).is_none() {
        return Err(Fault::Bad);
    }
    Ok(Ask::Read(name))
}

/// The request of a client.
fn ask(alloc: Global, mut words: Words<'_>) -> Result<Ask, Fault>
    ensures { IsReading result (ask_of words.entry) }
{
    let word = words.next()?;
    if word == b"set".as_slice() {
        set(alloc, words)
    } else if word == b"read".as_slice() {
        read(alloc, words)
    } else if word == b"sync".as_slice() {
        words.end()?;
        Ok(Ask::Sync)
    } else if word == b"catch".as_slice() {
        words.end()?;
        Ok(Ask::Catch)
    } else {
        Err(Fault::Bad)
    }
}

/// What an act of the main actor says, by its first word and the others.
fn act(alloc: Global, word: &[u8], words: Words<'_>) -> Result<Statement, Fault>
    ensures { IsReading result (act_of word.now words.entry) }
{
    if word == b"step".as_slice() {
        step(words)
    } else if word == b"tick".as_slice() {
        tick(words)
    } else if word == b"exit".as_slice() {
        exit(alloc, words)
    } else if word == b"file".as_slice() {
        file(alloc, words)
    } else {
        Err(Fault::Bad)
    }
}

/// What a declaration or an act of the main actor says, by its first word and the others.
fn plain_statement(alloc: Global, word: &[u8], words: Words<'_>) -> Result<Statement, Fault>
    ensures { IsReading result (plain_statement_of word.now words.entry) }
{
    if word == b"area".as_slice() {
        area(words)
    } else if word == b"plan".as_slice() {
        plan(alloc, words)
    } else if word == b"client".as_slice() {
        client(alloc, words)
    } else {
        act(alloc, word, words)
    }
}

/// What the words of a line say.
fn statement(alloc: Global, mut words: Words<'_>) -> Result<Statement, Fault>
    ensures { IsReading result (statement_of words.entry) }
{
    let word = words.next()?;
    match word.strip_prefix(b"@") {
        Some(name) => Ok(Statement::Ask {
            name: text(alloc, name)?,
            ask: ask(alloc, words)?,
        }),
        None => plain_statement(alloc, word, words),
    }
}
