//! Lines of a report: diagnostics, the heads of entries, outputs, readings.

ghost use Rattle.std.specs.Prelude.{◌≡◌, ◌++◌, ◌∷◌, [], ℕ, List as Items, OnOk, length};
ghost use Rattle.std.specs.Fmt.{decimal};
ghost use Rattle.init_trace.specs.Line.{line_text, spaced};
ghost use Rattle.init_trace.specs.Quoted as spec;
ghost use Rattle.init_trace.specs.Fields.{cause_fields, diagnostic_fields, head_fields, how_fields, output_fields, reading_fields, refusal_fields};
ghost use Rattle.init_trace.specs.Report.{client_fields, end_fields, output_line, reading_line, title_fields};

use crate::field::{
    led_text, number, serial, text, texts, word, word_number, word_text, word_texts,
};
use crate::quote::{digits, put, put_byte};
use crate::words::{kind_name, tree_name};
use init_base::{NoMemory, SharedList, Text};
use init_machine::{Cause, ClientPart, Diagnostic, How, Input, Output, Reading, SetRefusal, Word};

/// What has a line of its own in a report.
pub trait Line {
    // the fields of the line
    ghost fields: { Self → Items (Items ℕ) };

    /// Adds the line at the end of a page.
    fn add(&self, page: &mut Vec<u8>) -> Result<(), NoMemory>
        ensures { OnOk result (page.new.items ≡ page.old.items ++ line_text (fields self.now)) };
}

impl Line for Diagnostic {
    ghost fields = { diagnostic_fields };

    fn add(&self, page: &mut Vec<u8>) -> Result<(), NoMemory> {
        put(page, b"diag")?;
        text(page, &self.file)?;
        number(page, u64::from(self.line))?;
        word(page, kind_name(self.kind))?;
        put_byte(page, b'\n')
    }
}

impl Line for Input {
    ghost fields = { head_fields };

    fn add(&self, page: &mut Vec<u8>) -> Result<(), NoMemory> {
        if matches!(self, Input::Next) {
            return put(page, b"next\n");
        }
        add_head(page, self)?;
        put_byte(page, b'\n')
    }
}

/// Adds the fields of an entry's head.
fn add_head(page: &mut Vec<u8>, input: &Input) -> Result<(), NoMemory>
    ensures { OnOk result (page.new.items ++ 10 ∷ []
        ≡ page.old.items ++ line_text (head_fields input.now)) }
{
    match input {
        Input::Boot => put(page, b"boot"),
        Input::Next => put(page, b"next"),
        Input::Tick { ms } => {
            put(page, b"tick")?;
            number(page, *ms)
        }
        Input::Exit { name, status } => {
            put(page, b"exit")?;
            text(page, name)?;
            number(page, u64::from(*status))
        }
        Input::File { path, content } => {
            put(page, b"file")?;
            text(page, path)?;
            text(page, content)
        }
        Input::Set { who, name, value } => {
            put(page, b"set")?;
            number(page, u64::from(who.0))?;
            text(page, name)?;
            text(page, value)
        }
    }
}

impl Line for Reading {
    ghost fields = { reading_line };

    fn add(&self, page: &mut Vec<u8>) -> Result<(), NoMemory> {
        add_reading(page, self)?;
        put_byte(page, b'\n')
    }
}

/// Adds the fields of a reading.
fn add_reading(page: &mut Vec<u8>, reading: &Reading) -> Result<(), NoMemory>
    ensures { OnOk result (page.new.items ≡ page.old.items ++ spaced (reading_fields reading.now)) }
{
    match reading {
        Reading::Found {
            name,
            number: seen,
            value,
        } => {
            word_text(page, b"found", name)?;
            number(page, *seen)?;
            text(page, value)
        }
        Reading::Absent { name, number: seen } => {
            word_text(page, b"absent", name)?;
            number(page, *seen)
        }
        Reading::Again {
            name,
            number: seen,
            first,
            second,
        } => {
            word_text(page, b"again", name)?;
            number(page, *seen)?;
            serial(page, *first)?;
            serial(page, *second)
        }
        Reading::Synced { number: seen } => word_number(page, b"synced", *seen),
        Reading::Caught { number: seen } => word_number(page, b"caught", *seen),
    }
}

impl Line for Output {
    ghost fields = { output_line };

    fn add(&self, page: &mut Vec<u8>) -> Result<(), NoMemory> {
        if matches!(self, Output::Ok) {
            return put(page, b" ok\n");
        }
        add_output(page, self)?;
        put_byte(page, b'\n')
    }
}

/// Adds the fields of an output.
fn add_output(page: &mut Vec<u8>, output: &Output) -> Result<(), NoMemory>
    ensures { OnOk result (page.new.items ≡ page.old.items ++ spaced (output_fields output.now)) }
{
    match output {
        Output::Event { name } => led_text(page, b" event ", name),
        Output::Change { name, value } => word_texts(page, b"change", name, value),
        Output::Action { file, line } => add_action(page, file, *line),
        Output::Command {
            file,
            line,
            word,
            args,
        } => add_command(page, file, *line, *word, args),
        Output::Put {
            number,
            name,
            value,
        } => add_put(page, *number, name, value),
        Output::Stored { name } => word_text(page, b"stored", name),
        Output::Unset { name, refusal } => add_unset(page, name, refusal),
        Output::Spawn { pid, name, path } => add_spawn(page, pid.0, name, path),
        Output::NoPid { name } => word_text(page, b"no-pid", name),
        Output::Kill { pid, name } => add_process(page, b"kill", pid.0, name),
        Output::Reap { pid, name, how } => add_reap(page, pid.0, name, *how),
        Output::Env { name, value } => word_texts(page, b"env", name, value),
        Output::Tree { path } => word_text(page, b"tree", path),
        Output::Failed { cause } => add_failed(page, cause),
        Output::WaitChild { pid } => add_wait_child(page, pid.0),
        Output::WaitProp { name, value } => add_wait_prop(page, name, value),
        Output::WaitFile { path, until } => add_wait_file(page, path, until.0),
        Output::Reboot { target } => word_text(page, b"reboot", target),
        Output::Accepted { number } => word_number(page, b"accepted", *number),
        Output::Control { number } => word_number(page, b"control", *number),
        Output::Refused { refusal } => add_refused(page, refusal),
        _ => word(page, lone_word(output)),
    }
}

/// The word of an output that is one word.
fn lone_word(output: &Output) -> &'static [u8]
    requires { length (output_fields output.now) ≡ 1 }
    ensures { output_fields output.now ≡ result.now ∷ [] }
{
    match output {
        Output::AllProperties => b"all-properties",
        Output::Noted => b"noted",
        Output::Ok => b"ok",
        Output::Released => b"released",
        Output::Timeout => b"timeout",
        Output::Blocked => b"blocked",
        Output::Idle => b"idle",
        Output::Down => b"down",
        Output::TooFar => b"too-far",
        Output::NoProcess => b"no-process",
        _ => unreachable!(),
    }
}

pub fn add_action(page: &mut Vec<u8>, file: &Text, line: u32) -> Result<(), NoMemory>
    ensures { OnOk result (page.new.items
        ≡ page.old.items ++ spaced (output_fields (Output.Action file.now line))) }
{
    led_text(page, b" action ", file)?;
    number(page, u64::from(line))
}

pub fn add_command(
    page: &mut Vec<u8>,
    file: &Text,
    line: u32,
    command: Word,
    args: &SharedList<Text>,
) -> Result<(), NoMemory>
    ensures { OnOk result (page.new.items
        ≡ page.old.items ++ spaced (output_fields (Output.Command file.now line command args.now))) }
{
    led_text(page, b" command ", file)?;
    number(page, u64::from(line))?;
    word(page, command.name())?;
    texts(page, args.items())
}

pub fn add_put(page: &mut Vec<u8>, set: u64, name: &Text, value: &Text) -> Result<(), NoMemory>
    ensures { OnOk result (page.new.items
        ≡ page.old.items ++ spaced (output_fields (Output.Put set name.now value.now))) }
{
    put(page, b" put ")?;
    digits(page, set)?;
    text(page, name)?;
    text(page, value)
}

fn add_unset(page: &mut Vec<u8>, name: &Text, refusal: &SetRefusal) -> Result<(), NoMemory>
    ensures { OnOk result (page.new.items
        ≡ page.old.items ++ spaced (output_fields (Output.Unset name.now refusal.now))) }
{
    word_text(page, b"unset", name)?;
    add_refusal(page, refusal)
}

fn add_refused(page: &mut Vec<u8>, refusal: &SetRefusal) -> Result<(), NoMemory>
    ensures { OnOk result (page.new.items
        ≡ page.old.items ++ spaced (output_fields (Output.Refused refusal.now))) }
{
    word(page, b"refused")?;
    add_refusal(page, refusal)
}

fn add_failed(page: &mut Vec<u8>, cause: &Cause) -> Result<(), NoMemory>
    ensures { OnOk result (page.new.items
        ≡ page.old.items ++ spaced (output_fields (Output.Failed cause.now))) }
{
    word(page, b"failed")?;
    add_cause(page, cause)
}

/// Adds a word, a process and its name.
pub fn add_process(
    page: &mut Vec<u8>,
    name: &[u8],
    pid: u32,
    process: &Text,
) -> Result<(), NoMemory>
    ensures { OnOk result (page.new.items
        ≡ page.old.items ++ spaced (name.now ∷ decimal pid ∷ spec.quoted process.now ∷ [])) }
{
    word_number(page, name, u64::from(pid))?;
    text(page, process)
}

pub fn add_spawn(page: &mut Vec<u8>, pid: u32, name: &Text, path: &Text) -> Result<(), NoMemory>
    ensures { OnOk result (page.new.items
        ≡ page.old.items ++ spaced (output_fields (Output.Spawn (record { 0 = pid }) name.now path.now))) }
{
    add_process(page, b"spawn", pid, name)?;
    text(page, path)
}

pub fn add_reap(page: &mut Vec<u8>, pid: u32, name: &Text, how: How) -> Result<(), NoMemory>
    ensures { OnOk result (page.new.items
        ≡ page.old.items ++ spaced (output_fields (Output.Reap (record { 0 = pid }) name.now how))) }
{
    add_process(page, b"reap", pid, name)?;
    add_how(page, how)
}

/// Adds how a process ended.
#[tactic(auto, unfolding(crate::specs::Fields::how_fields))]
fn add_how(page: &mut Vec<u8>, how: How) -> Result<(), NoMemory>
    ensures { OnOk result (page.new.items ≡ page.old.items ++ spaced (how_fields how)) }
{
    match how {
        How::Exit(status) => word_number(page, b"exit", u64::from(status)),
        How::Killed => word(page, b"killed"),
    }
}

fn add_wait_child(page: &mut Vec<u8>, pid: u32) -> Result<(), NoMemory>
    ensures { OnOk result (page.new.items
        ≡ page.old.items ++ spaced (output_fields (Output.WaitChild (record { 0 = pid })))) }
{
    word(page, b"wait")?;
    word_number(page, b"child", u64::from(pid))
}

fn add_wait_prop(page: &mut Vec<u8>, name: &Text, value: &Text) -> Result<(), NoMemory>
    ensures { OnOk result (page.new.items
        ≡ page.old.items ++ spaced (output_fields (Output.WaitProp name.now value.now))) }
{
    word(page, b"wait")?;
    word_texts(page, b"prop", name, value)
}

fn add_wait_file(page: &mut Vec<u8>, path: &Text, until: u64) -> Result<(), NoMemory>
    ensures { OnOk result (page.new.items
        ≡ page.old.items ++ spaced (output_fields (Output.WaitFile path.now (record { 0 = until })))) }
{
    word(page, b"wait")?;
    word_text(page, b"file", path)?;
    number(page, until)
}

/// Adds a refusal and what it tells.
#[tactic(auto, unfolding(crate::specs::Fields::refusal_fields))]
fn add_refusal(page: &mut Vec<u8>, refusal: &SetRefusal) -> Result<(), NoMemory>
    ensures { OnOk result (page.new.items ≡ page.old.items ++ spaced (refusal_fields refusal.now)) }
{
    match refusal {
        SetRefusal::Spent => word(page, b"Spent"),
        SetRefusal::Down { target } => word_text(page, b"Down", target),
        SetRefusal::InvalidName => word(page, b"InvalidName"),
        SetRefusal::UnknownControl => word(page, b"UnknownControl"),
        SetRefusal::Denied { context } => word_text(page, b"Denied", context),
        SetRefusal::NoSuchService => word(page, b"NoSuchService"),
        SetRefusal::InvalidType => word(page, b"InvalidType"),
        SetRefusal::ValueTooLong { len } => word_number(page, b"ValueTooLong", *len),
        SetRefusal::NotUtf8 => word(page, b"NotUtf8"),
        SetRefusal::ReadOnly { number } => word_number(page, b"ReadOnly", *number),
        SetRefusal::AreaFull { used, need } => {
            word_number(page, b"AreaFull", *used)?;
            number(page, *need)
        }
        SetRefusal::NumberSpent { last } => word_number(page, b"NumberSpent", *last),
        SetRefusal::NoMemory => word(page, b"NoMemory"),
    }
}

/// Adds why a command failed.
#[tactic(auto, unfolding(crate::specs::Fields::cause_fields))]
fn add_cause(page: &mut Vec<u8>, cause: &Cause) -> Result<(), NoMemory>
    ensures { OnOk result (page.new.items ≡ page.old.items ++ spaced (cause_fields cause.now)) }
{
    match cause {
        Cause::Absent { name } => word_text(page, b"Absent", name),
        Cause::BadForm { place } => word_number(page, b"BadForm", *place),
        Cause::TooLong => word(page, b"TooLong"),
        Cause::NoSuchService { name } => word_text(page, b"NoSuchService", name),
        Cause::AlreadyRunning { name } => word_text(page, b"AlreadyRunning", name),
        Cause::NoPid => word(page, b"NoPid"),
        Cause::BadArgument { number } => word_number(page, b"BadArgument", *number),
        Cause::Tree { kind } => {
            word(page, b"Tree")?;
            word(page, tree_name(*kind))
        }
        Cause::Set { refusal } => {
            word(page, b"Set")?;
            add_refusal(page, refusal)
        }
    }
}

/// Adds the head of a client's part.
pub fn add_client(page: &mut Vec<u8>, id: u64, part: &ClientPart) -> Result<(), NoMemory>
    ensures { OnOk result (page.new.items
        ≡ page.old.items ++ line_text (client_fields id part.now)) }
{
    put(page, b"client")?;
    number(page, id)?;
    text(page, &part.name)?;
    text(page, &part.domain)?;
    put_byte(page, b'\n')
}

/// The first line of each text.
pub struct Title;

impl Line for Title {
    ghost fields = { λ _. title_fields };

    fn add(&self, page: &mut Vec<u8>) -> Result<(), NoMemory> {
        put(page, b"initsim 1\n")
    }
}

/// The last line of each text.
pub struct End;

impl Line for End {
    ghost fields = { λ _. end_fields };

    fn add(&self, page: &mut Vec<u8>) -> Result<(), NoMemory> {
        put(page, b"end\n")
    }
}
