//! Action sections.

ghost use Rattle.std.specs.Prelude.{◌≡◌, ◌++◌, true, IfOk, OnOk};
ghost use Rattle.rc_parse.specs.internal.Adding.{command_diagnostics, section_of, with_action, with_section};
ghost use Rattle.rc_parse.specs.Lines.{is_on};
ghost use Rattle.rc_parse.specs.Readings.{diagnosed, values};
ghost use Rattle.rc_parse.specs.Sections.{command_at, commands_of};

use crate::command::command;
use crate::fault::Fault;
use crate::lines::Section;
use crate::parsed::{Parsed, diagnose};
use crate::trigger::{Triggers, read_triggers};
use crate::words::arguments;
use init_base::{List, NoMemory, Text};
use init_machine::{Action, Command, Diagnostic};
use rc_tokens::{Line, LineSlice};
use std::alloc::Global;

/// Adds the command of a line. What is wrong in it is added to the diagnostics.
fn add_command(
    commands: &mut List<Command>,
    alloc: Global,
    file: &Text,
    line: &Line<'_>,
    diagnostics: &mut List<Diagnostic>,
) -> Result<(), NoMemory>
    ensures commands { OnOk result (commands.new ≡ commands.old ++ values (command_at file.now line.now)) }
    ensures diagnostics { OnOk result
        (diagnostics.new ≡ diagnostics.old ++ diagnosed file.now line.now.number (command_at file.now line.now)) }
{
    match command(alloc, file, line.number(), line.words()) {
        Ok(command) => commands.push(command),
        Err(Fault::Bad(kind)) => diagnose(diagnostics, file, line.number(), kind),
        Err(Fault::NoMemory) => Err(NoMemory),
    }
}

/// The commands of lines. What is wrong in them is added to the diagnostics.
fn commands(
    alloc: Global,
    file: &Text,
    mut lines: LineSlice<'_>,
    diagnostics: &mut List<Diagnostic>,
) -> Result<List<Command>, NoMemory>
    ensures commands { IfOk result (λ commands. commands ≡ commands_of file.now lines.entry) }
    ensures diagnostics { OnOk result (diagnostics.new ≡ diagnostics.old ++ command_diagnostics file.now lines.entry) }
{
    let mut commands = List::with_capacity(alloc, lines.len())?;
    while let Some(line) = lines.pop() {
        add_command(&mut commands, alloc, file, &line, diagnostics)?;
    }
    Ok(commands)
}

/// Adds the action with these triggers and these lines, if it has a command.
fn add_triggered(
    parsed: &mut Parsed,
    alloc: Global,
    file: &Text,
    line: u32,
    triggers: Triggers,
    lines: LineSlice<'_>,
) -> Result<(), NoMemory>
    ensures { OnOk result (parsed.new ≡ with_action file.now parsed.old line triggers lines.entry) }
{
    let commands = commands(alloc, file, lines, &mut parsed.diagnostics)?;
    if commands.is_empty() {
        return Ok(());
    }
    parsed.actions.push(Action {
        file: file.share()?,
        line,
        event: triggers.event,
        props: triggers.props,
        commands,
    })
}

/// Adds an `on` section.
pub fn add_action(
    parsed: &mut Parsed,
    alloc: Global,
    file: &Text,
    section: Section<'_>,
) -> Result<(), NoMemory>
    requires { is_on section.header ≡ true }
    ensures { OnOk result (parsed.new ≡ with_section file.now parsed.old (section_of section.entry.header section.entry.body)) }
{
    let Section { header, body } = section;
    let line = header.number();
    match read_triggers(alloc, arguments(header.words())) {
        Ok(triggers) => add_triggered(parsed, alloc, file, line, triggers, body),
        Err(Fault::Bad(kind)) => diagnose(&mut parsed.diagnostics, file, line, kind),
        Err(Fault::NoMemory) => Err(NoMemory),
    }
}
