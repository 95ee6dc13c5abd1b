//! Commands that name a service or a class that no file declares.

use super::{NoteKind, Notes};
use crate::message::Message;
use collections::TextIndex;
use init_base::{NoMemory, Text};
use init_machine::{Command, Config, Word};
use lint_findings::WarningKind;
use std::alloc::Global;

/// The names of the services and classes of a tree.
#[derive(Drop)]
pub struct Names {
    services: TextIndex,
    classes: TextIndex,
}

/// What a command names.
#[derive(Clone, Copy)]
enum Named<'a> {
    Service(&'a Text),
    Class(&'a Text),
}

impl Names {
    pub fn of(alloc: Global, config: &Config) -> Result<Names, NoMemory> {
        let mut names = Names {
            services: TextIndex::new(alloc),
            classes: TextIndex::new(alloc),
        };
        for service in config.services.items() {
            names.services.add(service.name.bytes())?;
            for class in service.classes.items() {
                names.classes.add(class.bytes())?;
            }
        }
        Ok(names)
    }
}

/// The service or class that a command names. An option may stand before it. What is expanded isn't known here.
fn name_in(command: &Command) -> Option<Named<'_>> {
    match command.word {
        Word::Start | Word::Stop | Word::Restart | Word::Enable | Word::ExecStart => {
            Some(Named::Service(known_name(command)?))
        }
        Word::ClassStart | Word::ClassStop | Word::ClassReset | Word::ClassRestart => {
            Some(Named::Class(known_name(command)?))
        }
        _ => None,
    }
}

/// The last argument of a command, unless it is expanded.
fn known_name(command: &Command) -> Option<&Text> {
    let name = command.args.items().last()?;
    if name.bytes().contains(&b'$') {
        return None;
    }
    Some(name)
}

/// Adds a warning where a command names what no file declares.
pub fn add(notes: &mut Notes<'_>, names: &Names, command: &Command) -> Result<(), NoMemory> {
    let (kind, name, what): (WarningKind, &Text, &[u8]) = match name_in(command) {
        Some(Named::Service(name)) if names.services.place(name.bytes()).is_none() => {
            (WarningKind::NoService, name, b" names the service ")
        }
        Some(Named::Class(name)) if names.classes.place(name.bytes()).is_none() => {
            (WarningKind::NoClass, name, b" names the class ")
        }
        _ => return Ok(()),
    };
    let behind: &[u8] = match kind {
        WarningKind::NoClass => b", which no service has",
        _ => b", which no file declares",
    };
    let message = Message::of(notes.alloc, command.word.name())?
        .say(what)?
        .quote(name.bytes())?
        .say(behind)?
        .end()?;
    notes.add(
        &command.file,
        command.line,
        NoteKind::Warning(kind),
        message,
    )
}
