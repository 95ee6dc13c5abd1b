//! Events that no action waits for, and actions on events that nothing triggers.

use super::{NoteKind, Notes};
use crate::message::Message;
use collections::TextIndex;
use init_base::{NoMemory, Text};
use init_machine::{Action, Command, Config, Word};
use lint_findings::WarningKind;
use std::alloc::Global;

/// The events that AOSP's init triggers itself (init.cpp, reboot.cpp and builtins.cpp, Android 10 to 15).
const OWN_EVENTS: [&[u8]; 11] = [
    b"charger",
    b"defaultcrypto",
    b"early-init",
    b"encrypt",
    b"init",
    b"late-init",
    b"nonencrypted",
    b"shutdown",
    b"userspace-reboot-fs-remount",
    b"userspace-reboot-requested",
    b"userspace-reboot-resume",
];

/// A command that triggers an event.
#[derive(Clone, Copy)]
struct Trigger<'a> {
    command: &'a Command,
    event: &'a Text,
    /// The place of the event.
    place: usize,
}

/// What is triggered.
#[derive(Drop)]
pub struct Sent<'a> {
    alloc: Global,
    /// The events that init itself or a command triggers.
    events: TextIndex,
    triggers: Vec<Trigger<'a>>,
    /// What stands before the first `$` of the events that are expanded when they are triggered.
    begun: Vec<Vec<u8>>,
}

/// What stands before the first `$` of the events that are expanded when they are triggered: in order, and none begins with
/// another.
#[derive(Drop)]
struct Begun {
    texts: Vec<Vec<u8>>,
}

impl Begun {
    fn of(alloc: Global, texts: Vec<Vec<u8>>) -> Result<Begun, NoMemory> {
        let mut texts = texts;
        texts.sort()?;
        let mut begun = Begun {
            texts: Vec::new(alloc),
        };
        for text in texts {
            begun.add_behind(text)?;
        }
        Ok(begun)
    }

    /// Adds a text that isn't less than those that are there.
    fn add_behind(&mut self, text: Vec<u8>) -> Result<(), NoMemory> {
        let is_known = match self.texts.last() {
            Some(last) => text.starts_with(last.as_slice()),
            None => false,
        };
        if !is_known {
            self.texts.push(text)?;
        }
        Ok(())
    }

    /// Whether an event begins with one of them.
    fn begins(&self, event: &[u8]) -> bool {
        let place = self
            .texts
            .binary_search_by(|text| text.as_slice().cmp(event));
        let before = match place {
            Ok(_) => return true,
            Err(place) => place.checked_sub(1),
        };
        match before.and_then(|last| self.texts.get(last)) {
            Some(text) => event.starts_with(text.as_slice()),
            None => false,
        }
    }
}

/// Adds a warning for each event that goes astray, where all that is sent is known.
pub fn add(notes: &mut Notes<'_>, sent: Sent<'_>, config: &Config) -> Result<(), NoMemory> {
    let Sent {
        alloc,
        events,
        triggers,
        begun,
    } = sent;
    let begun = Begun::of(alloc, begun)?;
    let mut heard = vec![in alloc; false; events.len()]?;
    for action in config.actions.items() {
        if let Some(event) = &action.event {
            match events.place(event.bytes()) {
                Some(place) => mark(&mut heard, place),
                None => add_unsent(notes, &begun, action, event)?,
            }
        }
    }
    for trigger in triggers {
        if !is_marked(&heard, trigger.place) {
            add_unheard(notes, trigger)?;
        }
    }
    Ok(())
}

fn mark(heard: &mut Vec<bool>, place: usize) {
    if let Some(is_heard) = heard.get_mut(place) {
        *is_heard = true;
    }
}

fn is_marked(heard: &Vec<bool>, place: usize) -> bool {
    match heard.get(place) {
        Some(is_heard) => *is_heard,
        None => false,
    }
}

impl<'a> Sent<'a> {
    /// What init itself triggers.
    pub fn by_init(alloc: Global) -> Result<Sent<'a>, NoMemory> {
        let mut events = TextIndex::new(alloc);
        for event in OWN_EVENTS {
            events.add(event)?;
        }
        Ok(Sent {
            alloc,
            events,
            triggers: Vec::new(alloc),
            begun: Vec::new(alloc),
        })
    }

    /// Adds the event that a command triggers, where it does.
    pub fn add(&mut self, command: &'a Command) -> Result<(), NoMemory> {
        match triggered(command) {
            Some(event) => self.add_event(command, event),
            None => Ok(()),
        }
    }

    fn add_event(&mut self, command: &'a Command, event: &'a Text) -> Result<(), NoMemory> {
        let bytes = event.bytes();
        match bytes.iter().position(|byte| *byte == b'$') {
            Some(at) => {
                let alloc = self.alloc;
                self.begun.push(Vec::from_slice(alloc, &bytes[..at])?)?;
            }
            None => {
                let place = self.events.add(bytes)?;
                self.triggers.push(Trigger {
                    command,
                    event,
                    place,
                })?;
            }
        }
        Ok(())
    }
}

/// The event that a command triggers.
fn triggered(command: &Command) -> Option<&Text> {
    match command.word {
        Word::Trigger => command.args.items().first(),
        _ => None,
    }
}

/// Adds a warning of an action on an event that no command names whole, unless one may be expanded to it.
fn add_unsent(
    notes: &mut Notes<'_>,
    begun: &Begun,
    action: &Action,
    event: &Text,
) -> Result<(), NoMemory> {
    if begun.begins(event.bytes()) {
        return Ok(());
    }
    let message = Message::of(notes.alloc, b"nothing triggers the event ")?
        .quote(event.bytes())?
        .end()?;
    let kind = NoteKind::Warning(WarningKind::UnsentEvent);
    notes.add(&action.file, action.line, kind, message)
}

fn add_unheard(notes: &mut Notes<'_>, trigger: Trigger<'_>) -> Result<(), NoMemory> {
    let message = Message::of(notes.alloc, b"no action waits for the event ")?
        .quote(trigger.event.bytes())?
        .end()?;
    let kind = NoteKind::Warning(WarningKind::UnheardEvent);
    let command = trigger.command;
    notes.add(&command.file, command.line, kind, message)
}
