//! Messages on diagnostics: what was meant, and what was expected.

mod import;
mod nearest;
mod options;
mod service;
mod text;
mod trigger;
mod word;

use collections::TextIndex;
use init_base::{NoMemory, Text};
use init_machine::{Config, DiagKind, Diagnostic, ServiceDef};
use lint_findings::Place;
use lint_sources::{SeenFiles, Source};
use list_store::ListStore;
use prop_rules::boot_view;
use rc_parse::{arguments, first_word};
use std::alloc::Global;
pub use text::Message;

/// What is known of a tree where its diagnostics are told.
#[derive(Drop)]
pub struct Teller<'a> {
    alloc: Global,
    services: &'a [ServiceDef],
    /// The names of the services, in the same order, once they were asked for.
    names: Option<TextIndex>,
    seen: &'a SeenFiles,
    /// Where the last line of a build file was found that was told of.
    found: BuildLine,
    /// What the paths of imports are expanded in.
    view: ListStore,
}

impl<'a> Teller<'a> {
    pub fn new(
        alloc: Global,
        config: &'a Config,
        seen: &'a SeenFiles,
    ) -> Result<Teller<'a>, NoMemory> {
        Ok(Teller {
            alloc,
            services: config.services.items(),
            names: None,
            seen,
            found: BuildLine::FIRST,
            view: boot_view(alloc, &config.pairs)?,
        })
    }

    /// The service of a name that stays.
    fn declared(&mut self, name: &[u8]) -> Result<Option<&'a ServiceDef>, NoMemory> {
        let names = match self.names.take() {
            Some(names) => names,
            None => names_of(self.alloc, self.services)?,
        };
        let place = names.place(name);
        self.names = Some(names);
        Ok(match place {
            Some(place) => self.services.get(place),
            None => None,
        })
    }

    /// The message of a diagnostic that is excused.
    pub fn not_modelled(
        &mut self,
        source: &Source,
        diagnostic: &Diagnostic,
    ) -> Result<Text, NoMemory> {
        let (words, part) = source.words_at(diagnostic.line);
        match diagnostic.kind {
            DiagKind::BadTrigger => trigger::not_equal(self.alloc),
            _ => word::not_modelled(self.alloc, part, words),
        }
    }

    /// The message of a diagnostic that is an error.
    pub fn error(&mut self, source: &Source, diagnostic: &Diagnostic) -> Result<Text, NoMemory> {
        let alloc = self.alloc;
        let (words, part) = source.words_at(diagnostic.line);
        let behind = arguments(words);
        match diagnostic.kind {
            DiagKind::Cut => cut(alloc),
            DiagKind::Orphan => word::orphan(alloc, words),
            DiagKind::NoTrigger => trigger::no_trigger(alloc),
            DiagKind::BadTrigger => trigger::bad_trigger(alloc, behind),
            DiagKind::TwiceProp => trigger::twice_prop(alloc, behind),
            DiagKind::BadWord => word::bad_word(alloc, part, words),
            DiagKind::BadArity => word::bad_arity(alloc, part, words),
            DiagKind::BadOption => service::bad_option(alloc, words),
            DiagKind::BadService => service::bad_service(alloc, behind),
            DiagKind::ServiceAgain => { service::service_again(alloc, first_word(behind)) }
            DiagKind::BadImport => import::bad_import(alloc, behind),
            DiagKind::BadProp => self.bad_prop(diagnostic),
            DiagKind::NoFile | DiagKind::Loop | DiagKind::TooDeep | DiagKind::BadExpand => {
                let path = match behind {
                    [path, ..] => path.share()?,
                    [] => Text::empty(),
                };
                import::nowhere(alloc, &mut self.view, diagnostic.kind, &path)
            }
        }
    }

    /// Where the message of a diagnostic leads to: a second service of a name to the one that stays.
    pub fn other(
        &mut self,
        source: &Source,
        diagnostic: &Diagnostic,
    ) -> Result<Option<Place>, NoMemory> {
        if diagnostic.kind != DiagKind::ServiceAgain {
            return Ok(None);
        }
        let (words, _) = source.words_at(diagnostic.line);
        let Some(service) = self.declared(first_word(arguments(words)))? else {
            return Ok(None);
        };
        Ok(Some(Place {
            file: service.file.share()?,
            line: service.line,
        }))
    }

    /// A line of a build file that sets no property.
    fn bad_prop(&mut self, diagnostic: &Diagnostic) -> Result<Text, NoMemory> {
        let alloc = self.alloc;
        let line = self.line_of_build_file(diagnostic);
        let message = Message::of(alloc, b"NAME=VALUE is expected, ")?
            .quote(line)?
            .say(b" is given")?;
        let message = if line.contains(&b'=') {
            message.say(b"; a name that begins with ctl. can't be set here")?
        } else {
            message
        };
        message.end()
    }

    /// The line of a build file that has a diagnostic, without the blanks round it. It is looked for behind the last one that
    /// was told of.
    fn line_of_build_file(&mut self, diagnostic: &Diagnostic) -> &'a [u8] {
        let file = diagnostic.file.bytes();
        let Some(place) = self.seen.place(file) else {
            return &[];
        };
        if self.found.place != place || self.found.number > diagnostic.line {
            self.found = BuildLine {
                place,
                ..BuildLine::FIRST
            };
        }
        self.go_to(diagnostic.line)
    }

    /// Goes to a line of the build file, and answers it without the blanks round it.
    fn go_to(&mut self, number: u32) -> &'a [u8] {
        let found = &mut self.found;
        let Some(seen) = self.seen.files.at(found.place) else {
            return &[];
        };
        let Some(text) = &seen.text else {
            return &[];
        };
        let behind = text.bytes().get(found.start..).unwrap_or_default();
        for line in behind.split(|byte| *byte == b'\n') {
            if found.number == number {
                return line.trim_ascii();
            }
            found.number = found.number.saturating_add(1);
            found.start = found.start.saturating_add(line.len()).saturating_add(1);
        }
        &[]
    }
}

/// The names of the services, in the same order.
fn names_of(alloc: Global, services: &[ServiceDef]) -> Result<TextIndex, NoMemory> {
    let mut names = TextIndex::new(alloc);
    for service in services {
        names.add(service.name.bytes())?;
    }
    Ok(names)
}

/// A physical line of a build file.
#[derive(Clone, Copy, Debug, PartialEq, Eq)]
struct BuildLine {
    /// The place of the file among those that were read.
    place: usize,
    number: u32,
    /// The bytes before it.
    start: usize,
}

impl BuildLine {
    const FIRST: BuildLine = BuildLine {
        place: 0,
        number: 1,
        start: 0,
    };
}

/// A file that ends inside a token.
fn cut(alloc: Global) -> Result<Text, NoMemory> {
    Message::of(
        alloc,
        b"the file ends inside quotes or behind a backslash, in the line that begins here",
    )?
    .end()
}
