//! Files, section by section.

ghost use Rattle.std.specs.Prelude.{◌≡◌, false, IsTrue, IfOk, OnOk};
ghost use Rattle.std.specs.List.{list_all};
ghost use Rattle.rc_parse.specs.internal.Adding.{section_of, with_section};
ghost use Rattle.rc_parse.specs.Lines as spec;
ghost use Rattle.rc_parse.specs.Sections.{Sections, has_command};

use crate::action::add_action;
use crate::imports::{add_cut, add_orphans, read_import};
use crate::lines::{Section, take_section};
use crate::parsed::Parsed;
use crate::service::add_service;
use crate::words::{is_on, is_service};
use init_base::{NoMemory, Text};
use rc_tokens::Tokens;
use std::alloc::Global;

/// Adds an `import` section. The lines behind it belong to no section.
fn add_import(parsed: &mut Parsed, file: &Text, section: Section<'_>) -> Result<(), NoMemory>
    requires other { spec.is_on section.header ≡ false }
    requires import { spec.is_service section.header ≡ false }
    ensures { OnOk result (parsed.new ≡ with_section file.now parsed.old (section_of section.entry.header section.entry.body)) }
{
    let Section { header, body } = section;
    let Parsed {
        imports,
        diagnostics,
        ..
    } = parsed;
    read_import(imports, diagnostics, file, &header, body)?;
    Ok(())
}

/// Adds a section.
fn add_section(
    parsed: &mut Parsed,
    alloc: Global,
    file: &Text,
    section: Section<'_>,
) -> Result<(), NoMemory>
    ensures { OnOk result (parsed.new ≡ with_section file.now parsed.old (section_of section.entry.header section.entry.body)) }
{
    if is_on(&section.header) {
        add_action(parsed, alloc, file, section)
    } else if is_service(&section.header) {
        add_service(parsed, alloc, file, section)
    } else {
        add_import(parsed, file, section)
    }
}

/// What the lines of a file mean. The words that stay share their bytes with those of the lines.
pub fn parse(alloc: Global, file: &Text, tokens: &Tokens) -> Result<Parsed, NoMemory>
    ensures sections { IfOk result (λ parsed. Sections file.now tokens.now parsed) }
    // Each action has a command.
    ensures commands { IfOk result (λ parsed. IsTrue (list_all has_command parsed.actions)) }
{
    let mut parsed = Parsed::new(alloc);
    let mut lines = tokens.lines();
    add_orphans(&mut parsed.diagnostics, file, take_section(&mut lines))?;
    while let Some(header) = lines.pop() {
        let body = take_section(&mut lines);
        add_section(&mut parsed, alloc, file, Section { header, body })?;
    }
    add_cut(&mut parsed.diagnostics, file, tokens.dropped())?;
    Ok(parsed)
}
