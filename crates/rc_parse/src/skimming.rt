//! Files whose actions and services aren't kept: the same lines are judged as in `sections`, and no value is made of them.

ghost use Rattle.std.specs.Prelude.{◌≡◌, ◌++◌, true, false, IfOk, OnOk};
ghost use Rattle.std.specs.List.{list_any};
ghost use Rattle.rc_parse.specs.internal.Adding.{command_diagnostics, section_of, setting_diagnostics};
ghost use Rattle.rc_parse.specs.internal.Skimming.{settled, with_skim};
ghost use Rattle.rc_parse.specs.Lines as spec;
ghost use Rattle.rc_parse.specs.Readings.{IsReading, diagnosed, values};
ghost use Rattle.rc_parse.specs.Sections.{Sections, action_diagnostics, command_at, orphan_diagnostics, setting_at, settings_of};
ghost use Rattle.rc_parse.specs.Services.{is_override};
ghost use Rattle.rc_parse.specs.Skims.{skim_of};
ghost use Rattle.rc_parse.specs.Triggers.{triggers_of};
ghost use Rattle.rc_parse.specs.declared.parsed.Parsed.{Parsed};

use crate::command::command_word;
use crate::fault::Fault;
use crate::imports::{add_cut, add_path};
use crate::parsed::diagnose;
use crate::service::is_service_header;
use crate::setting::judge_setting;
use crate::skimmed::{ServiceMark, Skimmed};
use crate::spans::{first_of, second_of, take_span_section};
use crate::trigger::{is_bad_trigger, read_triggers};
use crate::words::{arguments, is_text};
use init_base::{List, NoMemory, Text};
use init_machine::{DiagKind, Diagnostic};
use rc_tokens::{SpanLine, SpanSlice, SpanTokens};
use std::alloc::Global;

/// Adds what is wrong in a command's line.
#[tactic(auto, using(crate::proofs::Firsts::args_count))]
fn judge_command(
    diagnostics: &mut List<Diagnostic>,
    file: &Text,
    line: &SpanLine<'_>,
) -> Result<(), NoMemory>
    ensures { OnOk result (diagnostics.new ≡ diagnostics.old ++ diagnosed file.now line.now.number (command_at file.now line.now)) }
{
    match command_word(first_of(line), line.len().saturating_sub(1)) {
        Ok(_) => Ok(()),
        Err(Fault::Bad(kind)) => diagnose(diagnostics, file, line.number(), kind),
        Err(Fault::NoMemory) => Err(NoMemory),
    }
}

/// Adds what is wrong in lines of commands.
fn judge_commands(
    diagnostics: &mut List<Diagnostic>,
    file: &Text,
    mut lines: SpanSlice<'_>,
) -> Result<(), NoMemory>
    ensures { OnOk result (diagnostics.new ≡ diagnostics.old ++ command_diagnostics file.now lines.entry) }
{
    while let Some(line) = lines.pop() {
        judge_command(diagnostics, file, &line)?;
    }
    Ok(())
}

/// Whether the triggers of an `on` line are of a good form. Of one alone no value is made.
#[tactic(auto, using(crate::proofs::Alone::good_alone, crate::proofs::Alone::bad_alone))]
fn judge_triggers(alloc: Global, header: &SpanLine<'_>) -> Result<(), Fault>
    ensures { IsReading result (settled (triggers_of (spec.arguments header.now.words))) }
{
    if header.len() == 2 {
        if is_bad_trigger(second_of(header)) {
            return Err(Fault::Bad(DiagKind::BadTrigger));
        }
        return Ok(());
    }
    let words = header.texts(alloc)?;
    read_triggers(alloc, arguments(words.items()))?;
    Ok(())
}

/// Adds what is wrong in an `on` section with this header and these lines.
fn judge_action(
    diagnostics: &mut List<Diagnostic>,
    alloc: Global,
    file: &Text,
    header: &SpanLine<'_>,
    lines: SpanSlice<'_>,
) -> Result<(), NoMemory>
    ensures { OnOk result (diagnostics.new ≡ diagnostics.old
        ++ action_diagnostics file.now (section_of header.now lines.entry) (triggers_of (spec.arguments header.now.words))) }
{
    match judge_triggers(alloc, header) {
        Ok(()) => judge_commands(diagnostics, file, lines),
        Err(Fault::Bad(kind)) => diagnose(diagnostics, file, header.number(), kind),
        Err(Fault::NoMemory) => Err(NoMemory),
    }
}

/// Whether an option's line is `override`. What is wrong in it is added to the diagnostics.
fn judge_option(
    diagnostics: &mut List<Diagnostic>,
    alloc: Global,
    file: &Text,
    line: &SpanLine<'_>,
) -> Result<bool, NoMemory>
    ensures overrides { IfOk result (λ overrides. overrides ≡ list_any is_override (values (setting_at file.now line.now))) }
    ensures diagnostics { OnOk result
        (diagnostics.new ≡ diagnostics.old ++ diagnosed file.now line.now.number (setting_at file.now line.now)) }
{
    match judge_setting(alloc, line) {
        Ok(overrides) => Ok(overrides),
        Err(Fault::Bad(kind)) => {
            diagnose(diagnostics, file, line.number(), kind)?;
            Ok(false)
        }
        Err(Fault::NoMemory) => Err(NoMemory),
    }
}

/// Whether one of these lines of options is `override`. What is wrong in them is added to the diagnostics.
fn judge_options(
    diagnostics: &mut List<Diagnostic>,
    alloc: Global,
    file: &Text,
    mut lines: SpanSlice<'_>,
) -> Result<bool, NoMemory>
    ensures overrides { IfOk result (λ overrides. overrides ≡ list_any is_override (settings_of file.now lines.entry)) }
    ensures diagnostics { OnOk result (diagnostics.new ≡ diagnostics.old ++ setting_diagnostics file.now lines.entry) }
{
    let mut overrides = false;
    while let Some(line) = lines.pop() {
        let one = judge_option(diagnostics, alloc, file, &line)?;
        overrides = overrides || one;
    }
    Ok(overrides)
}

/// Adds the mark of a `service` section with this header and these lines, and what is wrong in it.
fn skim_service(
    skimmed: &mut Skimmed,
    alloc: Global,
    file: &Text,
    header: &SpanLine<'_>,
    lines: SpanSlice<'_>,
) -> Result<(), NoMemory>
    requires other { spec.is_on header.now ≡ false }
    requires service { spec.is_service header.now ≡ true }
    ensures { OnOk result (skimmed.new ≡ with_skim file.now skimmed.old (section_of header.now lines.entry)) }
{
    let texts = header.texts(alloc)?;
    let words = arguments(texts.items());
    if !is_service_header(words) {
        let kind = DiagKind::BadService;
        return diagnose(&mut skimmed.diagnostics, file, header.number(), kind);
    }
    let overrides = judge_options(&mut skimmed.diagnostics, alloc, file, lines)?;
    skimmed.services.push(ServiceMark {
        name: words[0].share()?,
        file: file.share()?,
        line: header.number(),
        overrides,
    })
}

/// Adds what is wrong in an `on` section.
fn skim_action(
    skimmed: &mut Skimmed,
    alloc: Global,
    file: &Text,
    header: &SpanLine<'_>,
    lines: SpanSlice<'_>,
) -> Result<(), NoMemory>
    requires { spec.is_on header.now ≡ true }
    ensures { OnOk result (skimmed.new ≡ with_skim file.now skimmed.old (section_of header.now lines.entry)) }
{
    judge_action(&mut skimmed.diagnostics, alloc, file, header, lines)?;
    Ok(())
}

/// Adds the diagnostics of lines that belong to no section.
fn skim_orphans(
    diagnostics: &mut List<Diagnostic>,
    file: &Text,
    mut lines: SpanSlice<'_>,
) -> Result<(), NoMemory>
    ensures { OnOk result (diagnostics.new ≡ diagnostics.old ++ orphan_diagnostics file.now lines.entry) }
{
    while let Some(line) = lines.pop() {
        diagnose(diagnostics, file, line.number(), DiagKind::Orphan)?;
    }
    Ok(())
}

/// Adds the import of an `import` section. The lines behind it belong to no section.
fn skim_import(
    skimmed: &mut Skimmed,
    alloc: Global,
    file: &Text,
    header: &SpanLine<'_>,
    lines: SpanSlice<'_>,
) -> Result<(), NoMemory>
    requires other { spec.is_on header.now ≡ false }
    requires import { spec.is_service header.now ≡ false }
    ensures { OnOk result (skimmed.new ≡ with_skim file.now skimmed.old (section_of header.now lines.entry)) }
{
    let Skimmed {
        imports,
        diagnostics,
        ..
    } = skimmed;
    let texts = header.texts(alloc)?;
    let words = arguments(texts.items());
    add_path(imports, diagnostics, file, header.number(), words)?;
    skim_orphans(diagnostics, file, lines)?;
    Ok(())
}

/// Adds what is told of the section with this header and these lines.
fn skim_section(
    skimmed: &mut Skimmed,
    alloc: Global,
    file: &Text,
    header: &SpanLine<'_>,
    lines: SpanSlice<'_>,
) -> Result<(), NoMemory>
    ensures { OnOk result (skimmed.new ≡ with_skim file.now skimmed.old (section_of header.now lines.entry)) }
{
    let word = first_of(header);
    if is_text(word, b"on") {
        skim_action(skimmed, alloc, file, header, lines)
    } else if is_text(word, b"service") {
        skim_service(skimmed, alloc, file, header, lines)
    } else {
        skim_import(skimmed, alloc, file, header, lines)
    }
}

/// What the lines of a file mean, without what its actions do and its services are.
pub fn skim(alloc: Global, file: &Text, tokens: &SpanTokens) -> Result<Skimmed, NoMemory>
    ensures { IfOk result (λ skimmed. (parsed : Parsed) → Sections file.now tokens.now parsed → skimmed ≡ skim_of parsed) }
{
    let mut skimmed = Skimmed::new(alloc);
    let mut lines = tokens.lines();
    skim_orphans(
        &mut skimmed.diagnostics,
        file,
        take_span_section(&mut lines),
    )?;
    while let Some(header) = lines.pop() {
        let body = take_span_section(&mut lines);
        skim_section(&mut skimmed, alloc, file, &header, body)?;
    }
    add_cut(&mut skimmed.diagnostics, file, tokens.dropped())?;
    Ok(skimmed)
}
