//! Service sections.

ghost use Rattle.std.specs.Prelude.{◌≡◌, ◌++◌, ◌∷◌, [], true, false, IfOk, OnOk};
ghost use Rattle.rc_parse.specs.internal.Adding.{section_of, setting_diagnostics, with_section};
ghost use Rattle.rc_parse.specs.Lines.{is_on, is_service};
ghost use Rattle.rc_parse.specs.Readings.{diagnosed, values};
ghost use Rattle.rc_parse.specs.Sections.{setting_at, settings_of};
ghost use Rattle.rc_parse.specs.Services.{service_with};
ghost use Rattle.rc_parse.specs.Services as spec;
ghost use Rattle.rc_parse.specs.internal.Settings.{with_setting, with_settings};

use crate::fault::Fault;
use crate::lines::Section;
use crate::parsed::{Parsed, diagnose};
use crate::setting::{Setting, read_setting};
use crate::words::{arguments, is_legal_name, shared};
use init_base::{List, Millis, NoMemory, Text};
use init_machine::{DiagKind, Diagnostic, ServiceDef};
use rc_tokens::{Line, LineSlice};
use std::alloc::Global;

/// The longest name of a service, in bytes: `init.svc.NAME` is a property.
const LONGEST_NAME: usize = 246;

const DEFAULT_CLASS: &[u8] = b"default";

const DEFAULT_PERIOD: Millis = Millis(5000);

fn is_service_name(name: &[u8]) -> bool
    ensures { result ≡ spec.is_service_name name.now }
{
    is_legal_name(name) && name.len() <= LONGEST_NAME
}

/// Whether these are the words behind `service` in a header of a good form.
pub fn is_service_header(words: &[Text]) -> bool
    ensures { result ≡ spec.is_service_header words.now }
{
    words.len() >= 2 && is_service_name(words[0].bytes()) && !words[1].is_empty()
}

/// The service of a header, without options.
#[tactic(auto, using(crate::proofs::Firsts::has_two, crate::proofs::Firsts::first_at, crate::proofs::Firsts::second_at, crate::proofs::Firsts::behind_two))]
fn new_service(
    alloc: Global,
    file: &Text,
    line: u32,
    words: &[Text],
) -> Result<ServiceDef, NoMemory>
    requires { spec.is_service_header words.now ≡ true }
    ensures { IfOk result (λ service. service ≡ service_with file.now line words.now []) }
{
    let mut classes = List::new(alloc);
    classes.push(Text::of(alloc, DEFAULT_CLASS)?)?;
    Ok(ServiceDef {
        name: words[0].share()?,
        path: words[1].share()?,
        args: shared(alloc, &words[2..])?,
        file: file.share()?,
        line,
        classes,
        disabled: false,
        oneshot: false,
        overrides: false,
        critical: None,
        period: DEFAULT_PERIOD,
        timeout: None,
        onrestart: List::new(alloc),
        kept: List::new(alloc),
    })
}

/// Sets an option. A later one of its word takes the place of an earlier one; commands and options without effect add.
fn set(service: &mut ServiceDef, setting: Setting) -> Result<(), NoMemory>
    ensures { OnOk result (service.new ≡ with_setting service.old setting) }
{
    match setting {
        Setting::Classes(classes) => service.classes = classes,
        Setting::Disabled => service.disabled = true,
        Setting::Oneshot => service.oneshot = true,
        Setting::Override => service.overrides = true,
        Setting::Critical(critical) => service.critical = critical,
        Setting::Onrestart(command) => service.onrestart.push(command)?,
        Setting::Period(period) => service.period = period,
        Setting::Timeout(timeout) => service.timeout = Some(timeout),
        Setting::Kept(words) => service.kept.push(words)?,
    }
    Ok(())
}

/// Sets the option of a line. What is wrong in it is added to the diagnostics.
fn set_option(
    service: &mut ServiceDef,
    alloc: Global,
    file: &Text,
    line: &Line<'_>,
    diagnostics: &mut List<Diagnostic>,
) -> Result<(), NoMemory>
    ensures service { OnOk result (service.new ≡ with_settings service.old (values (setting_at file.now line.now))) }
    ensures diagnostics { OnOk result
        (diagnostics.new ≡ diagnostics.old ++ diagnosed file.now line.now.number (setting_at file.now line.now)) }
{
    match read_setting(alloc, file, line.number(), line.words()) {
        Ok(setting) => set(service, setting),
        Err(Fault::Bad(kind)) => diagnose(diagnostics, file, line.number(), kind),
        Err(Fault::NoMemory) => Err(NoMemory),
    }
}

/// Sets the options of lines. What is wrong in them is added to the diagnostics.
fn set_options(
    service: &mut ServiceDef,
    alloc: Global,
    file: &Text,
    mut lines: LineSlice<'_>,
    diagnostics: &mut List<Diagnostic>,
) -> Result<(), NoMemory>
    ensures service { OnOk result (service.new ≡ with_settings service.old (settings_of file.now lines.entry)) }
    ensures diagnostics { OnOk result (diagnostics.new ≡ diagnostics.old ++ setting_diagnostics file.now lines.entry) }
{
    while let Some(line) = lines.pop() {
        set_option(service, alloc, file, &line, diagnostics)?;
    }
    Ok(())
}

/// Adds a `service` section.
pub fn add_service(
    parsed: &mut Parsed,
    alloc: Global,
    file: &Text,
    section: Section<'_>,
) -> Result<(), NoMemory>
    requires other { is_on section.header ≡ false }
    requires service { is_service section.header ≡ true }
    ensures { OnOk result (parsed.new ≡ with_section file.now parsed.old (section_of section.entry.header section.entry.body)) }
{
    let Section { header, body } = section;
    let words = arguments(header.words());
    if !is_service_header(words) {
        let kind = DiagKind::BadService;
        return diagnose(&mut parsed.diagnostics, file, header.number(), kind);
    }
    let mut service = new_service(alloc, file, header.number(), words)?;
    set_options(&mut service, alloc, file, body, &mut parsed.diagnostics)?;
    parsed.services.push(service)
}
