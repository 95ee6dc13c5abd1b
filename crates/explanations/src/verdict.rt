//! After a bad trace, and after a verdict that isn't yes: the place in the trace, and what should be there.

use crate::entry::{bad_entry, machine_of};
use crate::line::place_line;
use crate::named::{Named, script_text, trace_of, trace_text};
use init_base::{Files, Keeper, List, NoMemory, Source, SteadySink, Text, both};
use init_machine::{ClientPart, Diagnostic, Report};
use init_trace::{print, print_diagnostics};
use job_reader::diagnose;
use persist_disk::Disk;
use script_lang::{Client, Script, read};
use std::alloc::Global;
use trace_audit::Why;
use trace_causes::{LineFault, Place, TextFault, client_line, entry_line, fault_in, line_at};

/// What is wrong with a trace that is no report's text.
pub fn bad_trace<T: Source>(alloc: Global, path: &Text, trace: &mut Option<T>) -> Option<String> {
    let text = trace_text(alloc, trace)?;
    let fault = fault_in(alloc, text.bytes());
    drop(text);
    fault_line(alloc, path, fault.ok()??)
}

fn fault_line(alloc: Global, path: &Text, fault: TextFault) -> Option<String> {
    let (wanted, said) = match fault.what {
        LineFault::NoTitle => (Some(b"initsim 1".as_slice()), ""),
        LineFault::NoForm => (None, "no trace has this line there"),
        LineFault::NoEnd => (Some(b"end".as_slice()), ""),
        LineFault::NoLineFeed => (None, "the line doesn't end with LF"),
    };
    let line = fault.line;
    place_line(alloc, path, &Place { line, wanted }, said)
}

/// What a trace has, and what it should have, if a verdict of this text isn't yes.
pub fn bad_verdict<F: Files, S: Source, T: Source, D: Disk, P: Keeper>(
    alloc: Global,
    named: &mut Named<'_, F, S, T, D, P>,
    verdict: &[u8],
) -> Option<String> {
    let (why, number) = verdict_in(verdict)?;
    let path = trace_of(named.words)?;
    let text = trace_text(alloc, &mut named.trace)?;
    let line = verdict_line(alloc, named, path, text.bytes(), why, number);
    drop(text);
    line
}

/// The part and the number in the text of a verdict that isn't yes.
fn verdict_in(text: &[u8]) -> Option<(Why, u64)> {
    let text = std::str::from_utf8(text).ok()?;
    let (name, number) = text
        .strip_prefix("no ")?
        .strip_suffix("\n")?
        .split_once(' ')?;
    let number = number.parse().ok()?;
    Some((why_of(name)?, number))
}

fn why_of(name: &str) -> Option<Why> {
    match name {
        "Diagnostics" => Some(Why::Diagnostics),
        "Clients" => Some(Why::Clients),
        "Merge" => Some(Why::Merge),
        "Legal" => Some(Why::Legal),
        "Readings" => Some(Why::Readings),
        _ => None,
    }
}

fn verdict_line<F: Files, S: Source, T, D: Disk, P: Keeper>(
    alloc: Global,
    named: &mut Named<'_, F, S, T, D, P>,
    path: &Text,
    text: &[u8],
    why: Why,
    number: u64,
) -> Option<String> {
    match why {
        Why::Diagnostics => bad_diagnostic(alloc, &mut named.files, path, number),
        Why::Clients => {
            let line = client_line(text, number)?;
            bad_client(alloc, &mut named.script, path, line, number)
        }
        Why::Merge => {
            let line = entry_line(text, number)?;
            said_at(alloc, path, line, "no actor of the script has this next")
        }
        Why::Legal => {
            let script = script_text(alloc, &mut named.script)?;
            let machine = machine_of(alloc, &mut named.files, script, &mut named.store);
            bad_entry(alloc, machine, path, text, number)
        }
        Why::Readings => {
            let line = client_line(text, number)?;
            said_at(alloc, path, line, "this client can't have read this")
        }
    }
}

fn said_at(alloc: Global, path: &Text, line: u64, said: &str) -> Option<String> {
    place_line(alloc, path, &Place { line, wanted: None }, said)
}

/// The diagnostic that should be in a place.
fn bad_diagnostic<F: Files>(
    alloc: Global,
    files: &mut F,
    path: &Text,
    number: u64,
) -> Option<String> {
    let diagnostics = diagnose(alloc, files).ok()?;
    let line = diagnostic_due(alloc, &diagnostics, path, number);
    drop(diagnostics);
    line
}

/// The diagnostic among these that should be in a place.
fn diagnostic_due(
    alloc: Global,
    diagnostics: &List<Diagnostic>,
    path: &Text,
    number: u64,
) -> Option<String> {
    let mut page = SteadySink::new(alloc);
    let line = match print_diagnostics(alloc, diagnostics, &mut page) {
        Ok(()) => diagnostic_in(alloc, page.taken(), path, number),
        Err(_) => None,
    };
    drop(page);
    line
}

/// The diagnostic of a page that should be in a place.
fn diagnostic_in(alloc: Global, page: &[u8], path: &Text, number: u64) -> Option<String> {
    let line = number.saturating_add(1);
    let wanted = line_at(page, line).filter(|wanted| wanted.starts_with(b"diag "));
    let said = "no further mistake is in the tree";
    place_line(alloc, path, &Place { line, wanted }, said)
}

/// The client that should be in a place.
fn bad_client<S: Source>(
    alloc: Global,
    script: &mut Option<S>,
    path: &Text,
    line: u64,
    number: u64,
) -> Option<String> {
    let text = script_text(alloc, script)?;
    let script = read(alloc, text.bytes()).ok();
    drop(text);
    client_due(alloc, script?, path, line, number)
}

/// The client of a script that should be in a place.
fn client_due(
    alloc: Global,
    script: Script,
    path: &Text,
    line: u64,
    number: u64,
) -> Option<String> {
    let page = heads_of(alloc, script.clients.items());
    drop(script);
    let page = page?;
    let wanted = line_at(page.taken(), number.saturating_add(1));
    let said = place_line(alloc, path, &Place { line, wanted }, "");
    drop(page);
    said
}

/// The text of a report of a script's clients alone, with no readings.
fn heads_of(alloc: Global, clients: &[Client]) -> Option<SteadySink> {
    let mut report = Report {
        diagnostics: List::new(alloc),
        history: List::new(alloc),
        clients: List::new(alloc),
    };
    let page = match add_clients(alloc, &mut report.clients, clients) {
        Ok(()) => page_of(alloc, &report),
        Err(NoMemory) => None,
    };
    drop(report);
    page
}

fn add_clients(
    alloc: Global,
    parts: &mut List<ClientPart>,
    clients: &[Client],
) -> Result<(), NoMemory> {
    for client in clients {
        parts.push(part_of(alloc, client)?)?;
    }
    Ok(())
}

fn part_of(alloc: Global, client: &Client) -> Result<ClientPart, NoMemory> {
    let (name, domain) = both(client.name.share()?, client.domain.share())?;
    Ok(ClientPart {
        name,
        domain,
        readings: List::new(alloc),
    })
}

fn page_of(alloc: Global, report: &Report) -> Option<SteadySink> {
    let mut page = SteadySink::new(alloc);
    match print(alloc, report, &mut page) {
        Ok(()) => Some(page),
        Err(_) => {
            drop(page);
            None
        }
    }
}
