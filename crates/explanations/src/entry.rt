//! The line of the machine that should be in an entry: the machine takes the inputs of the trace once more.

ghost use Rattle.std.specs.Prelude.{◌≡◌, ℕ, [], IfSome, IsTrue, length};
ghost use Rattle.init_core.specs.Core.{IsDeclared};
ghost use Rattle.init_machine.specs.declared.config.Config.{Config as Declared};
ghost use Rattle.job_reader.specs.Prepared.{IsFit};

use crate::line::place_line;
use init_base::{Files, IoRefusal, Keeper, List, NoMemory, Source, SteadySink, SteadySource, Text};
use init_core::Core;
use init_machine::{Entry, Input, Output};
use init_trace::Printer;
use job_reader::{Grammar, Job, prepare};
use list_store::ListStore;
use script_lang::read;
use std::alloc::Global;
use trace_causes::{entry_line, first_difference, lines_from};
use trace_reader::{Piece, Pieces};

/// The machine with its list of outputs.
pub type Machine = Core<ListStore, List<Output>>;

/// A machine that knows so many clients, and takes the inputs of a trace. It is lent by this bound and ends by it, so that no other proof
/// has to do with its parts.
trait Replays {
    ghost knows: { ℕ → Self → Type 0 };

    /// Takes an entry's input, and puts what it says in the place of the entry's outputs.
    fn replay(&mut self, clients: usize, entry: &mut Entry) -> bool
        requires { knows clients self.old }
        ensures { IsTrue result → knows clients self.new };

    /// Ends.
    fn end(self);
}

impl Replays for Machine {
    ghost knows = { λ clients core. length core.config.domains ≡ clients };

    fn replay(&mut self, clients: usize, entry: &mut Entry) -> bool {
        entry.outputs.truncate(0);
        is_declared(&entry.input, clients) && self.take(&entry.input, &mut entry.outputs).is_ok()
    }

    fn end(self) {
        drop(self.into_ended());
    }
}

/// Whether an input is one of a machine of so many clients.
fn is_declared(input: &Input, clients: usize) -> bool
    ensures { IsTrue result → (config : Declared) → length config.domains ≡ clients → IsDeclared config input.now }
{
    match input {
        Input::Set { who, .. } => who.0 > 0 && who.0 as usize <= clients,
        Input::Boot | Input::Next | Input::Tick { .. } | Input::Exit { .. } | Input::File { .. } =>
            true,
    }
}

/// The entries of a trace, one after another.
trait Entries {
    fn next_entry(&mut self, alloc: Global) -> Option<Entry>;
}

impl Entries for Pieces<'_> {
    fn next_entry(&mut self, alloc: Global) -> Option<Entry> {
        match self.next(alloc) {
            Ok(Piece::Entry(entry)) => Some(entry),
            Ok(Piece::Rest(report)) => {
                drop(report);
                None
            }
            Err(_) => None,
        }
    }
}

/// The line that should be in the entry with a number, of a machine that knows so many clients.
pub fn bad_entry(
    alloc: Global,
    machine: Option<(Machine, usize)>,
    path: &Text,
    text: &[u8],
    number: u64,
) -> Option<String>
    requires { IfSome machine (λ opened. length opened.0.config.domains ≡ opened.1) }
{
    let (machine, clients) = machine?;
    line_due(alloc, machine, clients, path, text, number)
}

/// The machine in its first state, and how many clients it knows. Its store comes before all else, so that nothing larger ends for want
/// of memory.
pub fn machine_of<F: Files, P: Keeper>(
    alloc: Global,
    files: &mut F,
    script: Text,
    keeper: &mut P,
) -> Option<(Machine, usize)>
    ensures { IfSome result (λ machine. length machine.0.config.domains ≡ machine.1) }
{
    match store_for(alloc, &script) {
        Some(store) => machine_over(alloc, files, SteadySource::new(script), keeper, store),
        None => None,
    }
}

/// A store of so many words as a script says.
fn store_for(alloc: Global, script: &Text) -> Option<ListStore>
    ensures { IfSome result (λ store. (store.props.held ≡ []) × (store.props.count ≡ 0)) }
{
    let script = read(alloc, script.bytes()).ok()?;
    let words = script.words;
    drop(script);
    ListStore::new(alloc, words).ok()
}

fn machine_over<F: Files, S: Source + Drop, P: Keeper>(
    alloc: Global,
    files: &mut F,
    mut script: S,
    keeper: &mut P,
    store: ListStore,
) -> Option<(Machine, usize)>
    requires held { store.props.held ≡ [] }
    requires count { store.props.count ≡ 0 }
    ensures { IfSome result (λ machine. length machine.0.config.domains ≡ machine.1) }
{
    match prepare(alloc, Grammar::Whole, files, &mut script, keeper) {
        Ok(job) => opened(alloc, job, store),
        Err(_) => None,
    }
}

/// The machine of a job over a store.
fn opened(alloc: Global, job: Job, store: ListStore) -> Option<(Machine, usize)>
    requires fit { IsFit job }
    requires held { store.props.held ≡ [] }
    requires count { store.props.count ≡ 0 }
    ensures { IfSome result (λ machine. length machine.0.config.domains ≡ machine.1) }
{
    let Job { setup, script } = job;
    drop(script);
    drop(setup.diagnostics);
    let clients = setup.config.domains.len();
    match Core::new(alloc, setup.config, setup.policy, store, List::new(alloc)) {
        Ok(machine) => Some((machine, clients)),
        Err(NoMemory) => None,
    }
}

/// The line of a machine that should be in the entry with a number.
fn line_due<M: Replays>(
    alloc: Global,
    mut machine: M,
    clients: usize,
    path: &Text,
    text: &[u8],
    number: u64,
) -> Option<String>
    requires { M.knows clients machine }
{
    let page = match Pieces::of(alloc, text) {
        Some(entries) => page_among(alloc, &mut machine, clients, entries, number),
        None => None,
    };
    machine.end();
    let page = page?;
    let line = difference(alloc, path, text, number, page.taken());
    drop(page);
    line
}

/// The first line of the entry with a number that differs from the page.
fn difference(alloc: Global, path: &Text, text: &[u8], number: u64, page: &[u8]) -> Option<String> {
    let first = entry_line(text, number)?;
    let place = first_difference(lines_from(text, first), first, page)?;
    place_line(alloc, path, &place, "the machine says nothing more there")
}

/// The text of the entry with a number as the machine has it.
fn page_among<M: Replays, E: Entries + Drop>(
    alloc: Global,
    machine: &mut M,
    clients: usize,
    mut entries: E,
    number: u64,
) -> Option<SteadySink>
    requires { M.knows clients machine.old }
{
    let entry = entry_at(alloc, machine, clients, &mut entries, number)?;
    let page = page_of(alloc, &entry);
    drop(entry);
    page
}

/// The entry with a number as the machine has it, which takes the inputs up to that one's.
fn entry_at<M: Replays, E: Entries>(
    alloc: Global,
    machine: &mut M,
    clients: usize,
    entries: &mut E,
    number: u64,
) -> Option<Entry>
    requires { M.knows clients machine.old }
{
    for _ in 1..number {
        drop(replayed(alloc, machine, clients, entries)?);
    }
    replayed(alloc, machine, clients, entries)
}

/// The next entry as the machine has it, which takes its input.
fn replayed<M: Replays, E: Entries>(
    alloc: Global,
    machine: &mut M,
    clients: usize,
    entries: &mut E,
) -> Option<Entry>
    requires { M.knows clients machine.old }
    ensures { IfSome result (λ _. M.knows clients machine.new) }
{
    let mut entry = entries.next_entry(alloc)?;
    if machine.replay(clients, &mut entry) {
        Some(entry)
    } else {
        drop(entry);
        None
    }
}

/// The text of an entry.
fn page_of(alloc: Global, entry: &Entry) -> Option<SteadySink> {
    let mut page = SteadySink::new(alloc);
    match print_entry(alloc, entry, &mut page) {
        Ok(()) => Some(page),
        Err(_) => {
            drop(page);
            None
        }
    }
}

fn print_entry(alloc: Global, entry: &Entry, page: &mut SteadySink) -> Result<(), IoRefusal> {
    let mut printer = Printer::new(alloc)?;
    let printed = print_by(&mut printer, entry, page);
    drop(printer);
    printed
}

fn print_by(printer: &mut Printer, entry: &Entry, page: &mut SteadySink) -> Result<(), IoRefusal> {
    printer.print_entry(&entry.input, &entry.outputs, page)?;
    printer.flush(page)
}
