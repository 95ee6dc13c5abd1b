//! `Printer`: a report that is printed part by part, so that no history need be kept.

ghost use Rattle.std.specs.Prelude.{◌≡◌, ◌++◌, ◌≤◌, [], IfOk, OnOk, drop, false, length, take};
ghost use Rattle.init_base.specs.Faults.{Counted, write_failed};
ghost use Rattle.init_trace.specs.Fields.{head_fields};
ghost use Rattle.init_trace.specs.Line.{line_text, lines_text};
ghost use Rattle.init_trace.specs.Report.{EntryText, HeadText, TailText, client_lines, clients_lines};
ghost use Rattle.init_trace.specs.Written.{Adds, Writes};

use crate::line::{End, Line, Title, add_client};
use crate::page::{add_line, add_lines, cut_front, send, turn};
use init_base::{IoRefusal, List, NoMemory, Sink};
use init_machine::{ClientPart, Diagnostic, Input, Output};
use std::alloc::Global;
use std::marker::Model;

/// Prints a report part by part: its head, its entries in order, and its tail.
///
/// Entries are many and short, so lines wait in a page, which is written whenever it is full. An entry that the machine tells
/// line by line waits there too: it is written behind its last line, and all before it may be written alone.
///
/// To contracts a printer is the bytes that wait, at which of them the last entry began, and whether it stores a property.
/// After a refusal a front of what waited and of the new part is written, and nothing is said of what waits. The sink's count
/// of faults rose where the answer is `Failed`, and is as it was where it is anything else.
#[derive(Drop)]
pub struct Printer {
    /// In a box, so that two printers change places by a word each.
    pub(crate) kept: Box<Kept>,
}

/// What a printer keeps.
#[derive(Drop)]
pub(crate) struct Kept {
    pub(crate) page: Vec<u8>,
    begun: usize,
    pub(crate) stores: bool,
}

impl Model for Printer {
    ghost use Rattle.init_trace.specs.Waiting.{Waiting};

    ghost Value = { Waiting };

    ghost view = { λ p. record { bytes = p.kept.value.page.items; begun = p.kept.value.begun; stores = p.kept.value.stores } };
}

impl Printer {
    /// A printer with nothing that waits.
    pub fn new(alloc: Global) -> Result<Printer, NoMemory>
        ensures { IfOk result (λ printer. printer.bytes ≡ []) }
    {
        let kept = Kept {
            page: Vec::new(alloc),
            begun: 0,
            stores: false,
        };
        Ok(Printer {
            kept: Box::new(alloc, kept)?,
        })
    }

    /// Adds the head of a report: the first line and the diagnostics.
    pub fn print_head<K: Sink>(
        &mut self,
        diagnostics: &List<Diagnostic>,
        out: &mut K,
    ) -> Result<(), IoRefusal>
        ensures added { Adds (K.taken out.old) (K.taken out.new) result self.old.bytes self.new.bytes
            (HeadText diagnostics.now) }
        ensures cause { Counted (write_failed result) (K.fault_count out.old) (K.fault_count out.new) }
    {
        let alloc = *self.kept.page.allocator();
        add_head(alloc, out, &mut self.kept.page, diagnostics.items())
    }

    /// Begins an entry, whose outputs are to be told.
    pub fn begin_entry(&mut self, input: &Input) -> Result<(), NoMemory>
        ensures bytes { OnOk result (self.new.bytes ≡ self.old.bytes ++ line_text (head_fields input.now)) }
        ensures begun { OnOk result (self.new.begun ≡ length self.old.bytes) }
        ensures stores { OnOk result (self.new.stores ≡ false) }
    {
        self.kept.begun = self.kept.page.len();
        self.kept.stores = false;
        input.add(&mut self.kept.page)
    }

    /// Whether the last entry stores a property.
    pub fn stores(&self) -> bool
        ensures { result ≡ self.now.stores }
    {
        self.kept.stores
    }

    /// Writes what waits before the last entry.
    pub fn write_before<K: Sink>(&mut self, out: &mut K) -> Result<(), IoRefusal>
        requires { self.old.begun ≤ length self.old.bytes }
        ensures written { Writes (K.taken out.old) (K.taken out.new) result (take self.old.begun self.old.bytes) }
        ensures left { OnOk result (self.new.bytes ≡ drop self.old.begun self.old.bytes) }
        ensures begun { OnOk result (self.new.begun ≡ 0) }
        ensures cause { Counted (write_failed result) (K.fault_count out.old) (K.fault_count out.new) }
    {
        let alloc = *self.kept.page.allocator();
        send(alloc, out, &self.kept.page[..self.kept.begun])?;
        let begun = self.kept.begun;
        cut_front(&mut self.kept.page, begun)?;
        self.kept.begun = 0;
        Ok(())
    }

    /// Ends an entry whose outputs were told: a full page is written.
    pub fn end_entry<K: Sink>(&mut self, out: &mut K) -> Result<(), IoRefusal>
        ensures added { Adds (K.taken out.old) (K.taken out.new) result self.old.bytes self.new.bytes [] }
        ensures cause { Counted (write_failed result) (K.fault_count out.old) (K.fault_count out.new) }
    {
        let alloc = *self.kept.page.allocator();
        turn(alloc, out, &mut self.kept.page)
    }

    /// Adds an entry: its input, and what the machine did.
    pub fn print_entry<K: Sink>(
        &mut self,
        input: &Input,
        outputs: &List<Output>,
        out: &mut K,
    ) -> Result<(), IoRefusal>
        ensures added { Adds (K.taken out.old) (K.taken out.new) result self.old.bytes self.new.bytes
            (EntryText (record { input = input.now; outputs = outputs.now })) }
        ensures cause { Counted (write_failed result) (K.fault_count out.old) (K.fault_count out.new) }
    {
        let alloc = *self.kept.page.allocator();
        add_entry(alloc, out, &mut self.kept.page, input, outputs.items())
    }

    /// Adds the tail of a report: the clients' parts and the last line. The first client has number 1.
    pub fn print_tail<K: Sink>(
        &mut self,
        clients: &List<ClientPart>,
        out: &mut K,
    ) -> Result<(), IoRefusal>
        ensures added { Adds (K.taken out.old) (K.taken out.new) result self.old.bytes self.new.bytes
            (TailText clients.now) }
        ensures cause { Counted (write_failed result) (K.fault_count out.old) (K.fault_count out.new) }
    {
        let alloc = *self.kept.page.allocator();
        add_tail(alloc, out, &mut self.kept.page, clients.items())
    }

    /// Writes all that waits.
    pub fn flush<K: Sink>(&mut self, out: &mut K) -> Result<(), IoRefusal>
        ensures written { Writes (K.taken out.old) (K.taken out.new) result self.old.bytes }
        ensures empty { OnOk result (self.new.bytes ≡ []) }
        ensures cause { Counted (write_failed result) (K.fault_count out.old) (K.fault_count out.new) }
    {
        let alloc = *self.kept.page.allocator();
        send(alloc, out, self.kept.page.as_slice())?;
        self.kept.page.clear();
        Ok(())
    }
}

/// Adds the first line and the diagnostics.
fn add_head<K: Sink>(
    alloc: Global,
    out: &mut K,
    page: &mut Vec<u8>,
    diagnostics: &[Diagnostic],
) -> Result<(), IoRefusal>
    ensures added { Adds (K.taken out.old) (K.taken out.new) result page.old.items page.new.items
        (HeadText diagnostics.now) }
    ensures cause { Counted (write_failed result) (K.fault_count out.old) (K.fault_count out.new) }
{
    add_line(alloc, out, page, &Title)?;
    add_lines(alloc, out, page, diagnostics)
}

/// Adds an entry's head and its outputs.
fn add_entry<K: Sink>(
    alloc: Global,
    out: &mut K,
    page: &mut Vec<u8>,
    input: &Input,
    outputs: &[Output],
) -> Result<(), IoRefusal>
    ensures added { Adds (K.taken out.old) (K.taken out.new) result page.old.items page.new.items
        (EntryText (record { input = input.now; outputs = outputs.now })) }
    ensures cause { Counted (write_failed result) (K.fault_count out.old) (K.fault_count out.new) }
{
    add_line(alloc, out, page, input)?;
    add_lines(alloc, out, page, outputs)
}

/// Adds the clients' parts and the last line.
fn add_tail<K: Sink>(
    alloc: Global,
    out: &mut K,
    page: &mut Vec<u8>,
    parts: &[ClientPart],
) -> Result<(), IoRefusal>
    ensures added { Adds (K.taken out.old) (K.taken out.new) result page.old.items page.new.items
        (TailText parts.now) }
    ensures cause { Counted (write_failed result) (K.fault_count out.old) (K.fault_count out.new) }
{
    add_parts(alloc, out, page, parts)?;
    add_line(alloc, out, page, &End)
}

/// Adds the clients' parts. The first client has number 1.
fn add_parts<K: Sink>(
    alloc: Global,
    out: &mut K,
    page: &mut Vec<u8>,
    parts: &[ClientPart],
) -> Result<(), IoRefusal>
    ensures added { Adds (K.taken out.old) (K.taken out.new) result page.old.items page.new.items
        (lines_text (clients_lines 1 parts.now)) }
    ensures cause { Counted (write_failed result) (K.fault_count out.old) (K.fault_count out.new) }
{
    for (index, part) in parts.iter().enumerate() {
        add_part(alloc, out, page, index as u64 + 1, part)?;
    }
    Ok(())
}

/// Adds a client's head and its readings.
fn add_part<K: Sink>(
    alloc: Global,
    out: &mut K,
    page: &mut Vec<u8>,
    id: u64,
    part: &ClientPart,
) -> Result<(), IoRefusal>
    ensures added { Adds (K.taken out.old) (K.taken out.new) result page.old.items page.new.items
        (lines_text (client_lines id part.now)) }
    ensures cause { Counted (write_failed result) (K.fault_count out.old) (K.fault_count out.new) }
{
    add_client(page, id, part)?;
    add_lines(alloc, out, page, part.readings.items())
}
