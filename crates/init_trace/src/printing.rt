//! The printing of a report that is there as a whole.

ghost use Rattle.std.specs.Prelude.{◌≡◌};
ghost use Rattle.init_base.specs.Faults.{Counted, write_failed};
ghost use Rattle.init_trace.specs.Report.{DiagnosticsText, EntriesText, TextOf};
ghost use Rattle.init_trace.specs.Written.{Adds, Writes};

use crate::printer::Printer;
use init_base::{IoRefusal, List, Sink};
use init_machine::{Diagnostic, Entry, Report};
use std::alloc::Global;

/// Writes the text of a report. After a refusal a front of it is written. The sink's count of faults rose where the
/// answer is `Failed`, and is as it was where it is anything else.
pub fn print<K: Sink>(alloc: Global, report: &Report, out: &mut K) -> Result<(), IoRefusal>
    ensures written { Writes (K.taken out.old) (K.taken out.new) result (TextOf report.now) }
    ensures cause { Counted (write_failed result) (K.fault_count out.old) (K.fault_count out.new) }
{
    let mut printer = Printer::new(alloc)?;
    print_report(&mut printer, report, out)?;
    printer.flush(out)
}

/// Writes the diagnostics alone, as `print` writes a report.
pub fn print_diagnostics<K: Sink>(
    alloc: Global,
    diagnostics: &List<Diagnostic>,
    out: &mut K,
) -> Result<(), IoRefusal>
    ensures written { Writes (K.taken out.old) (K.taken out.new) result
        (DiagnosticsText diagnostics.now) }
    ensures cause { Counted (write_failed result) (K.fault_count out.old) (K.fault_count out.new) }
{
    let mut printer = Printer::new(alloc)?;
    print_alone(alloc, &mut printer, diagnostics, out)?;
    printer.flush(out)
}

fn print_alone<K: Sink>(
    alloc: Global,
    printer: &mut Printer,
    diagnostics: &List<Diagnostic>,
    out: &mut K,
) -> Result<(), IoRefusal>
    ensures added { Adds (K.taken out.old) (K.taken out.new) result printer.old.bytes printer.new.bytes
        (DiagnosticsText diagnostics.now) }
    ensures cause { Counted (write_failed result) (K.fault_count out.old) (K.fault_count out.new) }
{
    printer.print_head(diagnostics, out)?;
    printer.print_tail(&List::new(alloc), out)
}

fn print_report<K: Sink>(
    printer: &mut Printer,
    report: &Report,
    out: &mut K,
) -> Result<(), IoRefusal>
    ensures added { Adds (K.taken out.old) (K.taken out.new) result printer.old.bytes printer.new.bytes
        (TextOf report.now) }
    ensures cause { Counted (write_failed result) (K.fault_count out.old) (K.fault_count out.new) }
{
    printer.print_head(&report.diagnostics, out)?;
    print_entries(printer, report.history.items(), out)?;
    printer.print_tail(&report.clients, out)
}

fn print_entries<K: Sink>(
    printer: &mut Printer,
    entries: &[Entry],
    out: &mut K,
) -> Result<(), IoRefusal>
    ensures added { Adds (K.taken out.old) (K.taken out.new) result printer.old.bytes printer.new.bytes
        (EntriesText entries.now) }
    ensures cause { Counted (write_failed result) (K.fault_count out.old) (K.fault_count out.new) }
{
    for entry in entries {
        printer.print_entry(&entry.input, &entry.outputs, out)?;
    }
    Ok(())
}
