//! The machine with the printer of its entries.

ghost use Rattle.std.specs.Prelude.{◌≡◌, ◌≤◌, ◌∷◌, ◌++◌, ℕ, [], OnOk, false, length};
ghost use Rattle.init_base.specs.Faults.{Counted};
ghost use Rattle.init_core.specs.Core.{IsDeclared};
ghost use Rattle.init_driver.specs.Course.{Prints, Waits, at_sink, before_in, entry_in};
ghost use Rattle.init_driver.specs.Machine.{entry_of, step_of, told_to};
ghost use Rattle.init_driver.specs.Run.{sink_failed};
ghost use Rattle.init_trace.specs.Report.{HeadText, TailText};

use crate::machine::Machine;
use crate::refusal::DriveRefusal;
use init_base::{IoRefusal, List, NoMemory, Sink};
use init_machine::{ClientPart, Diagnostic, Input};
use init_trace::Printer;
use property_service::AreaName;

/// The machine, and the printer of its entries.
#[derive(Drop)]
pub struct Traced<'a, N: AreaName> {
    pub core: Machine<'a, N, Printer>,
    pub printer: Printer,
}

impl<'a, N: AreaName> Traced<'a, N> {
    /// The machine alone.
    pub fn into_core(self) -> Machine<'a, N, Printer>
        ensures { result ≡ self.entry.core }
    {
        let Traced { core, printer } = self;
        drop(printer);
        core
    }

    /// Prints the head of the report.
    pub fn print_head<K: Sink>(
        &mut self,
        diagnostics: &List<Diagnostic>,
        out: &mut K,
    ) -> Result<(), DriveRefusal>
        ensures prints { Prints (K.taken out.old) (K.taken out.new) result self.old.printer.bytes self.new.printer.bytes
            (HeadText diagnostics.now) }
        ensures core { self.new.core ≡ self.old.core }
        ensures cause { Counted (sink_failed result) (K.fault_count out.old) (K.fault_count out.new) }
    {
        printed(self.printer.print_head(diagnostics, out))
    }

    /// Takes an input. Its entry waits behind all that waited.
    pub fn take(&mut self, input: &Input) -> Result<(), NoMemory>
        requires declared { IsDeclared self.old.core.config input.now }
        ensures config { OnOk result (self.new.core.config ≡ self.old.core.config) }
        ensures policy { OnOk result (self.new.core.policy ≡ self.old.core.policy) }
        ensures state { OnOk result (self.new.core.state ≡ (step_of self.old.core input.now).state) }
        ensures opening { OnOk result (self.new.core.desk.opening ≡ self.old.core.desk.opening) }
        ensures history { OnOk result (self.new.core.desk.history
            ≡ self.old.core.desk.history ++ entry_of input.now (step_of self.old.core input.now).lines ∷ []) }
        ensures told { OnOk result ((who : ℕ) → told_to self.new.core.readers who ≡ told_to self.old.core.readers who) }
        ensures ready { OnOk result (self.new.core.spent ≡ false) }
        ensures entry { OnOk result (Waits self.old.printer self.new.printer (entry_of input.now (step_of self.old.core input.now).lines)) }
    {
        self.printer.begin_entry(input)?;
        self.core.take(input, &mut self.printer)
    }

    /// Writes all that waits before the entry.
    pub fn write_before<K: Sink>(&mut self, out: &mut K) -> Result<(), DriveRefusal>
        requires begun { self.old.printer.begun ≤ length self.old.printer.bytes }
        ensures prints { Prints (K.taken out.old) (K.taken out.new) result (before_in self.old.printer) [] [] }
        ensures before { OnOk result (before_in self.new.printer ≡ []) }
        ensures entry { OnOk result (entry_in self.new.printer ≡ entry_in self.old.printer) }
        ensures core { self.new.core ≡ self.old.core }
        ensures cause { Counted (sink_failed result) (K.fault_count out.old) (K.fault_count out.new) }
    {
        printed(self.printer.write_before(out))
    }

    /// Ends the entry.
    pub fn end_entry<K: Sink>(&mut self, out: &mut K) -> Result<(), DriveRefusal>
        ensures prints { Prints (K.taken out.old) (K.taken out.new) result (before_in self.old.printer) self.new.printer.bytes
            (entry_in self.old.printer) }
        ensures core { self.new.core ≡ self.old.core }
        ensures cause { Counted (sink_failed result) (K.fault_count out.old) (K.fault_count out.new) }
    {
        printed(self.printer.end_entry(out))
    }

    /// Prints the tail of the report.
    pub fn print_tail<K: Sink>(
        &mut self,
        clients: &List<ClientPart>,
        out: &mut K,
    ) -> Result<(), DriveRefusal>
        ensures prints { Prints (K.taken out.old) (K.taken out.new) result self.old.printer.bytes self.new.printer.bytes
            (TailText clients.now) }
        ensures core { self.new.core ≡ self.old.core }
        ensures cause { Counted (sink_failed result) (K.fault_count out.old) (K.fault_count out.new) }
    {
        printed(self.printer.print_tail(clients, out))
    }

    /// Writes all that waits.
    pub fn flush<K: Sink>(&mut self, out: &mut K) -> Result<(), DriveRefusal>
        ensures prints { Prints (K.taken out.old) (K.taken out.new) result self.old.printer.bytes [] [] }
        ensures empty { OnOk result (self.new.printer.bytes ≡ []) }
        ensures core { self.new.core ≡ self.old.core }
        ensures cause { Counted (sink_failed result) (K.fault_count out.old) (K.fault_count out.new) }
    {
        printed(self.printer.flush(out))
    }
}

/// The answer of a run where the sink answered this.
fn printed(answer: Result<(), IoRefusal>) -> Result<(), DriveRefusal>
    ensures { result ≡ at_sink answer }
{
    match answer {
        Ok(()) => Ok(()),
        Err(IoRefusal::Failed) => Err(DriveRefusal::Write),
        Err(IoRefusal::NoMemory) => Err(DriveRefusal::NoMemory),
    }
}
