//! The outputs of an entry, which are told to a printer line by line.

ghost use Rattle.std.specs.Prelude.{◌≡◌, ◌++◌, ◌∷◌, [], OnOk};
ghost use Rattle.init_trace.specs.Fields.{output_fields};
ghost use Rattle.init_machine.specs.Stored as spec;
ghost use Rattle.init_trace.specs.Line.{spaced};
ghost use Rattle.init_trace.specs.Waiting.{IsTold};

use crate::field::{led_text, word_text, word_texts};
use crate::line::{Line, add_action, add_command, add_process, add_put, add_reap, add_spawn};
use crate::printer::Printer;
use crate::quote::{put, put_byte};
use init_base::{NoMemory, Pid, SharedList, Text};
use init_machine::{How, Output, Word};
use outputs::Outputs;

/// Each output is a line of the entry that was begun.
impl Outputs for Printer {
    ghost use Rattle.init_trace.specs.Waiting.{IsTold};
    ghost use Rattle.init_trace.specs.impl_laws.Told.{told_joins};

    ghost Adds = { IsTold };

    ghost joins = { told_joins };

    fn push(&mut self, output: Output) -> Result<(), NoMemory> {
        tell(self, &output)
    }

    fn event(&mut self, name: &Text) -> Result<(), NoMemory> {
        led_text(&mut self.kept.page, b" event ", name)?;
        put_byte(&mut self.kept.page, b'\n')
    }

    fn change(&mut self, name: &Text, value: &Text) -> Result<(), NoMemory> {
        word_texts(&mut self.kept.page, b"change", name, value)?;
        put_byte(&mut self.kept.page, b'\n')
    }

    fn action(&mut self, file: &Text, line: u32) -> Result<(), NoMemory> {
        add_action(&mut self.kept.page, file, line)?;
        put_byte(&mut self.kept.page, b'\n')
    }

    fn command(
        &mut self,
        file: &Text,
        line: u32,
        word: Word,
        args: &SharedList<Text>,
    ) -> Result<(), NoMemory> {
        add_command(&mut self.kept.page, file, line, word, args)?;
        put_byte(&mut self.kept.page, b'\n')
    }

    fn ok(&mut self) -> Result<(), NoMemory> {
        put(&mut self.kept.page, b" ok\n")
    }

    fn put(&mut self, number: u64, name: &Text, value: &Text) -> Result<(), NoMemory> {
        add_put(&mut self.kept.page, number, name, value)?;
        put_byte(&mut self.kept.page, b'\n')
    }

    fn stored(&mut self, name: &Text) -> Result<(), NoMemory> {
        self.kept.stores = true;
        word_text(&mut self.kept.page, b"stored", name)?;
        put_byte(&mut self.kept.page, b'\n')
    }

    fn spawn(&mut self, pid: Pid, name: &Text, path: &Text) -> Result<(), NoMemory> {
        add_spawn(&mut self.kept.page, pid.0, name, path)?;
        put_byte(&mut self.kept.page, b'\n')
    }

    fn kill(&mut self, pid: Pid, name: &Text) -> Result<(), NoMemory> {
        add_process(&mut self.kept.page, b"kill", pid.0, name)?;
        put_byte(&mut self.kept.page, b'\n')
    }

    fn reap(&mut self, pid: Pid, name: &Text, how: How) -> Result<(), NoMemory> {
        add_reap(&mut self.kept.page, pid.0, name, how)?;
        put_byte(&mut self.kept.page, b'\n')
    }
}

/// Tells an output of any kind.
#[tactic(auto, using(crate::proofs::Lines::told_one))]
fn tell(printer: &mut Printer, output: &Output) -> Result<(), NoMemory>
    ensures { OnOk result (IsTold printer.old printer.new (output.now ∷ [])) }
{
    printer.kept.stores = printer.kept.stores || is_stored(output);
    output.add(&mut printer.kept.page)
}

/// Whether it tells that a property is stored.
fn is_stored(output: &Output) -> bool
    ensures { result ≡ spec.is_stored output.now }
{
    matches!(output, Output::Stored { .. })
}
