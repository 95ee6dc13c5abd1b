//! `Outputs`: where the machine tells what it does, line by line.
//!
//! A list keeps the outputs that it is told. The page of a printer adds the text of each at once and keeps nothing else; so the
//! kinds of lines that are told often have a call each, by reference, and their texts are shared only where they are kept.
#![tactic(auto)]

ghost use Rattle.std.specs.Prelude.{◌∷◌, [], OnOk};
ghost use Rattle.outputs.specs.Joins.{Joins, Lines};

use init_base::{List, NoMemory, Pid, SharedList, Text};
use init_machine::{How, Output, Word};

/// Where outputs are told.
pub trait Outputs: Drop {
    /// What was told between two states, in order.
    ghost Adds: { Self → Self → Lines → Type 0 };

    /// Tells an output.
    fn push(&mut self, output: Output) -> Result<(), NoMemory>
        ensures { OnOk result (Adds self.old self.new (output ∷ [])) };

    /// Tells that an event was taken.
    fn event(&mut self, name: &Text) -> Result<(), NoMemory>
        ensures { OnOk result (Adds self.old self.new (Output.Event name.now ∷ [])) }
    {
        self.push(Output::Event {
            name: name.share()?,
        })
    }

    /// Tells that the change of a property was taken.
    fn change(&mut self, name: &Text, value: &Text) -> Result<(), NoMemory>
        ensures { OnOk result (Adds self.old self.new (Output.Change name.now value.now ∷ [])) }
    {
        self.push(Output::Change {
            name: name.share()?,
            value: value.share()?,
        })
    }

    /// Tells that an action begins.
    fn action(&mut self, file: &Text, line: u32) -> Result<(), NoMemory>
        ensures { OnOk result (Adds self.old self.new (Output.Action file.now line ∷ [])) }
    {
        self.push(Output::Action {
            file: file.share()?,
            line,
        })
    }

    /// Tells a command.
    fn command(
        &mut self,
        file: &Text,
        line: u32,
        word: Word,
        args: &SharedList<Text>,
    ) -> Result<(), NoMemory>
        ensures { OnOk result (Adds self.old self.new (Output.Command file.now line word args.now ∷ [])) }
    {
        self.push(Output::Command {
            file: file.share()?,
            line,
            word,
            args: args.share()?,
        })
    }

    /// Tells that a command ended well.
    fn ok(&mut self) -> Result<(), NoMemory>
        ensures { OnOk result (Adds self.old self.new (Output.Ok ∷ [])) }
    {
        self.push(Output::Ok)
    }

    /// Tells an accepted set.
    fn put(&mut self, number: u64, name: &Text, value: &Text) -> Result<(), NoMemory>
        ensures { OnOk result (Adds self.old self.new (Output.Put number name.now value.now ∷ [])) }
    {
        self.push(Output::Put {
            number,
            name: name.share()?,
            value: value.share()?,
        })
    }

    /// Tells that a property is stored.
    fn stored(&mut self, name: &Text) -> Result<(), NoMemory>
        ensures { OnOk result (Adds self.old self.new (Output.Stored name.now ∷ [])) }
    {
        self.push(Output::Stored {
            name: name.share()?,
        })
    }

    /// Tells that a process began.
    fn spawn(&mut self, pid: Pid, name: &Text, path: &Text) -> Result<(), NoMemory>
        ensures { OnOk result (Adds self.old self.new (Output.Spawn pid name.now path.now ∷ [])) }
    {
        self.push(Output::Spawn {
            pid,
            name: name.share()?,
            path: path.share()?,
        })
    }

    /// Tells that a process is killed.
    fn kill(&mut self, pid: Pid, name: &Text) -> Result<(), NoMemory>
        ensures { OnOk result (Adds self.old self.new (Output.Kill pid name.now ∷ [])) }
    {
        self.push(Output::Kill {
            pid,
            name: name.share()?,
        })
    }

    /// Tells how a process ended.
    fn reap(&mut self, pid: Pid, name: &Text, how: How) -> Result<(), NoMemory>
        ensures { OnOk result (Adds self.old self.new (Output.Reap pid name.now how ∷ [])) }
    {
        self.push(Output::Reap {
            pid,
            name: name.share()?,
            how,
        })
    }

    /// What is told joins.
    ghost joins: { Joins Adds };
}

impl Outputs for List<Output> {
    ghost use Rattle.outputs.specs.Lists.{Appends, appends_join};

    ghost Adds = { Appends };

    ghost joins = { appends_join };

    fn push(&mut self, output: Output) -> Result<(), NoMemory> {
        List::push(self, output)
    }
}
