//! Counting a history, entry by entry.

ghost use Rattle.std.specs.Prelude.{◌≡◌, ◌+◌, IfOk, OnOk, [], count_by};
ghost use Rattle.init_machine.specs.Props.{with_set};
ghost use Rattle.soak_summary.specs.Counting as spec;
ghost use Rattle.soak_summary.specs.Counts.{counted_of, tally_with, with_output};

use crate::store::{open_store, put_again};
use crate::tally::Tally;
use init_base::{NoMemory, Pid, SharedList, Text};
use init_machine::{ClientPart, How, Output, PropStore, Reading, Word};
use list_store::ListStore;
use outputs::Outputs;
use std::alloc::Global;
use std::marker::Model;

/// Counts the entries of a history, whose outputs it is told, and puts its sets again into a plain store. To contracts it is what it
/// has counted.
#[derive(Drop)]
pub struct Counter {
    alloc: Global,
    entries: u64,
    puts: u64,
    spawns: u64,
    events: u64,
    /// In a box, so that two counters change places by a few words.
    store: Box<ListStore>,
}

impl Model for Counter {
    ghost use Rattle.soak_summary.specs.Counts.{Counts, counts_in};

    ghost Value = { Counts };

    ghost view = { counts_in };
}

impl Counter {
    /// A counter of no entries.
    pub fn new(alloc: Global) -> Result<Counter, NoMemory>
        ensures { IfOk result (λ counter. counter ≡ counted_of []) }
    {
        Ok(Counter {
            alloc,
            entries: 0,
            puts: 0,
            spawns: 0,
            events: 0,
            store: Box::new(alloc, open_store(alloc)?)?,
        })
    }

    /// Counts one entry more, whose outputs are to be told.
    pub fn begin_entry(&mut self) -> Result<(), NoMemory>
        ensures { OnOk result (self.new ≡ record self.old { entries = self.old.entries + 1 }) }
    {
        self.entries = one_more(self.entries)?;
        Ok(())
    }

    fn count_output(&mut self, output: &Output) -> Result<(), NoMemory>
        ensures { OnOk result (self.new ≡ with_output self.old output.now) }
    {
        match output {
            Output::Put { name, value, .. } => self.count_put(name, value),
            Output::Spawn { .. } => self.count_spawn(),
            Output::Event { .. } | Output::Change { .. } | Output::AllProperties => {
                self.count_event()
            }
            _ => Ok(()),
        }
    }

    fn count_event(&mut self) -> Result<(), NoMemory>
        ensures { OnOk result (self.new ≡ record self.old { events = self.old.events + 1 }) }
    {
        self.events = one_more(self.events)?;
        Ok(())
    }

    fn count_spawn(&mut self) -> Result<(), NoMemory>
        ensures { OnOk result (self.new ≡ record self.old { spawns = self.old.spawns + 1 }) }
    {
        self.spawns = one_more(self.spawns)?;
        Ok(())
    }

    fn count_put(&mut self, name: &Text, value: &Text) -> Result<(), NoMemory>
        ensures { OnOk result (self.new ≡ record self.old {
          puts = self.old.puts + 1;
          props = with_set self.old.props name.now value.now;
        }) }
    {
        put_again(self.alloc, &mut self.store, name.bytes(), value.bytes())?;
        self.puts = one_more(self.puts)?;
        Ok(())
    }

    /// The numbers of the report that has the counted history and these parts of clients.
    pub fn tally(&self, clients: &[ClientPart]) -> Result<Tally, NoMemory>
        ensures { IfOk result (λ tally. tally ≡ tally_with self.now clients.now) }
    {
        Ok(Tally {
            entries: self.entries,
            puts: self.puts,
            spawns: self.spawns,
            events: self.events,
            found: found_in(clients)?,
            used: self.store.used(),
        })
    }
}

impl Outputs for Counter {
    ghost use Rattle.soak_summary.specs.Counts.{IsCounted};
    ghost use Rattle.soak_summary.specs.impl_laws.Told.{told_joins};

    ghost Adds = { IsCounted };

    ghost joins = { told_joins };

    fn push(&mut self, output: Output) -> Result<(), NoMemory> {
        self.count_output(&output)
    }

    fn event(&mut self, _name: &Text) -> Result<(), NoMemory> {
        self.count_event()
    }

    fn change(&mut self, _name: &Text, _value: &Text) -> Result<(), NoMemory> {
        self.count_event()
    }

    fn action(&mut self, _file: &Text, _line: u32) -> Result<(), NoMemory> {
        Ok(())
    }

    fn command(
        &mut self,
        _file: &Text,
        _line: u32,
        _word: Word,
        _args: &SharedList<Text>,
    ) -> Result<(), NoMemory> {
        Ok(())
    }

    fn put(&mut self, _number: u64, name: &Text, value: &Text) -> Result<(), NoMemory> {
        self.count_put(name, value)
    }

    fn stored(&mut self, _name: &Text) -> Result<(), NoMemory> {
        Ok(())
    }

    fn spawn(&mut self, _pid: Pid, _name: &Text, _path: &Text) -> Result<(), NoMemory> {
        self.count_spawn()
    }

    fn kill(&mut self, _pid: Pid, _name: &Text) -> Result<(), NoMemory> {
        Ok(())
    }

    fn reap(&mut self, _pid: Pid, _name: &Text, _how: How) -> Result<(), NoMemory> {
        Ok(())
    }
}

/// One more. A number of 64 bits or more is want of memory.
fn one_more(number: u64) -> Result<u64, NoMemory>
    ensures { IfOk result (λ more. more ≡ number + 1) }
{
    number.checked_add(1).ok_or(NoMemory)
}

/// How many readings of clients found a value.
fn found_in(clients: &[ClientPart]) -> Result<u64, NoMemory>
    ensures { IfOk result (λ found. found ≡ spec.found_in clients.now) }
{
    let mut found: u64 = 0;
    for client in clients {
        let here = count_found(client.readings.items()) as u64;
        found = found.checked_add(here).ok_or(NoMemory)?;
    }
    Ok(found)
}

fn count_found(readings: &[Reading]) -> usize
    ensures { result ≡ count_by spec.is_found readings.now }
{
    readings
        .iter()
        .filter(|reading| matches!(reading, Reading::Found { .. }))
        .count()
}
