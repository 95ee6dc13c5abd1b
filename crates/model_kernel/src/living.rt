//! The processes that live, in the order of their pids, and when they end.

use crate::process::{End, Process};
use collections::Agenda;
use init_base::{List, NoMemory};
use std::alloc::Global;
use std::collections::BTreeMap;
use std::marker::Model;

/// Processes by their pids. Beside them stand the times at which they end, so that those that end are found in time of
/// how many they are.
#[derive(Drop)]
pub(crate) struct Living {
    processes: BTreeMap<usize, Process>,
    /// The planned ends, and the time 0 for each process that was killed.
    ends: Agenda,
    /// Whether a kill found no memory for its time, so that each process has to be asked.
    asks_all: bool,
}

impl Model for Living {
    ghost use Rattle.std.specs.Prelude.{List};
    ghost use Rattle.init_machine.specs.Kernel.{Process};

    ghost Value = { List Process };

    ghost use Rattle.model_kernel.specs.Living.{living, AreListed};

    ghost view = { λ l. living l.processes.entries };

    ghost invariant = { λ l. AreListed l.asks_all l.ends l.processes.entries };
}

impl Living {
    ghost use Rattle.std.specs.Prelude.{◌≡◌, ◌==◌, ◌∷◌, ◌++◌, [], ℕ, IfOk, OnOk, OnErr, filter, find, map, not, true, false, nat_eq};
    ghost use Rattle.std.specs.List.{list_any};
    ghost use Rattle.std.specs.List.Sorted.{IsStrictlySortedBy};
    ghost use Rattle.std.specs.Option.{option_copied, option_map};
    ghost use Rattle.std.specs.Ordering.{nat_cmp};
    ghost use Rattle.std.specs.Str.{bytes_eq};
    ghost use Rattle.init_machine.specs.Kernel.{has_ended, marked};
    ghost use Rattle.model_kernel.specs.Living.{AreBelow, is_over, pids, with_pid, without_pid};
    ghost use Rattle.model_kernel.specs.Parts.{process_of};

    /// No process. It takes no memory.
    pub(crate) fn new(alloc: Global) -> Living
        ensures { result ≡ [] }
    {
        Living {
            processes: BTreeMap::new(alloc),
            ends: Agenda::new(alloc),
            asks_all: false,
        }
    }

    /// A process more, with a pid above those of the others.
    pub(crate) fn push(&mut self, process: Process) -> Result<(), NoMemory>
        requires below { AreBelow process.pid self.old }
        requires lives { process.killed ≡ false }
        ensures ok { OnOk result (self.new ≡ self.old ++ process_of process ∷ []) }
        ensures err { OnErr result (self.new ≡ self.old) }
    {
        let (pid, end) = (process.pid as usize, process.end);
        list_end(&mut self.ends, end, pid)?;
        match self.processes.insert(pid, process) {
            Ok(_) => Ok(()),
            Err(_) => {
                strike_end(&mut self.ends, end, pid);
                Err(NoMemory)
            }
        }
    }

    /// Marks the process with a pid as killed.
    pub(crate) fn kill(&mut self, pid: u32)
        ensures { self.new ≡ map (marked pid) self.old }
    {
        let pid = pid as usize;
        if !mark(&mut self.processes, pid) {
            return;
        }
        if self.ends.add(0, pid).is_err() {
            self.asks_all = true;
        }
    }

    /// Takes the process with a pid away.
    pub(crate) fn remove(&mut self, pid: usize)
        ensures { self.new ≡ without_pid self.old pid }
    {
        let Some(process) = self.processes.remove(&pid) else {
            return;
        };
        strike_end(&mut self.ends, process.end, pid);
        if process.killed {
            self.ends.remove(0, pid);
        }
    }

    pub(crate) fn get(&self, pid: usize) -> Option<&Process>
        ensures { option_map process_of (option_copied result) ≡ with_pid self.now pid }
    {
        self.processes.get(&pid)
    }

    /// The least pid of the processes with a name. It goes over the processes.
    pub(crate) fn first_named(&self, name: &[u8]) -> Option<u32>
        ensures { result ≡ option_map (λ p. p.pid) (find (λ p. bytes_eq p.name name.now) self.now) }
    {
        let process = first_named(&self.processes, name)?;
        Some(process.pid)
    }

    /// The pids of the processes that end at a time, ascending.
    pub(crate) fn ended(&self, alloc: Global, now: u64) -> Result<List<usize>, NoMemory>
        ensures pids { IfOk result (λ ended. ended ≡ pids (filter (has_ended now) self.now)) }
        ensures ascending { IsStrictlySortedBy nat_cmp (pids self.now) }
    {
        let asked = self.asked(alloc, now)?;
        self.those_ended(alloc, asked.items(), now)
    }

    /// The pids of processes that may end at a time, ascending.
    fn asked(&self, alloc: Global, now: u64) -> Result<List<usize>, NoMemory>
        ensures all { IfOk result
            (λ asked. (pid : ℕ) → is_over now (with_pid self.now pid) ≡ true → list_any (nat_eq pid) asked ≡ true) }
        ensures ascending { IfOk result (IsStrictlySortedBy nat_cmp) }
        ensures order { IsStrictlySortedBy nat_cmp (pids self.now) }
    {
        if self.asks_all {
            return pids_of(alloc, &self.processes);
        }
        self.ends.due(alloc, now)
    }

    /// Those of the pids whose processes end at a time.
    fn those_ended(&self, alloc: Global, asked: &[usize], now: u64) -> Result<List<usize>, NoMemory>
        ensures { IfOk result (λ ended. ended ≡ filter (λ pid. is_over now (with_pid self.now pid)) asked.now) }
    {
        let mut ended = List::new(alloc);
        for pid in asked {
            if self.has_ended(*pid, now) {
                ended.push(*pid)?;
            }
        }
        Ok(ended)
    }

    fn has_ended(&self, pid: usize, now: u64) -> bool
        ensures { result ≡ is_over now (with_pid self.now pid) }
    {
        match self.get(pid) {
            Some(process) => process.has_ended(now),
            None => false,
        }
    }
}

ghost use Rattle.std.specs.Prelude.{◌≡◌, ◌==◌, ◌&&◌, ◌||◌, ℕ, nat_eq, true, false, cond, Some, None, IfOk, IfSome, OnOk, OnErr, MatchOption, find, is_some};
ghost use Rattle.std.specs.BTreeMap.{is_at};
ghost use Rattle.std.specs.List.Sorted.{IsStrictlySortedBy};
ghost use Rattle.std.specs.Map.{keys_of, lookup, set_value, values_of};
ghost use Rattle.std.specs.Option.{option_copied, option_map};
ghost use Rattle.std.specs.Ordering.{nat_cmp};
ghost use Rattle.std.specs.Str.{bytes_eq};
ghost use Rattle.collections.specs.Moments.{is_held};
ghost use Rattle.model_kernel.specs.Living.{slain};

/// Puts the end of a process in order, where it is planned.
fn list_end(ends: &mut Agenda, end: Option<End>, pid: usize) -> Result<(), NoMemory>
    ensures end { OnOk result (IfSome end (λ end. is_held end.time pid ends.new ≡ true)) }
    ensures others { (t n : ℕ) → nat_eq pid n ≡ false → is_held t n ends.new ≡ is_held t n ends.old }
    ensures err { OnErr result (ends.new ≡ ends.old) }
{
    if let Some(end) = end {
        ends.add(end.time, pid)?;
    }
    Ok(())
}

/// Takes the end of a process out of the order.
fn strike_end(ends: &mut Agenda, end: Option<End>, pid: usize)
    ensures others { (t n : ℕ) → nat_eq pid n ≡ false → is_held t n ends.new ≡ is_held t n ends.old }
{
    if let Some(end) = end {
        ends.remove(end.time, pid);
    }
}

/// Marks the process with a pid as killed. False exactly where there is none.
fn mark(processes: &mut BTreeMap<usize, Process>, pid: usize) -> bool
    ensures there { result ≡ is_some (lookup (is_at (nat_cmp pid)) processes.old.entries) }
    ensures entries { MatchOption (lookup (is_at (nat_cmp pid)) processes.old.entries) (processes.new.entries ≡ processes.old.entries)
        (λ process. processes.new.entries ≡ set_value (is_at (nat_cmp pid)) processes.old.entries (slain process)) }
    ensures none { result ≡ false → processes.new.entries ≡ processes.old.entries }
    ensures at { lookup (is_at (nat_cmp pid)) processes.new.entries
        ≡ option_map slain (lookup (is_at (nat_cmp pid)) processes.old.entries) }
    ensures others { (q : ℕ) → is_at (nat_cmp pid) q ≡ false
        → lookup (is_at (nat_cmp q)) processes.new.entries ≡ lookup (is_at (nat_cmp q)) processes.old.entries }
    ensures ordered { IsStrictlySortedBy nat_cmp (keys_of processes.old.entries)
        → IsStrictlySortedBy nat_cmp (keys_of processes.new.entries) }
{
    match processes.get_mut(&pid) {
        Some(process) => {
            process.killed = true;
            true
        }
        None => false,
    }
}

/// The pids of all processes, ascending.
fn pids_of(alloc: Global, processes: &BTreeMap<usize, Process>) -> Result<List<usize>, NoMemory>
    ensures { IfOk result (λ pids. pids ≡ keys_of processes.now.entries) }
{
    Ok(List::from_vec(processes.keys().copied().collect(alloc)?))
}

/// The first of the processes with a name.
fn first_named<'a>(processes: &'a BTreeMap<usize, Process>, name: &[u8]) -> Option<&'a Process>
    ensures { option_copied result ≡ find (λ p. bytes_eq p.name name.now) (values_of processes.now.entries) }
{
    processes.values().find(|process| process.name.is(name))
}
