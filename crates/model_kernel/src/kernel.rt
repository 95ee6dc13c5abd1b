//! The kernel.

use crate::living::Living;
use crate::plans::Plans;
use crate::process::Process;
use crate::reaped::Reaped;
use crate::refusal::{SpawnRefusal, TickRefusal};
use init_base::{List, Millis, NoMemory, Pid, Text};
use init_machine::Plan;
use std::alloc::Global;
use std::marker::Model;

/// The last pid that a process may have.
const LAST_PID: u32 = 4_194_304;

/// The last time that the clock may show, in milliseconds.
const LAST_TIME: u64 = 9_007_199_254_740_992;

/// Processes in the order of their pids, and the clock. It keeps the allocator that its constructor was given.
#[derive(Drop)]
pub struct Kernel {
    plans: Plans,
    clock: u64,
    next_pid: u32,
    living: Living,
}

impl Model for Kernel {
    ghost use Rattle.std.specs.Prelude.{◌≤◌};
    ghost use Rattle.init_machine.specs.Kernel.{last_time};
    ghost use Rattle.model_kernel.specs.Kernel.{KernelView};

    ghost Value = { KernelView };

    ghost use Rattle.model_kernel.specs.Living.{AreBelow};

    ghost view = { λ k. record { plans = k.plans; kernel = record { clock = k.clock; next_pid = k.next_pid; processes = k.living } } };

    ghost invariant = { λ k. (k.clock ≤ last_time) × AreBelow k.next_pid k.living };
}

impl Kernel {
    ghost use Rattle.std.specs.Prelude.{◌≡◌, ◌+◌, ◌≤◌, ◌↔◌, true, false, IsTrue, IfOk, OnOk, OnErr, nat_lt};
    ghost use Rattle.init_machine.specs.Kernel.{has_pid, last_time};
    ghost use Rattle.init_machine.specs.WellFormed.{are_distinct};
    ghost use Rattle.model_kernel.specs.Kernel.{end_in_time, exited, exiting, killed, opened, paths_of, reaped_at, spawned, ticked};

    /// The kernel without processes, at the time 0. `first` is the pid of its first process.
    pub fn new(alloc: Global, first: u32, plans: List<Plan>) -> Result<Kernel, NoMemory>
        requires paths { IsTrue (are_distinct (paths_of plans)) }
        requires ends { IsTrue (end_in_time plans) }
        ensures { IfOk result (λ kernel. kernel ≡ opened plans first) }
    {
        Ok(Kernel {
            plans: Plans::new(alloc, plans)?,
            clock: 0,
            next_pid: first,
            living: Living::new(alloc),
        })
    }

    /// Begins a process, and answers its pid.
    ///
    /// # Errors
    ///
    /// `NoPid` comes exactly where the next pid is past the last one.
    pub fn spawn(&mut self, name: &Text, path: &[u8]) -> Result<Pid, SpawnRefusal>
        ensures no_pid { (result ≡ Err SpawnRefusal.NoPid) ↔ (has_pid self.old.kernel ≡ false) }
        ensures pid { IfOk result (λ pid. pid.0 ≡ self.old.kernel.next_pid) }
        ensures ok { OnOk result (self.new ≡ spawned self.old name.now path.now) }
        ensures err { OnErr result (self.new ≡ self.old) }
    {
        if self.next_pid > LAST_PID {
            return Err(SpawnRefusal::NoPid);
        }
        let pid = self.next_pid;
        let process = Process {
            pid,
            name: name.share()?,
            end: self.plans.end(self.clock, path),
            killed: false,
        };
        self.living.push(process)?;
        self.next_pid += 1;
        Ok(Pid(pid))
    }

    /// Kills a process: the next tick takes it away. Where it doesn't live nothing changes.
    pub fn kill(&mut self, pid: Pid)
        ensures { self.new ≡ killed self.old pid }
    {
        self.living.kill(pid.0);
    }

    /// Takes away the process of a name with the least pid. None exactly where there is none.
    pub fn exit(&mut self, name: &[u8]) -> Option<Pid>
        ensures pid { result ≡ exiting self.old name.now }
        ensures kernel { self.new ≡ exited self.old name.now }
    {
        let pid = self.living.first_named(name)?;
        self.living.remove(pid as usize);
        Some(Pid(pid))
    }

    /// Moves the clock, and takes away the processes that are killed or whose planned end has come, in the order of
    /// their pids.
    ///
    /// # Errors
    ///
    /// `TooFar` comes exactly where the clock would pass its last time.
    pub fn tick(&mut self, alloc: Global, ms: u64) -> Result<List<Reaped>, TickRefusal>
        ensures too_far { (result ≡ Err TickRefusal.TooFar) ↔ (nat_lt last_time (self.old.kernel.clock + ms) ≡ true) }
        ensures reaped { IfOk result (λ reaped. reaped ≡ reaped_at self.old (self.old.kernel.clock + ms)) }
        ensures ok { OnOk result (self.new ≡ ticked self.old (self.old.kernel.clock + ms)) }
        ensures err { OnErr result (self.new ≡ self.old) }
    {
        if ms > LAST_TIME - self.clock {
            return Err(TickRefusal::TooFar);
        }
        let now = self.clock + ms;
        let ended = self.living.ended(alloc, now)?;
        let reaped = told(alloc, &self.living, ended.items())?;
        bury(&mut self.living, ended.items());
        self.clock = now;
        Ok(reaped)
    }

    /// The time, which is never past the last one.
    pub fn now(&self) -> Millis
        ensures clock { result.0 ≡ self.now.kernel.clock }
        ensures within { result.0 ≤ last_time }
    {
        Millis(self.clock)
    }
}

ghost use Rattle.std.specs.Prelude.{◌≡◌, IfOk, fold, map};
ghost use Rattle.model_kernel.specs.Kernel.{reaped_of};
ghost use Rattle.model_kernel.specs.Living.{found, without_pid};

/// What is told of the processes of these pids.
fn told(alloc: Global, living: &Living, pids: &[usize]) -> Result<List<Reaped>, NoMemory>
    ensures { IfOk result (λ reaped. reaped ≡ map reaped_of (found living.now pids.now)) }
{
    let mut reaped = List::new(alloc);
    for pid in pids {
        if let Some(process) = living.get(*pid) {
            reaped.push(process.reaped(alloc)?)?;
        }
    }
    Ok(reaped)
}

/// Takes the processes of these pids away.
fn bury(living: &mut Living, pids: &[usize])
    ensures { living.new ≡ fold without_pid living.old pids.now }
{
    for pid in pids {
        living.remove(*pid);
    }
}
