//! Processes, and when they end.

ghost use Rattle.std.specs.Prelude.{◌≡◌, IfOk};
ghost use Rattle.std.specs.Option.{option_map};
ghost use Rattle.init_machine.specs.Kernel.{has_ended, how_ended, is_past};
ghost use Rattle.model_kernel.specs.Kernel.{reaped_of};
ghost use Rattle.model_kernel.specs.Parts.{end_of, process_of};

use crate::reaped::Reaped;
use init_base::{NoMemory, Pid, Text};
use init_machine::How;
use std::alloc::Global;

/// When a planned process exits, and with which status.
#[derive(Clone, Copy)]
pub(crate) struct End {
    pub(crate) time: u64,
    pub(crate) status: u8,
}

#[derive(Drop)]
pub(crate) struct Process {
    pub(crate) pid: u32,
    pub(crate) name: Text,
    pub(crate) end: Option<End>,
    pub(crate) killed: bool,
}

impl Process {
    /// Whether the process ends at a time: it was killed, or its planned end has come.
    pub(crate) fn has_ended(&self, now: u64) -> bool
        ensures { result ≡ has_ended now (process_of self.now) }
    {
        match self.end {
            _ if self.killed => true,
            Some(end) => end.time <= now,
            None => false,
        }
    }

    /// A killed process is killed, also where its planned end has come.
    fn how_ended(&self) -> How
        ensures { result ≡ how_ended (process_of self.now) }
    {
        match self.end {
            Some(end) if !self.killed => How::Exit(end.status),
            _ => How::Killed,
        }
    }

    /// What is told of the process when it has ended.
    pub(crate) fn reaped(&self, alloc: Global) -> Result<Reaped, NoMemory>
        ensures { IfOk result (λ reaped. reaped ≡ reaped_of (process_of self.now)) }
    {
        Ok(Reaped {
            pid: Pid(self.pid),
            name: self.name.share()?,
            how: self.how_ended(),
        })
    }
}
