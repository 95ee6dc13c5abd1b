//! Sinks in memory.

ghost use Rattle.std.specs.Prelude.{◌≡◌, ◌++◌, [], Some, List, ℕ, IfOk, OnErr, length};
ghost use Rattle.init_base.specs.Faults.{Counted, write_failed};
ghost use Rattle.init_base.specs.Memory.{after_call, fails_next, fresh};
ghost use Rattle.init_base.specs.Outside.{TakesPrefix, TakesSome};

use super::plan::FailPlan;
use crate::list::List;
use crate::memory::NoMemory;
use crate::outside::refusal::IoRefusal;
use crate::outside::sink::Sink;
use std::alloc::Global;
use std::marker::Model;

/// Takes the whole piece. `NoMemory` takes nothing.
fn take_piece(taken: &mut Vec<u8>, piece: &[u8]) -> Result<usize, NoMemory>
    ensures ok { IfOk result (λ count. (count ≡ length piece.now) × (taken.new.items ≡ taken.old.items ++ piece.now)) }
    ensures err { OnErr result (taken.new.items ≡ taken.old.items) }
{
    taken.extend_from_slice(piece)?;
    Ok(piece.len())
}

/// A sink that keeps what it takes, and some of whose writes fail. It takes whole pieces.
#[derive(Debug, Drop)]
pub struct MemSink {
    taken: Vec<u8>,
    plan: FailPlan,
}

impl Model for MemSink {
    ghost use Rattle.std.specs.Prelude.{ℕ, List};
    ghost use Rattle.init_base.specs.Memory.{InMemory};

    ghost Value = { InMemory (List ℕ) };

    ghost view = { λ s. record { content = s.taken.items; calls = s.plan } };
}

impl MemSink {
    /// A sink that has taken nothing. `fail` lists the numbers of the writes, from 1, that fail.
    pub fn new(alloc: Global, fail: List<u64>) -> MemSink
        ensures { result ≡ fresh [] fail }
    {
        MemSink {
            taken: Vec::new(alloc),
            plan: FailPlan::new(fail),
        }
    }

    /// The bytes that were taken.
    pub fn taken(&self) -> &[u8]
        ensures { result.now ≡ self.now.content }
    {
        self.taken.as_slice()
    }
}

impl Sink for MemSink {
    ghost taken = { λ s. Some s.content };

    ghost fault_count = { λ s. s.calls.faults };

    fn faults(&self) -> u64 {
        self.plan.faults()
    }

    fn write(&mut self, _alloc: Global, piece: &[u8]) -> Result<usize, IoRefusal>
        ensures bound { TakesSome result piece.now }
        ensures taken { TakesPrefix (Some self.old.content) (Some self.new.content) result piece.now }
        ensures cause { Counted (write_failed result) self.old.calls.faults self.new.calls.faults }
        ensures whole { IfOk result (λ count. count ≡ length piece.now) }
        ensures failed { write_failed result ≡ fails_next self.old.calls }
        ensures calls { self.new.calls ≡ after_call self.old.calls }
    {
        self.plan.call()?;
        Ok(take_piece(&mut self.taken, piece)?)
    }
}

/// A sink that keeps what it takes and never fails. It takes whole pieces.
#[derive(Debug, Drop)]
pub struct SteadySink {
    taken: Vec<u8>,
}

impl Model for SteadySink {
    ghost use Rattle.std.specs.Prelude.{ℕ, List};

    ghost Value = { List ℕ };

    ghost view = { λ s. s.taken.items };
}

impl SteadySink {
    /// A sink that has taken nothing.
    pub fn new(alloc: Global) -> SteadySink
        ensures { result ≡ [] }
    {
        SteadySink {
            taken: Vec::new(alloc),
        }
    }

    /// The bytes that were taken.
    pub fn taken(&self) -> &[u8]
        ensures { result.now ≡ self.now }
    {
        self.taken.as_slice()
    }
}

impl Sink for SteadySink {
    ghost taken = { λ s. Some s };

    ghost fault_count = { λ _. 0 };

    fn faults(&self) -> u64 {
        0
    }

    fn write(&mut self, _alloc: Global, piece: &[u8]) -> Result<usize, IoRefusal>
        ensures bound { TakesSome result piece.now }
        ensures taken { TakesPrefix (Some self.old) (Some self.new) result piece.now }
        ensures cause { Counted (write_failed result) 0 0 }
        ensures whole { IfOk result (λ count. count ≡ length piece.now) }
    {
        Ok(take_piece(&mut self.taken, piece)?)
    }
}
