//! Sources in memory.

ghost use Rattle.std.specs.Prelude.{◌≡◌, ◌-◌, ◌≤◌, Some, List, ℕ, length, take, drop, min};
ghost use Rattle.std.specs.Io.{ReadsAtMost};
ghost use Rattle.std.specs.Io.KnownBytes.{ReadConsumes};
ghost use Rattle.init_base.specs.Faults.{Counted, source_failed};
ghost use Rattle.init_base.specs.Memory.{after_call, fails_next, fresh};

use super::plan::FailPlan;
use crate::list::List;
use crate::outside::refusal::Failed;
use crate::outside::source::Source;
use crate::text::Text;
use std::marker::Model;

/// The part of a text that wasn't read yet.
#[derive(Debug, Drop)]
struct Unread {
    bytes: Text,
    at: usize,
}

impl Model for Unread {
    ghost use Rattle.std.specs.Prelude.{◌≤◌, ℕ, List, length, drop};

    ghost Value = { List ℕ };

    ghost view = { λ u. drop u.at u.bytes };

    ghost invariant = { λ u. u.at ≤ length u.bytes };
}

impl Unread {
    fn new(bytes: Text) -> Unread
        ensures { result ≡ bytes }
    {
        Unread { bytes, at: 0 }
    }

    /// Puts as much of what is left into `buf` as it holds, and answers how much.
    fn read(&mut self, buf: &mut [u8]) -> usize
        ensures count { result ≡ min (length self.old) (length buf.old) }
        ensures bytes { take result buf.new ≡ take result self.old }
        ensures rest { self.new ≡ drop result self.old }
    {
        let count = copy_front(&self.bytes.bytes()[self.at..], buf);
        self.at += count;
        count
    }
}

/// Copies the first bytes, as many as both have.
pub fn copy_front(from: &[u8], to: &mut [u8]) -> usize
    ensures count { result ≡ min (length from.now) (length to.old) }
    ensures bytes { take result to.new ≡ take result from.now }
{
    let count = from.len().min(to.len());
    to[..count].copy_from_slice(&from[..count]);
    count
}

/// A source of the bytes of a text, some of whose reads fail.
#[derive(Debug, Drop)]
pub struct MemSource {
    unread: Unread,
    plan: FailPlan,
}

impl Model for MemSource {
    ghost use Rattle.std.specs.Prelude.{ℕ, List};
    ghost use Rattle.init_base.specs.Memory.{InMemory};

    ghost Value = { InMemory (List ℕ) };

    ghost view = { λ s. record { content = s.unread; calls = s.plan } };
}

impl MemSource {
    /// A source that gives the bytes in order. `fail` lists the numbers of the reads, from 1, that fail.
    pub fn new(bytes: Text, fail: List<u64>) -> MemSource
        ensures { result ≡ fresh bytes fail }
    {
        MemSource {
            unread: Unread::new(bytes),
            plan: FailPlan::new(fail),
        }
    }
}

impl Source for MemSource {
    ghost left = { λ s. Some s.content };

    ghost fault_count = { λ s. s.calls.faults };

    fn faults(&self) -> u64 {
        self.plan.faults()
    }

    fn read(&mut self, buf: &mut [u8]) -> Result<usize, Failed>
        ensures bound { ReadsAtMost result buf.new }
        ensures bytes { ReadConsumes (Some self.old.content) (Some self.new.content) result buf.new }
        ensures cause { Counted (source_failed result) self.old.calls.faults self.new.calls.faults }
        ensures failed { source_failed result ≡ fails_next self.old.calls }
        ensures calls { self.new.calls ≡ after_call self.old.calls }
    {
        self.plan.call()?;
        Ok(self.unread.read(buf))
    }
}

/// A source of the bytes of a text that never fails.
#[derive(Debug, Drop)]
pub struct SteadySource {
    unread: Unread,
}

impl Model for SteadySource {
    ghost use Rattle.std.specs.Prelude.{ℕ, List};

    ghost Value = { List ℕ };

    ghost view = { λ s. s.unread };
}

impl SteadySource {
    /// A source that gives the bytes in order.
    pub fn new(bytes: Text) -> SteadySource
        ensures { result ≡ bytes }
    {
        SteadySource {
            unread: Unread::new(bytes),
        }
    }
}

impl Source for SteadySource {
    ghost left = { λ s. Some s };

    ghost fault_count = { λ _. 0 };

    fn faults(&self) -> u64 {
        0
    }

    fn read(&mut self, buf: &mut [u8]) -> Result<usize, Failed> {
        Ok(self.unread.read(buf))
    }
}
