//! A disk in memory.

ghost use Rattle.std.specs.Prelude.{◌≡◌, ⊤, Some, IfOk, length, min, reverse};
ghost use Rattle.persist_disk.specs.DiskModel as spec;
ghost use Rattle.persist_disk.specs.Record.{content_after, left_now, reaches_back, read_is_left, unrecorded, LeftSince};

use crate::disk::Disk;
use init_base::{FailPlan, Failed, IoRefusal, List, NoMemory, Text, copy_front};
use std::alloc::Global;
use std::marker::Model;

/// A call that changed a disk, or made it safe.
#[derive(Debug, Drop)]
pub enum DiskStep {
    Write { at: u64, bytes: Text },
    Sync,
}

/// A disk in memory, some of whose calls fail. A call that fails does nothing. It keeps what it held at first, and a record
/// of the writes and syncs that were done.
#[derive(Debug, Drop)]
pub struct MemDisk {
    alloc: Global,
    start: Text,
    content: Vec<u8>,
    steps: List<DiskStep>,
    plan: FailPlan,
}

impl Model for MemDisk {
    ghost use Rattle.std.specs.Prelude.{◌≡◌, reverse};
    ghost use Rattle.persist_disk.specs.Record.{content_after, Recorded};

    ghost Value = { Recorded };

    ghost view = { λ d. record { start = d.start; steps = reverse d.steps; calls = d.plan } };

    ghost invariant = { λ d. d.content.items ≡ content_after d.start (reverse d.steps) };
}

impl MemDisk {
    /// A disk that holds these bytes, all of them safe. `fail` lists the numbers of the calls, from 1, that fail.
    pub fn new(alloc: Global, content: Text, fail: List<u64>) -> Result<MemDisk, NoMemory>
        ensures { IfOk result (λ disk. disk ≡ unrecorded content fail) }
    {
        Ok(MemDisk {
            alloc,
            content: Vec::from_slice(alloc, content.bytes())?,
            start: content,
            steps: List::new(alloc),
            plan: FailPlan::new(fail),
        })
    }

    /// How many calls were made, with those that failed.
    pub fn calls(&self) -> u64
        ensures { result ≡ self.now.calls.made }
    {
        self.plan.made()
    }

    /// What was written and synced, in order.
    pub fn steps(&self) -> &[DiskStep]
        ensures { reverse result.now ≡ self.now.steps }
    {
        self.steps.items()
    }

    /// What a read gives.
    pub fn content(&self) -> &[u8]
        ensures { result.now ≡ content_after self.now.start self.now.steps }
    {
        &self.content
    }
}

/// Bytes with others written at a place. A place past the end is led up to by zeros.
fn written(alloc: Global, old: &[u8], at: u64, bytes: &[u8]) -> Result<Vec<u8>, NoMemory>
    ensures { IfOk result (λ new. new.items ≡ spec.written old.now at bytes.now) }
{
    let at = at as usize;
    let mut new = Vec::from_slice(alloc, &old[..at.min(old.len())])?;
    new.resize(at, 0)?;
    new.extend_from_slice(bytes)?;
    if bytes.len() < old.len().saturating_sub(at) {
        new.extend_from_slice(&old[at + bytes.len()..])?;
    }
    Ok(new)
}

impl Disk for MemDisk {
    ghost content = { λ d. Some (content_after d.start d.steps) };

    ghost fault_count = { λ d. d.calls.faults };

    ghost TellsCrash = { λ _. ⊤ };

    ghost moment = { λ d. length d.steps };

    ghost MayLeave = { λ d. LeftSince d.start d.steps };

    fn faults(&self) -> u64 {
        self.plan.faults()
    }

    fn read_at(&mut self, at: u64, buf: &mut [u8]) -> Result<usize, Failed> {
        self.plan.call()?;
        let at = (at as usize).min(self.content.len());
        Ok(copy_front(&self.content[at..], buf))
    }

    fn write_at(&mut self, at: u64, bytes: &[u8]) -> Result<(), IoRefusal> {
        self.plan.call()?;
        let content = written(self.alloc, &self.content, at, bytes)?;
        let bytes = Text::of(self.alloc, bytes)?;
        self.steps.push(DiskStep::Write { at, bytes })?;
        self.content = content;
        Ok(())
    }

    fn sync(&mut self) -> Result<(), IoRefusal> {
        self.plan.call()?;
        self.steps.push(DiskStep::Sync)?;
        Ok(())
    }

    ghost earlier = { λ d. reaches_back d.start d.steps };

    ghost given = { λ d _. left_now d.start d.steps (content_after d.start d.steps) (read_is_left d.start d.steps) };
}
