//! Files in memory.

ghost use Rattle.std.specs.Prelude.{◌≡◌, Some};
ghost use Rattle.init_base.specs.Faults.{Counted, read_failed};
ghost use Rattle.init_base.specs.Memory.{after_call, fails_next, fresh};
ghost use Rattle.init_base.specs.Outside.{ListsFew, ListsNames, ReadsFile, ReadsWithin};

use super::plan::FailPlan;
use super::tree;
use crate::list::List;
use crate::outside::files::Files;
use crate::outside::refusal::Found;
use crate::text::Text;
use std::alloc::Global;
use std::marker::Model;

/// Files in memory, some of whose calls fail.
#[derive(Debug, Drop)]
pub struct MemFiles {
    entries: List<(Text, Text)>,
    plan: FailPlan,
}

impl Model for MemFiles {
    ghost use Rattle.std.specs.Prelude.{ℕ, List};
    ghost use Rattle.init_base.specs.Memory.{InMemory};

    ghost Value = { InMemory (List (List ℕ × List ℕ)) };

    ghost view = { λ f. record { content = f.entries; calls = f.plan } };
}

impl MemFiles {
    /// Files with these paths and bytes; of several entries with one path the first counts. `fail` lists the numbers
    /// of the calls, from 1, that fail.
    pub fn new(entries: List<(Text, Text)>, fail: List<u64>) -> MemFiles
        ensures { result ≡ fresh entries fail }
    {
        MemFiles {
            entries,
            plan: FailPlan::new(fail),
        }
    }
}

impl Files for MemFiles {
    ghost tree = { λ f. Some f.content };

    ghost fault_count = { λ f. f.calls.faults };

    fn faults(&self) -> u64 {
        self.plan.faults()
    }

    fn list(&mut self, alloc: Global, dir: &[u8]) -> Found<List<Text>>
        ensures names { ListsNames (Some self.old.content) dir.now result }
        ensures bound { ListsFew result }
        ensures tree { Some self.new.content ≡ Some self.old.content }
        ensures cause { Counted (read_failed result) self.old.calls.faults self.new.calls.faults }
        ensures failed { read_failed result ≡ fails_next self.old.calls }
        ensures calls { self.new.calls ≡ after_call self.old.calls }
    {
        self.plan.call()?;
        tree::list(alloc, self.entries.items(), dir)
    }

    fn read(&mut self, alloc: Global, path: &[u8], limit: usize) -> Found<Text>
        ensures bytes { ReadsFile (Some self.old.content) path.now limit result }
        ensures bound { ReadsWithin limit result }
        ensures tree { Some self.new.content ≡ Some self.old.content }
        ensures cause { Counted (read_failed result) self.old.calls.faults self.new.calls.faults }
        ensures failed { read_failed result ≡ fails_next self.old.calls }
        ensures calls { self.new.calls ≡ after_call self.old.calls }
    {
        self.plan.call()?;
        tree::read(alloc, self.entries.items(), path, limit)
    }
}

/// Files in memory that never fail.
#[derive(Debug, Drop)]
pub struct SteadyFiles {
    entries: List<(Text, Text)>,
}

impl Model for SteadyFiles {
    ghost use Rattle.std.specs.Prelude.{ℕ, List};

    ghost Value = { List (List ℕ × List ℕ) };

    ghost view = { λ f. f.entries };
}

impl SteadyFiles {
    /// Files with these paths and bytes; of several entries with one path the first counts.
    pub fn new(entries: List<(Text, Text)>) -> SteadyFiles
        ensures { result ≡ entries }
    {
        SteadyFiles { entries }
    }
}

impl Files for SteadyFiles {
    ghost tree = { λ f. Some f };

    ghost fault_count = { λ _. 0 };

    fn faults(&self) -> u64 {
        0
    }

    fn list(&mut self, alloc: Global, dir: &[u8]) -> Found<List<Text>> {
        tree::list(alloc, self.entries.items(), dir)
    }

    fn read(&mut self, alloc: Global, path: &[u8], limit: usize) -> Found<Text> {
        tree::read(alloc, self.entries.items(), path, limit)
    }
}
