//! The counted exits of critical services.

use init_base::{List, Millis, NoMemory};
use std::alloc::Global;
use std::marker::Model;

/// The counted exits of each service, by place.
#[derive(Drop)]
pub struct ExitCounts {
    counts: Vec<Counted>,
}

impl Model for ExitCounts {
    ghost use Rattle.std.specs.Prelude.{List as Items, map};
    ghost use Rattle.init_machine.specs.State.{Exits};

    ghost Value = { Items Exits };

    ghost use Rattle.restart_policy.specs.Exits.{counted_of};

    ghost view = { λ exits. map counted_of exits.counts.items };
}

impl ExitCounts {
    ghost use Rattle.std.specs.Prelude.{◌≡◌, ◌<◌, IfOk, OnOk, OnErr, length, replicate, slice_set};
    ghost use Rattle.init_machine.specs.State.{no_exits};
    ghost use Rattle.restart_policy.specs.Exits.{exits_behind, is_fatal};

    /// No exit of each of so many services.
    pub fn new(alloc: Global, count: usize) -> Result<ExitCounts, NoMemory>
        ensures { IfOk result (λ exits. exits ≡ replicate count no_exits) }
    {
        Ok(ExitCounts {
            counts: none_each(alloc, count)?,
        })
    }

    /// Counts an exit of the critical service at a place, whose window is so long, and answers whether it was one too
    /// many.
    pub fn count(
        &mut self,
        at: usize,
        window: Millis,
        booted: bool,
        now: Millis,
    ) -> Result<bool, NoMemory>
        requires { at < length self.old }
        ensures ok { OnOk result (self.new ≡ slice_set self.old at (exits_behind self.old at window.0 booted now.0)) }
        ensures fatal { IfOk result (λ fatal. fatal ≡ is_fatal (exits_behind self.old at window.0 booted now.0)) }
        ensures err { OnErr result (self.new ≡ self.old) }
    {
        let exits = &mut self.counts[at];
        exits.add(window, booted, now)?;
        Ok(exits.is_fatal())
    }
}

ghost use Rattle.std.specs.Prelude.{◌≡◌, IfOk, OnOk, OnErr, map, replicate};
ghost use Rattle.init_machine.specs.Reaping.{counted};
ghost use Rattle.init_machine.specs.State.{no_exits};
ghost use Rattle.restart_policy.specs.Exits.{counted_of, is_fatal};

/// The times of the exits that are counted, and since when they are. Memory alone bounds how many they are.
#[derive(Drop)]
struct Counted {
    exits: List<Millis>,
    since: u64,
}

impl Counted {
    /// One exit more: while boot isn't completed, or within the window, the count rises; else a new window begins.
    fn add(&mut self, window: Millis, booted: bool, now: Millis) -> Result<(), NoMemory>
        ensures ok { OnOk result (counted_of self.new ≡ counted booted now.0 window.0 (counted_of self.old)) }
        ensures err { OnErr result (self.new ≡ self.old) }
    {
        let is_within = now.0 < self.since || now.0 - self.since < window.0;
        self.exits.push(now)?;
        if booted && !is_within {
            self.exits.truncate(1);
            self.exits.set(0, now);
            self.since = now.0;
        }
        Ok(())
    }

    /// Whether the machine reboots after these exits: the fifth one is one too many.
    fn is_fatal(&self) -> bool
        ensures { result ≡ is_fatal (counted_of self.now) }
    {
        self.exits.len() > 4
    }
}

/// No exit of each of so many services.
fn none_each(alloc: Global, count: usize) -> Result<Vec<Counted>, NoMemory>
    ensures { IfOk result (λ exits. map counted_of exits.items ≡ replicate count no_exits) }
{
    let mut exits = Vec::with_capacity(alloc, count)?;
    for _ in 0..count {
        exits.push(Counted {
            exits: List::new(alloc),
            since: 0,
        })?;
    }
    Ok(exits)
}
