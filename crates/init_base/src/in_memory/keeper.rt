//! Keepers in memory.

ghost use Rattle.std.specs.Prelude.{◌≡◌, ◌≤◌, false, Some, List, ℕ, IfOk, OnOk, OnErr, length};
ghost use Rattle.init_base.specs.Faults.{read_failed};
ghost use Rattle.init_base.specs.Keeping.{HoldsNew, LoadsHeld};
ghost use Rattle.init_base.specs.Memory.{after_call, fails_next, fresh};

use super::plan::FailPlan;
use crate::list::List;
use crate::memory::NoMemory;
use crate::outside::keeper::Keeper;
use crate::outside::refusal::{IoRefusal, ReadRefusal};
use crate::text::Text;
use std::alloc::Global;
use std::marker::Model;

/// Another text of the same bytes, if there are at most `limit`.
fn load(held: &Text, limit: usize) -> Result<Text, ReadRefusal>
    ensures text { LoadsHeld (Some held.now) limit result }
    ensures bound { IfOk result (λ text. length text ≤ limit) }
    ensures steady { read_failed result ≡ false }
{
    if held.len() > limit {
        return Err(ReadRefusal::TooLarge);
    }
    Ok(held.share()?)
}

/// Makes the text these bytes. `NoMemory` leaves it as it was.
fn replace(alloc: Global, held: &mut Text, content: &[u8]) -> Result<(), NoMemory>
    ensures ok { OnOk result (held.new ≡ content.now) }
    ensures err { OnErr result (held.new ≡ held.old) }
{
    *held = Text::of(alloc, content)?;
    Ok(())
}

/// A keeper in memory, some of whose calls fail. A call that fails leaves the text as it was.
#[derive(Debug, Drop)]
pub struct MemKeeper {
    held: Text,
    plan: FailPlan,
}

impl Model for MemKeeper {
    ghost use Rattle.std.specs.Prelude.{ℕ, List};
    ghost use Rattle.init_base.specs.Memory.{InMemory};

    ghost Value = { InMemory (List ℕ) };

    ghost view = { λ k. record { content = k.held; calls = k.plan } };
}

impl MemKeeper {
    /// A keeper that holds this text. `fail` lists the numbers of the calls, from 1, that fail.
    pub fn new(content: Text, fail: List<u64>) -> MemKeeper
        ensures { result ≡ fresh content fail }
    {
        MemKeeper {
            held: content,
            plan: FailPlan::new(fail),
        }
    }
}

impl Keeper for MemKeeper {
    ghost held = { λ k. Some k.content };

    ghost fault_count = { λ k. k.calls.faults };

    ghost TellsCrash = { λ _. ⊥ };

    ghost moment = { λ _. 0 };

    ghost MayLeave = { λ _ _ _. ⊥ };

    fn faults(&self) -> u64 {
        self.plan.faults()
    }

    fn load(&mut self, _alloc: Global, limit: usize) -> Result<Text, ReadRefusal> {
        self.plan.call()?;
        load(&self.held, limit)
    }

    fn replace(&mut self, alloc: Global, content: &[u8]) -> Result<(), IoRefusal> {
        self.plan.call()?;
        Ok(replace(alloc, &mut self.held, content)?)
    }

    ghost earlier = { λ _ _ _ _ _ left. left };
}

/// A keeper in memory that never fails.
#[derive(Debug, Drop)]
pub struct SteadyKeeper {
    held: Text,
}

impl Model for SteadyKeeper {
    ghost use Rattle.std.specs.Prelude.{ℕ, List};

    ghost Value = { List ℕ };

    ghost view = { λ k. k.held };
}

impl SteadyKeeper {
    /// A keeper that holds this text.
    pub fn new(content: Text) -> SteadyKeeper
        ensures { result ≡ content }
    {
        SteadyKeeper { held: content }
    }
}

impl Keeper for SteadyKeeper {
    ghost held = { λ k. Some k };

    ghost fault_count = { λ _. 0 };

    ghost TellsCrash = { λ _. ⊥ };

    ghost moment = { λ _. 0 };

    ghost MayLeave = { λ _ _ _. ⊥ };

    fn faults(&self) -> u64 {
        0
    }

    fn load(&mut self, _alloc: Global, limit: usize) -> Result<Text, ReadRefusal> {
        load(&self.held, limit)
    }

    fn replace(&mut self, alloc: Global, content: &[u8]) -> Result<(), IoRefusal> {
        Ok(replace(alloc, &mut self.held, content)?)
    }

    ghost earlier = { λ _ _ _ _ _ left. left };
}
