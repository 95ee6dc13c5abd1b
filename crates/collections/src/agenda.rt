//! Numbers in the order of times: which of them are due at a time is found in time of how many are due.

ghost use Rattle.std.specs.Prelude.{◌≡◌, ◌==◌, ◌&&◌, ◌||◌, [], ℕ, map, false, nat_eq, nat_le, not, IfOk, IsTrue, OnOk, OnErr};
ghost use Rattle.std.specs.List.{list_any, take_while};
ghost use Rattle.std.specs.BTreeSet.{IsFromIterResult, IsOrdered};
ghost use Rattle.std.specs.List.Sorted.{IsStrictlySortedBy};
ghost use Rattle.std.specs.Ordering.{nat_cmp};
ghost use Rattle.collections.specs.Moments.{is_held, is_due, moment_cmp};

use init_base::{List, NoMemory};
use std::alloc::Global;
use std::collections::BTreeSet;
use std::marker::Model;

/// Pairs of a time and a number, in order. It keeps the allocator that its constructor was given.
#[derive(Drop)]
pub struct Agenda {
    moments: BTreeSet<(u64, usize)>,
}

impl Model for Agenda {
    ghost use Rattle.std.specs.Prelude.{ℕ, List};

    ghost Value = { List (ℕ × ℕ) };

    ghost view = { λ agenda. agenda.moments.keys };
}

impl Agenda {
    /// An agenda without pairs. It takes no memory.
    pub fn new(alloc: Global) -> Agenda
        ensures { result ≡ [] }
    {
        Agenda {
            moments: BTreeSet::new(alloc),
        }
    }

    /// Adds a number at a time.
    pub fn add(&mut self, time: u64, number: usize) -> Result<(), NoMemory>
        ensures ok { OnOk result ((t n : ℕ) → is_held t n self.new ≡ ((time == t && number == n) || is_held t n self.old)) }
        ensures err { OnErr result (self.new ≡ self.old) }
    {
        self.moments.insert((time, number))?;
        Ok(())
    }

    /// Takes a number at a time away.
    pub fn remove(&mut self, time: u64, number: usize)
        ensures { (t n : ℕ) → is_held t n self.new ≡ (not (time == t && number == n) && is_held t n self.old) }
    {
        self.moments.remove(&(time, number));
    }

    /// The numbers at times up to this one, ascending.
    pub fn due(&self, alloc: Global, now: u64) -> Result<List<usize>, NoMemory>
        ensures numbers { IfOk result (λ numbers. (n : ℕ) → list_any (nat_eq n) numbers ≡ is_due now n self.now) }
        ensures ascending { IfOk result (IsStrictlySortedBy nat_cmp) }
    {
        if is_free(&self.moments, now) {
            return Ok(List::new(alloc));
        }
        let first = due_first(alloc, &self.moments, now)?;
        let numbers = in_order(alloc, first)?;
        Ok(numbers)
    }
}

/// Whether no number stands at a time up to this one.
fn is_free(moments: &BTreeSet<(u64, usize)>, now: u64) -> bool
    ensures { IsTrue result → (n : ℕ) → is_due now n moments.now.keys ≡ false }
{
    match moments.first() {
        Some(moment) => moment.0 > now,
        None => true,
    }
}

/// The numbers at times up to this one, in the order of their times.
fn due_first(
    alloc: Global,
    moments: &BTreeSet<(u64, usize)>,
    now: u64,
) -> Result<Vec<usize>, NoMemory>
    ensures numbers { IfOk result
        (λ numbers. numbers.items ≡ map (λ moment. moment.1) (take_while (λ moment. nat_le moment.0 now) moments.now.keys)) }
    ensures ordered { IsStrictlySortedBy moment_cmp moments.now.keys }
{
    let numbers = moments
        .iter()
        .take_while(|moment| moment.0 <= now)
        .map(|moment| moment.1)
        .collect(alloc)?;
    Ok(numbers)
}

/// The same numbers, ascending.
fn in_order(alloc: Global, numbers: Vec<usize>) -> Result<List<usize>, NoMemory>
    ensures numbers { IfOk result (λ sorted. (n : ℕ) → list_any (nat_eq n) sorted ≡ list_any (nat_eq n) numbers.items) }
    ensures ascending { IfOk result (IsStrictlySortedBy nat_cmp) }
{
    let set = set_of(alloc, numbers)?;
    let sorted = list_of(alloc, set)?;
    Ok(sorted)
}

fn set_of(alloc: Global, numbers: Vec<usize>) -> Result<BTreeSet<usize>, NoMemory>
    ensures { IfOk result (IsFromIterResult nat_cmp numbers.items) }
{
    Ok(numbers.into_iter().collect(alloc)?)
}

fn list_of(alloc: Global, set: BTreeSet<usize>) -> Result<List<usize>, NoMemory>
    ensures list { IfOk result (λ list. list ≡ set.keys) }
    ensures ordered { IsOrdered nat_cmp set }
{
    Ok(List::from_vec(set.into_iter().collect(alloc)?))
}
