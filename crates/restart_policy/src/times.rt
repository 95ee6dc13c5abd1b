//! Times by place.

use collections::Agenda;
use init_base::{List, Millis, NoMemory};
use std::alloc::Global;
use std::marker::Model;

/// For each place a time, or none. Beside them stand the times in order, exactly those that are kept.
#[derive(Drop)]
pub struct Times {
    times: Vec<Option<u64>>,
    order: Agenda,
}

impl Model for Times {
    ghost use Rattle.std.specs.Prelude.{ℕ, List, Option};

    ghost Value = { List (Option ℕ) };

    ghost use Rattle.restart_policy.specs.Times.{HoldsKept};

    ghost view = { λ times. times.times.items };

    ghost invariant = { λ times. HoldsKept times.times.items times.order };
}

impl Times {
    ghost use Rattle.std.specs.Prelude.{◌≡◌, ◌<◌, IfOk, OnOk, OnErr, None, length, replicate, slice_set};
    ghost use Rattle.restart_policy.specs.Times.{number_of, places_due};

    /// No time at each of so many places.
    #[tactic(auto, using(crate::proofs::Kept::none_kept))]
    pub fn new(alloc: Global, count: usize) -> Result<Times, NoMemory>
        ensures { IfOk result (λ times. times ≡ replicate count None) }
    {
        Ok(Times {
            times: none_each(alloc, count)?,
            order: Agenda::new(alloc),
        })
    }

    /// Keeps a time, or none, at a place, in place of what was kept there.
    fn set(&mut self, at: usize, time: Option<Millis>) -> Result<(), NoMemory>
        requires { at < length self.old }
        ensures ok { OnOk result (self.new ≡ slice_set self.old at (number_of time)) }
        ensures err { OnErr result (self.new ≡ self.old) }
    {
        let old = self.times[at];
        let new = number(time);
        hold(&mut self.order, new, at)?;
        strike(&mut self.order, old, new, at);
        self.times[at] = new;
        Ok(())
    }

    /// The places whose time is at most this one, ascending.
    pub fn due(&self, alloc: Global, now: Millis) -> Result<List<usize>, NoMemory>
        ensures { IfOk result (λ places. places ≡ places_due now.0 self.now) }
    {
        let places = self.order.due(alloc, now.0)?;
        Ok(places)
    }
}

ghost use Rattle.std.specs.Prelude.{◌≡◌, ◌<◌, ◌==◌, ◌&&◌, ◌||◌, ℕ, None, IfOk, OnOk, OnErr, length, not, replicate, slice_set};
ghost use Rattle.collections.specs.Moments.{is_held};
ghost use Rattle.restart_policy.specs.Times.{is_kept, number_of};

/// Keeps a time, or none, at a place of each of two, in place of what was kept there. Where memory lacks, both are as they
/// were.
pub fn set_both(
    at: usize,
    first: &mut Times,
    first_time: Option<Millis>,
    second: &mut Times,
    second_time: Option<Millis>,
) -> Result<(), NoMemory>
    requires first { at < length first.old }
    requires second { at < length second.old }
    ensures first { OnOk result (first.new ≡ slice_set first.old at (number_of first_time)) }
    ensures second { OnOk result (second.new ≡ slice_set second.old at (number_of second_time)) }
    ensures first_err { OnErr result (first.new ≡ first.old) }
    ensures second_err { OnErr result (second.new ≡ second.old) }
{
    let old = first.times[at];
    let new = number(first_time);
    hold(&mut first.order, new, at)?;
    if let Err(refusal) = second.set(at, second_time) {
        strike(&mut first.order, new, old, at);
        return Err(refusal);
    }
    strike(&mut first.order, old, new, at);
    first.times[at] = new;
    Ok(())
}

fn none_each(alloc: Global, count: usize) -> Result<Vec<Option<u64>>, NoMemory>
    ensures { IfOk result (λ times. times.items ≡ replicate count None) }
{
    let mut times = Vec::with_capacity(alloc, count)?;
    for _ in 0..count {
        times.push(None)?;
    }
    Ok(times)
}

fn number(time: Option<Millis>) -> Option<u64>
    ensures { result ≡ number_of time }
{
    time.map(|time| time.0)
}

/// Adds a time that is to be kept at a place to the order.
fn hold(order: &mut Agenda, time: Option<u64>, at: usize) -> Result<(), NoMemory>
    ensures ok { OnOk result ((t n : ℕ) → is_held t n order.new ≡ ((is_kept t time && at == n) || is_held t n order.old)) }
    ensures err { OnErr result (order.new ≡ order.old) }
{
    match time {
        Some(time) => order.add(time, at),
        None => Ok(()),
    }
}

/// Takes a time at a place out of the order, unless it is the other one.
fn strike(order: &mut Agenda, time: Option<u64>, other: Option<u64>, at: usize)
    ensures { (t n : ℕ) → is_held t n order.new
        ≡ (not (is_kept t time && not (is_kept t other) && at == n) && is_held t n order.old) }
{
    if let Some(time) = time
        && !is_same(other, time)
    {
        order.remove(time, at);
    }
}

fn is_same(kept: Option<u64>, time: u64) -> bool
    ensures { result ≡ is_kept time kept }
{
    match kept {
        Some(kept) => time == kept,
        None => false,
    }
}
