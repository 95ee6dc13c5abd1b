//! `Services`: the marks of services and the times that follow from them.

ghost use Rattle.std.specs.Prelude.{◌≡◌, Ok, IfOk};

use crate::options::{restart_time, timeout_time, window};
use init_base::{List, Millis, NoMemory};
use init_machine::{Marks, Move, Op, ServiceDef};
use restart_policy::{ExitCounts, Times, set_both};
use service_table::{Table, step};
use std::alloc::Global;
use std::marker::Model;

/// Four values, where there was memory for those behind the first. Else those that there are end here, so that the proof of a
/// caller has nothing to do with it.
fn all_four<A: Drop, B: Drop, C: Drop, D: Drop>(
    first: A,
    second: Result<B, NoMemory>,
    third: Result<C, NoMemory>,
    fourth: Result<D, NoMemory>,
) -> Result<(A, B, C, D), NoMemory>
    ensures first { IfOk result (λ all. all.0 ≡ first) }
    ensures others { IfOk result (λ all. (second ≡ Ok all.1) × (third ≡ Ok all.2) × (fourth ≡ Ok all.3)) }
{
    Ok((first, second?, third?, fourth?))
}

/// The declared services. The kept times are exactly those that follow from the marks and that a clock can reach.
#[derive(Drop)]
pub struct Services {
    table: Table,
    exits: ExitCounts,
    restarts: Times,
    timeouts: Times,
}

impl Model for Services {
    ghost use Rattle.services.specs.Services.{ServicesView};

    ghost Value = { ServicesView };

    ghost use Rattle.std.specs.Prelude.{◌≡◌, length};
    ghost use Rattle.services.specs.Times.{kept_restart, kept_timeout, times_of};

    ghost view = { λ s. record { defs = s.table.defs; marks = s.table.marks; exits = s.exits } };

    ghost invariant = { λ s. (length s.exits ≡ length s.table.defs) × (s.restarts ≡ times_of kept_restart s.table.defs s.table.marks)
        × (s.timeouts ≡ times_of kept_timeout s.table.defs s.table.marks) };
}

impl Services {
    ghost use Rattle.std.specs.Prelude.{◌≡◌, ◌<◌, IsTrue, IfOk, OnOk, OnErr, length, slice_get};
    ghost use Rattle.std.specs.Option.{option_copied};
    ghost use Rattle.init_machine.specs.WellFormed.{are_distinct};
    ghost use Rattle.service_table.specs.Table.{names_of};
    ghost use Rattle.services.specs.Services.{exit_is_fatal, first_services, marks_of, move_of, place_named, places_due, places_of_class, places_timed_out, with_exit, with_op};

    /// Services that were just declared.
    pub fn new(alloc: Global, defs: List<ServiceDef>) -> Result<Services, NoMemory>
        requires { IsTrue (are_distinct (names_of defs)) }
        ensures { IfOk result (λ services. services ≡ first_services defs) }
    {
        let count = defs.len();
        let (table, exits, restarts, timeouts) = all_four(
            Table::new(alloc, defs)?,
            ExitCounts::new(alloc, count),
            Times::new(alloc, count),
            Times::new(alloc, count),
        )?;
        Ok(Services {
            table,
            exits,
            restarts,
            timeouts,
        })
    }

    /// The place of a service. None exactly where no service has the name.
    pub fn find(&self, name: &[u8]) -> Option<usize>
        ensures { result ≡ place_named self.now name.now }
    {
        self.table.find(name)
    }

    /// The places of the services of a class, in declared order.
    pub fn of_class(&self, alloc: Global, class: &[u8]) -> Result<List<usize>, NoMemory>
        ensures { IfOk result (λ places. places ≡ places_of_class self.now class.now) }
    {
        self.table.of_class(alloc, class)
    }

    /// The definition of the service at a place. None exactly where there is none.
    pub fn get(&self, at: usize) -> Option<&ServiceDef>
        ensures { option_copied result ≡ slice_get self.now.defs at }
    {
        if at < self.table.count() {
            Some(self.table.def(at))
        } else {
            None
        }
    }

    /// The marks of the service at a place.
    pub fn marks(&self, at: usize) -> Marks
        requires { at < length self.now.defs }
        ensures { result ≡ marks_of self.now at }
    {
        self.table.marks(at)
    }

    /// Does an operation to the service at a place, and answers what follows from it.
    pub fn apply(&mut self, at: usize, op: Op) -> Result<Move, NoMemory>
        requires { at < length self.old.defs }
        ensures services { OnOk result (self.new ≡ with_op self.old at op) }
        ensures todo { IfOk result (λ todo. todo ≡ move_of self.old at op) }
        ensures err { OnErr result (self.new ≡ self.old) }
    {
        let mut marks = self.table.marks(at);
        step(&mut marks, op);
        let restart = restart_time(self.table.def(at), marks);
        let timeout = timeout_time(self.table.def(at), marks);
        set_both(at, &mut self.restarts, restart, &mut self.timeouts, timeout)?;
        Ok(self.table.apply(at, op))
    }

    /// Counts an exit of the service at a place, if it is critical, and answers whether it was one too many.
    pub fn count_exit(&mut self, at: usize, now: Millis, booted: bool) -> Result<bool, NoMemory>
        requires { at < length self.old.defs }
        ensures services { OnOk result (self.new ≡ with_exit self.old at now.0 booted) }
        ensures fatal { IfOk result (λ fatal. fatal ≡ exit_is_fatal self.old at now.0 booted) }
        ensures err { OnErr result (self.new ≡ self.old) }
    {
        match window(self.table.def(at)) {
            Some(window) => self.exits.count(at, window, booted, now),
            None => Ok(false),
        }
    }

    /// The places of the restarting services that are due at a time, in declared order.
    pub fn due(&self, alloc: Global, now: Millis) -> Result<List<usize>, NoMemory>
        ensures { IfOk result (λ places. places ≡ places_due self.now now.0) }
    {
        self.restarts.due(alloc, now)
    }

    /// The places of the services whose processes have run for their timeouts at a time, in declared order.
    pub fn timed_out(&self, alloc: Global, now: Millis) -> Result<List<usize>, NoMemory>
        ensures { IfOk result (λ places. places ≡ places_timed_out self.now now.0) }
    {
        self.timeouts.due(alloc, now)
    }
}
