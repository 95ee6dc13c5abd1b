//! How a service ends: every reader is given back, and what lasts is handed over.

ghost use Rattle.std.specs.Prelude.{◌≡◌, ◌<◌, ◌^◌, ◌↔◌, ℕ, All, Err, IfOk, Ok, OnOk, length, true, false};
ghost use Rattle.std.specs.List.{slice_index_or};
ghost use Rattle.init_base.specs.declared.units.ClientId.{ClientId as Who};
ghost use Rattle.property_service.specs.Ending.{HasItsPart, HasPart, IsFirstMissing, IsMissing, taking_all};
ghost use Rattle.property_service.specs.Service.{Agrees, has_seat, state_after};
ghost use Rattle.property_service.specs.declared.ending.FinishRefusal.{FinishRefusal as Why};
ghost use Rattle.property_service.specs.declared.ending.FinishRefusal.TheVariants as refused;

use crate::area_name::AreaName;
use crate::desk::Desk;
use crate::leaving::{first_seated, take_in_all};
use crate::service::Service;
use init_base::{ClientId, List, unless};
use init_core::Ended;
use init_machine::{Entry, Pair};
use outputs::Outputs;
use prop_contexts::Policy;
use property_area::{AreaWriter, Reader, WriterSeat};

/// What lasts of a desk: the properties to be saved, whether sets of persistent ones are, the policy, and the writer's seat.
#[derive(Drop)]
pub struct Closed {
    pub saved: List<Pair>,
    pub saving: bool,
    pub policy: Policy,
    pub seat: WriterSeat,
}

/// What lasts of a service: its history too.
#[derive(Drop)]
pub struct Finished {
    pub history: List<Entry>,
    pub saved: List<Pair>,
    pub saving: bool,
    pub policy: Policy,
    pub seat: WriterSeat,
}

/// Why a service didn't end well.
#[derive(Clone, Copy, Debug, PartialEq, Eq)]
pub enum FinishRefusal {
    /// An earlier call answered `NoMemory`.
    Spent,
    /// This client entered, and no reader of it was given back. It is the least one.
    Missing { who: ClientId },
}

impl<'a, N: AreaName, O: Outputs> Desk<'a, N, O> {
    /// Takes all readers in and ends the desk. It takes no memory. After a refusal the desk and the readers are gone.
    ///
    /// `Spent` comes exactly where an earlier call answered `NoMemory`; else `Missing` exactly where a client that entered has no
    /// reader among those that are given, with the least such client. At `Missing` too those that are given have their parts.
    pub fn finish(self, readers: List<Reader>) -> Result<Closed, FinishRefusal>
        requires area { All (λ reader. reader.table ≡ N.area) readers }
        ensures seat { IfOk result
            (λ closed. (closed.seat.table ≡ N.area) × (closed.seat.view ≡ taking_all self.entry.seat readers)) }
        ensures saved { IfOk result (λ closed. (closed.saved ≡ (state_after self.entry).saved)
            × (closed.saving ≡ (state_after self.entry).saving)) }
        ensures policy { IfOk result (λ closed. closed.policy ≡ self.entry.opening.policy) }
        ensures agrees { OnOk result (Agrees self.entry) }
        ensures parts { OnOk result (All (HasItsPart self.entry) readers) }
        ensures whole { OnOk result ((who : ℕ) → ¬ IsMissing self.entry readers who) }
        ensures missing { (who : Who) → result ≡ Err (refused.Missing who) → IsFirstMissing self.entry readers who }
        ensures given { (who : Who) → result ≡ Err (refused.Missing who) → All (HasItsPart self.entry) readers }
        ensures spent { (result ≡ Err refused.Spent) ↔ (self.entry.spent ≡ true) }
    {
        if self.is_spent() {
            drop(self);
            return Err(FinishRefusal::Spent);
        }
        self.close(readers)
    }

    /// Ends the desk, which isn't spent.
    fn close(self, readers: List<Reader>) -> Result<Closed, FinishRefusal>
        requires ready { self.spent ≡ false }
        requires area { All (λ reader. reader.table ≡ N.area) readers }
        ensures seat { IfOk result
            (λ closed. (closed.seat.table ≡ N.area) × (closed.seat.view ≡ taking_all self.entry.seat readers)) }
        ensures saved { IfOk result (λ closed. (closed.saved ≡ (state_after self.entry).saved)
            × (closed.saving ≡ (state_after self.entry).saving)) }
        ensures policy { IfOk result (λ closed. closed.policy ≡ self.entry.opening.policy) }
        ensures agrees { OnOk result (Agrees self.entry) }
        ensures parts { All (HasItsPart self.entry) readers }
        ensures whole { OnOk result ((who : ℕ) → ¬ IsMissing self.entry readers who) }
        ensures missing { (who : Who) → result ≡ Err (refused.Missing who) → IsFirstMissing self.entry readers who }
        ensures spent { ¬ (result ≡ Err refused.Spent) }
    {
        let core = self.core;
        let seats = self.seats;
        close_all(core.into_ended(), seats, readers)
    }
}

/// What lasts of a core, once all readers are given back. Else a client's reader lacks.
fn close_all(
    ended: Ended<AreaWriter<'_>>,
    mut seats: List<bool>,
    readers: List<Reader>,
) -> Result<Closed, FinishRefusal>
    requires area { All (λ reader. reader.table ≡ ended.store.table) readers }
    requires seated { (who : ℕ) → slice_index_or seats who false ≡ has_seat ended.store.view who }
    requires few { length seats < 2 ^ 32 }
    ensures closed { IfOk result (λ closed. (closed.saved ≡ ended.entry.saved) × (closed.saving ≡ ended.entry.saving)
        × (closed.policy ≡ ended.entry.policy)
        × (closed.seat.table ≡ ended.entry.store.table) × (closed.seat.view ≡ taking_all ended.entry.store.view readers)) }
    ensures parts { All (HasPart ended.entry.store.view) readers }
    ensures nobody { OnOk result ((who : ℕ) → has_seat (taking_all ended.entry.store.view readers) who ≡ false) }
    ensures missing { (who : Who) → result ≡ Err (refused.Missing who)
        → (has_seat (taking_all ended.entry.store.view readers) who.0 ≡ true)
        × ((q : ℕ) → q < who.0 → has_seat (taking_all ended.entry.store.view readers) q ≡ false) × (who.0 < length seats) }
    ensures spent { ¬ (result ≡ Err refused.Spent) }
{
    let Ended {
        saved,
        saving,
        policy,
        mut store,
    } = ended;
    take_in_all(&mut store, &mut seats, readers);
    let seat = store.into_seat();
    let closed = Closed {
        saved,
        saving,
        policy,
        seat,
    };
    match unless(first_seated(&seats), closed) {
        Ok(closed) => Ok(closed),
        Err(who) => Err(FinishRefusal::Missing { who }),
    }
}

impl<'a, N: AreaName> Service<'a, N> {
    /// Takes all readers in and ends the service. It takes no memory. After a refusal the service and the readers are gone.
    ///
    /// `Spent` comes exactly where an earlier call answered `NoMemory`; else `Missing` exactly where a client that entered has no
    /// reader among those that are given, with the least such client. At `Missing` too those that are given have their parts.
    pub fn finish(self, readers: List<Reader>) -> Result<Finished, FinishRefusal>
        requires area { All (λ reader. reader.table ≡ N.area) readers }
        ensures history { IfOk result (λ finished. finished.history ≡ self.entry.history) }
        ensures seat { IfOk result (λ finished. (finished.seat.table ≡ N.area)
            × (finished.seat.view ≡ taking_all self.entry.seat readers)) }
        ensures saved { IfOk result (λ finished. (finished.saved ≡ (state_after self.entry).saved)
            × (finished.saving ≡ (state_after self.entry).saving)) }
        ensures policy { IfOk result (λ finished. finished.policy ≡ self.entry.opening.policy) }
        ensures agrees { OnOk result (Agrees self.entry) }
        ensures parts { OnOk result (All (HasItsPart self.entry) readers) }
        ensures whole { OnOk result ((who : ℕ) → ¬ IsMissing self.entry readers who) }
        ensures missing { (who : Who) → result ≡ Err (refused.Missing who) → IsFirstMissing self.entry readers who }
        ensures given { (who : Who) → result ≡ Err (refused.Missing who) → All (HasItsPart self.entry) readers }
        ensures spent { (result ≡ Err refused.Spent) ↔ (self.entry.spent ≡ true) }
    {
        if self.is_spent() {
            drop(self);
            return Err(FinishRefusal::Spent);
        }
        self.close(readers)
    }

    /// Ends the service, which isn't spent.
    fn close(self, readers: List<Reader>) -> Result<Finished, FinishRefusal>
        requires ready { self.spent ≡ false }
        requires area { All (λ reader. reader.table ≡ N.area) readers }
        ensures history { IfOk result (λ finished. finished.history ≡ self.entry.history) }
        ensures seat { IfOk result (λ finished. (finished.seat.table ≡ N.area)
            × (finished.seat.view ≡ taking_all self.entry.seat readers)) }
        ensures saved { IfOk result (λ finished. (finished.saved ≡ (state_after self.entry).saved)
            × (finished.saving ≡ (state_after self.entry).saving)) }
        ensures policy { IfOk result (λ finished. finished.policy ≡ self.entry.opening.policy) }
        ensures agrees { OnOk result (Agrees self.entry) }
        ensures parts { OnOk result (All (HasItsPart self.entry) readers) }
        ensures whole { OnOk result ((who : ℕ) → ¬ IsMissing self.entry readers who) }
        ensures missing { (who : Who) → result ≡ Err (refused.Missing who) → IsFirstMissing self.entry readers who }
        ensures given { (who : Who) → result ≡ Err (refused.Missing who) → All (HasItsPart self.entry) readers }
        ensures spent { ¬ (result ≡ Err refused.Spent) }
    {
        let desk = self.desk;
        let history = self.history;
        with_history(history, desk.finish(readers))
    }
}

/// What lasts of a desk, with the history.
fn with_history(
    history: List<Entry>,
    closed: Result<Closed, FinishRefusal>,
) -> Result<Finished, FinishRefusal>
    ensures finished { IfOk result (λ finished. (finished.history ≡ history) × (closed ≡ Ok (record {
      saved = finished.saved;
      saving = finished.saving;
      policy = finished.policy;
      seat = finished.seat;
    }))) }
    ensures refused { (why : Why) → (result ≡ Err why) ↔ (closed ≡ Err why) }
{
    let Closed {
        saved,
        saving,
        policy,
        seat,
    } = closed?;
    Ok(Finished {
        history,
        saved,
        saving,
        policy,
        seat,
    })
}
