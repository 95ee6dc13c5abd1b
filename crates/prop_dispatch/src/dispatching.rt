//! `dispatch`: sessions beside each other, and one worker.

ghost use Rattle.std.specs.Prelude.{◌≡◌, ◌≤◌, ◌↔◌, ◌||◌, ◌++◌, ◌∷◌, ℕ, List as Items, [], Err, Some, IfOk, OnOk, false, true, length, map};
ghost use Rattle.prop_dispatch.specs.Clients.{AreOfClients, HaveNotEntered};
ghost use Rattle.prop_dispatch.specs.Relayed.{HaveAsked, IsRelayed, is_client_of};
ghost use Rattle.prop_dispatch.specs.internal.Serving.{AllServed, IsDispatched, Served, ServesAll};
ghost use Rattle.prop_dispatch.specs.declared.dispatching.DispatchRefusal.TheVariants as refusal;
ghost use Rattle.prop_dispatch.specs.declared.seat.Seat.{Seat as Place};
ghost use Rattle.prop_dispatch.specs.declared.session.Session.{Session as Asking};
ghost use Rattle.property_area.specs.Seats.{Seated};
ghost use Rattle.property_service.specs.Service.{Agrees, ServiceView, has_seat};

use crate::beside::serve_beside;
use crate::entering::begun;
use crate::in_turn::serve_in_turn;
use crate::pace::Pace;
use crate::seat::Seat;
use crate::session::Session;
use crate::verdict::Verdict;
use crate::worker::Worker;
use init_base::{List, NoMemory};
use property_area::Reader;
use property_service::{AreaName, Service};
use std::alloc::Global;
use std::sync::Wait;
use std::thread;
use std::thread::Threads;

/// What a dispatch leaves: the service, and of each session, in their order, its client's reader and its verdicts.
#[derive(Drop)]
pub struct Dispatched<'a, N: AreaName> {
    pub service: Service<'a, N>,
    pub readers: List<Reader>,
    pub verdicts: List<List<Verdict>>,
}

/// Why no service came back.
#[derive(Clone, Copy, Debug, PartialEq, Eq)]
pub enum DispatchRefusal {
    /// The service was spent before the call.
    Spent,
    NoMemory,
}

/// Serves all sessions' requests, each session's in its order. Nothing is promised of the order between sessions.
///
/// If no thread can be made, the sessions are served one after another without a queue, since they would fill it and wait for ever.
/// `Spent` comes exactly if the service was spent at the call. `NoMemory` may come at any other call. After a refusal the service is
/// gone.
pub fn dispatch<'a, N: AreaName + Send + Sync, R: Threads + Wait + Sync, P: Pace>(
    rt: &R,
    alloc: Global,
    service: Service<'a, N>,
    sessions: List<Session>,
    room: usize,
    pace: &P,
) -> Result<Dispatched<'a, N>, DispatchRefusal>
    requires many { (1 ≤ length sessions) × (length sessions ≤ 64) }
    requires room { (1 ≤ room) × (room ≤ 4096) }
    requires clients { AreOfClients service.opening sessions }
    requires fresh { HaveNotEntered service.seat sessions }
    ensures relayed { IfOk result
        (λ done. IsRelayed service.entry.history sessions done.verdicts done.service.history) }
    ensures readers { IfOk result (λ done. HaveAsked N.area service.entry done.service sessions done.readers) }
    ensures opening { IfOk result (λ done. done.service.opening ≡ service.entry.opening) }
    ensures entered { IfOk result (λ done. (who : ℕ)
        → has_seat done.service.seat who ≡ (has_seat service.entry.seat who || is_client_of sessions who)) }
    ensures ready { IfOk result (λ done. done.service.spent ≡ false) }
    ensures agrees { IfOk result (λ done. Agrees done.service) }
    ensures spent { (result ≡ Err refusal.Spent) ↔ (service.entry.spent ≡ true) }
{
    if service.is_spent() {
        drop(service);
        return Err(DispatchRefusal::Spent);
    }
    match relay(rt, alloc, service, sessions, room, pace) {
        Ok(dispatched) => Ok(dispatched),
        Err(NoMemory) => Err(DispatchRefusal::NoMemory),
    }
}

/// `dispatch`, if the service isn't spent.
fn relay<'a, N: AreaName + Send + Sync, R: Threads + Wait + Sync, P: Pace>(
    rt: &R,
    alloc: Global,
    service: Service<'a, N>,
    sessions: List<Session>,
    room: usize,
    pace: &P,
) -> Result<Dispatched<'a, N>, NoMemory>
    requires ready { service.spent ≡ false }
    requires few { length sessions ≤ 64 }
    requires room { 1 ≤ room }
    requires clients { AreOfClients service.opening sessions }
    requires fresh { HaveNotEntered service.seat sessions }
    ensures { IfOk result
        (λ done. IsDispatched N.area service.entry sessions done.service done.readers done.verdicts) }
{
    let worker = begun(alloc, service, &sessions);
    let worker = serve(rt, alloc, pace, worker, sessions, room);
    end(alloc, worker)
}

/// Whether a thread can be made: one that does nothing is tried.
fn has_threads<R: Threads>(rt: &R) -> bool {
    match thread::spawn(rt, || ()) {
        Ok(idle) => {
            idle.join(rt);
            true
        }
        Err(_) => false,
    }
}

/// Serves all sessions.
fn serve<'a, N: AreaName + Send + Sync, R: Threads + Wait + Sync, P: Pace>(
    rt: &R,
    alloc: Global,
    pace: &P,
    worker: Worker<'a, N>,
    sessions: List<Session>,
    room: usize,
) -> Worker<'a, N>
    requires room { 1 ≤ room }
    requires few { length sessions ≤ 64 }
    requires serves { (old : ServiceView) × Served N.area old sessions [] worker.failed worker.service worker.seats.items }
    ensures { ServesAll N.area sessions worker.entry.failed worker.entry.service worker.entry.seats.items
        result.failed result.service result.seats.items }
{
    if has_threads(rt) {
        serve_beside(rt, alloc, pace, worker, sessions, room)
    } else {
        serve_in_turn(pace, worker, sessions)
    }
}

/// Takes the worker apart, which has served all.
fn end<'a, N: AreaName>(alloc: Global, worker: Worker<'a, N>) -> Result<Dispatched<'a, N>, NoMemory>
    ensures failed { OnOk result (worker.entry.failed ≡ false) }
    ensures dispatched { IfOk result (λ done. (old : ServiceView) (sessions : Items Asking)
        → AllServed N.area old sessions worker.entry.service worker.entry.seats.items
        → IsDispatched N.area old sessions done.service done.readers done.verdicts) }
{
    let Worker {
        service,
        seats,
        failed,
    } = worker;
    let Ok((readers, verdicts)) = parted(alloc, seats, failed) else {
        drop(service);
        return Err(NoMemory);
    };
    let _ = service.history();
    Ok(Dispatched {
        service,
        readers,
        verdicts,
    })
}

/// The readers and the verdicts of seats, unless memory ran out.
fn parted(
    alloc: Global,
    seats: Vec<Seat>,
    failed: bool,
) -> Result<(List<Reader>, List<List<Verdict>>), NoMemory>
    ensures failed { OnOk result (failed ≡ false) }
    ensures readers { IfOk result (λ parts.
        map (λ (r : Seated). Some r) parts.0 ≡ map (λ (s : Place). s.reader) seats.items) }
    ensures verdicts { IfOk result (λ parts. parts.1 ≡ map (λ (s : Place). s.verdicts) seats.items) }
{
    if failed {
        return Err(NoMemory);
    }
    let mut readers = List::new(alloc);
    let mut verdicts = List::new(alloc);
    for seat in seats {
        part_off(seat, &mut readers, &mut verdicts)?;
    }
    Ok((readers, verdicts))
}

/// Takes a seat apart.
fn part_off(
    seat: Seat,
    readers: &mut List<Reader>,
    verdicts: &mut List<List<Verdict>>,
) -> Result<(), NoMemory>
    ensures reader { OnOk result
        (map (λ (r : Seated). Some r) readers.new ≡ map (λ (r : Seated). Some r) readers.old ++ seat.reader ∷ []) }
    ensures verdicts { OnOk result (verdicts.new ≡ verdicts.old ++ seat.verdicts ∷ []) }
{
    let Seat {
        reader,
        verdicts: answers,
    } = seat;
    let Some(reader) = reader else {
        return Err(NoMemory);
    };
    readers.push(reader)?;
    verdicts.push(answers)?;
    Ok(())
}
