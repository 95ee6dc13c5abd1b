//! `race`: a script's clients and its main actor beside each other.

ghost use Rattle.std.specs.Prelude.{◌≡◌, ◌≤◌, ◌∷◌, ◌++◌, [], All, IfOk, IsOkAnd, IsTrue, OnOk, length, slice_get};
ghost use Rattle.init_base.specs.Faults.{Counted};
ghost use Rattle.init_core.specs.Core.{opening_of};
ghost use Rattle.init_driver.specs.Keeper.{seen_by};
ghost use Rattle.init_driver.specs.Run.{AsksAreMet};
ghost use Rattle.init_machine.specs.State.{Opening};
ghost use Rattle.init_machine.specs.WellFormed.{IsWellFormed};
ghost use Rattle.init_race.specs.internal.Ended.{ComeBack, next_part, readers_of, told_to};
ghost use Rattle.init_race.specs.Keeping.{Gives, given_behind, has_failed, stored_in};
ghost use Rattle.init_race.specs.Race.{AreAll, AreRaced, HasEnded, HasRecorded, IsReportOf, KeepsRace, KeepsReport};
ghost use Rattle.init_race.specs.Threads.{MayAct};
ghost use Rattle.machine_laws.specs.Saved.{has_stored};
ghost use Rattle.machine_laws.specs.Saved as spec;
ghost use Rattle.persist_file.specs.Store.{are_saved, are_typed, store_text};
ghost use Rattle.property_area.specs.Area.{begins};
ghost use Rattle.property_area.specs.Seats.{Seated};
ghost use Rattle.script_lang.specs.declared.script.Script.{Script as Acts};
ghost use Rattle.trace_audit.specs.Audited.{Audited};

use crate::actors::{Acted, Stage};
use crate::gate::Gate;
use crate::refusal::RaceRefusal;
use crate::seating::seat_all;
use crate::threads::act_all;
use init_base::{IoRefusal, Keeper, List, NoMemory, both};
use init_driver::{Setup, open_area};
use init_machine::{ClientPart, Config, Diagnostic, Entry, Output, Pair, Report};
use prop_contexts::Policy;
use property_area::{Area, AreaWriter, Reader, WriterSeat};
use property_service::{AreaName, FinishRefusal, Finished, Service, Shared};
use script_lang::{Client, Script};
use std::alloc::Global;
use std::marker::Brand;
use std::sync::Wait;
use std::thread::Threads;

/// What a race leaves: its report, and the seat of the area's writer, whose record is that of the report's history and whose
/// clients' lists have the report's readings.
#[derive(Drop)]
pub struct Raced {
    pub report: Report,
    pub seat: WriterSeat,
}

/// What the actors leave.
#[derive(Drop)]
pub struct Ended {
    pub finished: Finished,
    pub parts: List<ClientPart>,
}

/// Takes the actors apart: the readers of all, and what each client was told.
fn parted(
    alloc: Global,
    clients: &List<Client>,
    acted: Vec<Acted>,
) -> Result<(Vec<Reader>, List<ClientPart>), NoMemory>
    ensures readers { IfOk result (λ parts. parts.0.items ≡ readers_of acted.items) }
    ensures parts { IfOk result (λ parts. parts.1 ≡ told_to clients.now acted.items) }
{
    let mut readers = Vec::new(alloc);
    let mut parts = List::new(alloc);
    for one in acted {
        part_off(clients, one, &mut readers, &mut parts)?;
    }
    Ok((readers, parts))
}

/// Takes an actor apart. One behind the clients has no part.
fn part_off(
    clients: &List<Client>,
    acted: Acted,
    readers: &mut Vec<Reader>,
    parts: &mut List<ClientPart>,
) -> Result<(), NoMemory>
    ensures readers { OnOk result (readers.new.items ≡ readers.old.items ++ acted.reader ∷ []) }
    ensures parts { OnOk result (parts.new ≡ parts.old ++ next_part (slice_get clients.now (length parts.old)) acted) }
{
    let Acted { reader, readings } = acted;
    readers.push(reader)?;
    match clients.at(parts.len()) {
        Some(client) => parts.push(ClientPart {
            name: client.name.share()?,
            domain: client.domain.share()?,
            readings,
        }),
        None => Ok(()),
    }
}

/// The service ends, with the readers of all actors given back.
fn end<N: AreaName>(service: Service<'_, N>, readers: List<Reader>) -> Result<Finished, NoMemory>
    requires area { All (λ (reader : Seated). reader.table ≡ N.area) readers }
    requires all { AreAll readers }
    ensures ended { IfOk result (HasEnded readers) }
    ensures history { IfOk result (λ finished. finished.history ≡ service.entry.history) }
{
    match service.finish(readers) {
        Ok(finished) => Ok(finished),
        Err(FinishRefusal::Spent) => Err(NoMemory),
        Err(FinishRefusal::Missing { .. }) => unreachable!(),
    }
}

/// The actors do their parts beside each other, and give their readers back with what each client was told.
fn act_at<'x, N: AreaName + Send + Sync, R: Threads + Wait + Sync, G: Gate>(
    rt: &'x R,
    area: &'x Area,
    shared: &'x Shared<'_, N>,
    script: &'x Script,
    gate: &'x G,
    alloc: Global,
    readers: Vec<Reader>,
) -> Result<(List<Reader>, List<ClientPart>), NoMemory>
    requires area { area.now ≡ N.area }
    requires asks { AsksAreMet script.now }
    requires readers { All (MayAct N.area) readers.items }
    ensures { IfOk result (λ back. ComeBack script.now readers.items back.0 back.1) }
{
    let stage = Stage {
        rt,
        alloc,
        area,
        shared,
        script,
        gate,
    };
    let acted = act_all(&stage, readers)?;
    let (back, parts) = parted(alloc, &script.clients, acted)?;
    Ok((List::from_vec(back), parts))
}

/// The actors get their readers, do their parts, and the service ends.
fn run_actors<N: AreaName + Send + Sync, R: Threads + Wait + Sync, G: Gate>(
    rt: &R,
    alloc: Global,
    area: &Area,
    mut service: Service<'_, N>,
    script: &Script,
    gate: &G,
) -> Result<Ended, NoMemory>
    requires area { area.now ≡ N.area }
    requires begun { (service.history ≡ []) × (service.seat.out ≡ []) }
    requires domains { length script.now.clients ≡ length service.opening.config.domains }
    requires few { length script.now.clients ≤ 64 }
    requires asks { AsksAreMet script.now }
    ensures { IfOk result (λ ended. AreRaced service.entry.opening script.now ended.finished ended.parts) }
{
    let Ok(readers) = seat_all(alloc, &mut service, script.clients.items()) else {
        drop(service);
        return Err(NoMemory);
    };
    let shared = Shared::new(service);
    let came = act_at(rt, area, &shared, script, gate, alloc, readers);
    end_with(shared.into_inner(), came)
}

/// The service ends, once the actors came back.
pub fn end_with<N: AreaName>(
    service: Service<'_, N>,
    came: Result<(List<Reader>, List<ClientPart>), NoMemory>,
) -> Result<Ended, NoMemory>
    requires area { IfOk came (λ back. All (λ (reader : Seated). reader.table ≡ N.area) back.0) }
    requires all { IfOk came (λ back. AreAll back.0) }
    ensures ended { IfOk result (λ ended. IsOkAnd came (λ back. HasEnded back.0 ended.finished × (ended.parts ≡ back.1))) }
    ensures history { IfOk result (λ ended. ended.finished.history ≡ service.entry.history) }
{
    match came {
        Ok((readers, parts)) => {
            let finished = end(service, readers)?;
            Ok(Ended { finished, parts })
        }
        Err(NoMemory) => {
            drop(service);
            Err(NoMemory)
        }
    }
}

/// The actors' run over an area that is new.
fn run_over<N: AreaName + Send + Sync, R: Threads + Wait + Sync, G: Gate>(
    rt: &R,
    alloc: Global,
    area: &Area,
    seat: WriterSeat,
    machine: (Config, Policy),
    script: &Script,
    gate: &G,
) -> Result<Ended, NoMemory>
    requires config { IsWellFormed machine.0 }
    requires area { (area.now ≡ N.area) × (seat.table ≡ area.now) × (seat.view ≡ begins script.now.words) }
    requires domains { length script.now.clients ≡ length machine.0.domains }
    requires few { length script.now.clients ≤ 64 }
    requires asks { AsksAreMet script.now }
    ensures { IfOk result (λ ended. AreRaced (opening_of machine.0 machine.1 script.now.words) script.now ended.finished ended.parts) }
{
    let (config, policy) = machine;
    let writer = AreaWriter::new(area, seat);
    let service = Service::<N>::new(alloc, config, policy, writer)?;
    run_actors(rt, alloc, area, service, script, gate)
}

/// The actors' run over an area that is made for it and ends with it.
fn run_in_area<R: Threads + Wait + Sync, G: Gate>(
    rt: &R,
    alloc: Global,
    machine: (Config, Policy),
    script: &Script,
    gate: &G,
) -> Result<Ended, NoMemory>
    requires config { IsWellFormed machine.0 }
    requires domains { length script.now.clients ≡ length machine.0.domains }
    requires few { length script.now.clients ≤ 64 }
    requires words { (64 ≤ script.now.words) × (script.now.words ≤ 1048576) }
    requires asks { AsksAreMet script.now }
    ensures { IfOk result (λ ended. AreRaced (opening_of machine.0 machine.1 script.now.words) script.now ended.finished ended.parts) }
{
    let (machine, (area, seat)) = both(machine, open_area(alloc, script.words))?;
    let ended = run_over::<Brand, R, G>(rt, alloc, &area, seat, machine, script, gate);
    drop(area);
    ended
}

/// What a race leaves, of what its actors leave.
fn raced_of(diagnostics: List<Diagnostic>, ended: Ended) -> Raced
    ensures report { result.report ≡ record { diagnostics = diagnostics; history = ended.finished.history; clients = ended.parts } }
    ensures seat { result.seat ≡ ended.finished.seat }
{
    let Ended { finished, parts } = ended;
    let Finished {
        history,
        saved,
        saving: _,
        policy,
        seat,
    } = finished;
    drop(saved);
    drop(policy);
    Raced {
        report: Report {
            diagnostics,
            history,
            clients: parts,
        },
        seat,
    }
}

/// Replaces what the keeper holds, where a property was stored.
fn keep<P: Keeper>(alloc: Global, finished: &Finished, keeper: &mut P) -> Result<(), RaceRefusal>
    requires saved { IsTrue (stored_in finished.now.history) → IsTrue (are_saved finished.now.saved) }
    requires typed { IsTrue (stored_in finished.now.history) → IsTrue (are_typed finished.now.policy finished.now.saved) }
    ensures keeps { let seen = seen_by P.held P.TellsCrash P.moment P.MayLeave in
        Gives (given_behind finished.now.history finished.now.policy finished.now.saved) (seen keeper.old) (seen keeper.new) result }
    ensures cause { Counted (has_failed result) (P.fault_count keeper.old) (P.fault_count keeper.new) }
{
    if !stored(finished.history.items()) {
        return Ok(());
    }
    put(alloc, &finished.saved, &finished.policy, keeper)
}

/// Gives the keeper the text of pairs under a policy.
fn put<P: Keeper>(
    alloc: Global,
    pairs: &List<Pair>,
    policy: &Policy,
    keeper: &mut P,
) -> Result<(), RaceRefusal>
    requires saved { IsTrue (are_saved pairs.now) }
    requires typed { IsTrue (are_typed policy.now pairs.now) }
    ensures keeps { let seen = seen_by P.held P.TellsCrash P.moment P.MayLeave in
        Gives (store_text policy.now pairs.now ∷ []) (seen keeper.old) (seen keeper.new) result }
    ensures cause { Counted (has_failed result) (P.fault_count keeper.old) (P.fault_count keeper.new) }
{
    let text = persist_file::print(alloc, pairs, policy)?;
    match keeper.replace(alloc, text.bytes()) {
        Ok(()) => Ok(()),
        Err(IoRefusal::Failed) => Err(RaceRefusal::Keeper),
        Err(IoRefusal::NoMemory) => Err(RaceRefusal::NoMemory),
    }
}

/// Whether some entry stores a property.
fn stored(history: &[Entry]) -> bool
    ensures { result ≡ stored_in history.now }
{
    history.iter().any(|entry| stores(entry))
}

/// Whether an entry stores a property.
fn stores(entry: &Entry) -> bool
    ensures { result ≡ has_stored entry.now.outputs }
{
    entry.outputs.items().iter().any(|output| is_stored(output))
}

fn is_stored(output: &Output) -> bool
    ensures { result ≡ spec.is_stored output.now }
{
    matches!(output, Output::Stored { .. })
}

/// What is left once the service has ended. If a property was stored, the keeper is given the text of the saved pairs, and then the
/// report is made. `Keeper` comes only if the keeper's count of faults rose.
pub fn leave<P: Keeper>(
    alloc: Global,
    found: List<Diagnostic>,
    ended: Result<Ended, NoMemory>,
    keeper: &mut P,
) -> Result<Raced, RaceRefusal>
    requires { (o : Opening) × (script : Acts) × IsWellFormed o.config × IfOk ended (λ e. AreRaced o script e.finished e.parts) }
    ensures report { IfOk result (λ raced. IsReportOf found ended raced.report) }
    ensures raced { (o : Opening) (script : Acts) → IfOk ended (λ e. AreRaced o script e.finished e.parts)
        → IfOk result (λ raced. Audited o found script raced.report) }
    ensures seat { (o : Opening) (script : Acts) → IfOk ended (λ e. AreRaced o script e.finished e.parts)
        → IfOk result (λ raced. HasRecorded o raced.report.history raced.report.clients raced.seat.view) }
    ensures kept { (o : Opening) (script : Acts) → IfOk ended (λ e. AreRaced o script e.finished e.parts)
        → let seen = seen_by P.held P.TellsCrash P.moment P.MayLeave in
        KeepsReport o (λ report. IsReportOf found ended report) result (seen keeper.old) (seen keeper.new) }
    ensures cause { Counted (has_failed result) (P.fault_count keeper.old) (P.fault_count keeper.new) }
{
    let (found, ended) = both(found, ended)?;
    match keep(alloc, &ended.finished, keeper) {
        Ok(()) => Ok(raced_of(found, ended)),
        Err(why) => {
            drop(found);
            drop(ended);
            Err(why)
        }
    }
}

/// Runs a script with its main actor and each client on a thread of its own, beside each other: takes the boot, and then
/// whatever comes first of what the actors ask, each actor's inputs and requests in its own order.
///
/// The report is one that the audit of traces answers Yes to. Behind all actors the keeper is given the text of the saved pairs,
/// where a property was stored; how often, no clause says. `Keeper` comes only where the keeper's count of faults rose.
pub fn race<R: Threads + Wait + Sync, P: Keeper, G: Gate>(
    rt: &R,
    alloc: Global,
    setup: Setup,
    script: &Script,
    keeper: &mut P,
    gate: &G,
) -> Result<Raced, RaceRefusal>
    requires config { IsWellFormed setup.config }
    requires domains { length script.now.clients ≡ length setup.config.domains }
    requires words { (64 ≤ script.now.words) × (script.now.words ≤ 1048576) }
    requires asks { AsksAreMet script.now }
    ensures raced { IfOk result
        (λ raced. Audited (opening_of setup.config setup.policy script.now.words) setup.diagnostics script.now raced.report) }
    ensures seat { IfOk result (λ raced. HasRecorded
        (opening_of setup.config setup.policy script.now.words) raced.report.history raced.report.clients raced.seat.view) }
    ensures kept { let seen = seen_by P.held P.TellsCrash P.moment P.MayLeave in
        KeepsRace (opening_of setup.config setup.policy script.now.words) setup.diagnostics script.now result (seen keeper.old)
        (seen keeper.new) }
    ensures cause { Counted (has_failed result) (P.fault_count keeper.old) (P.fault_count keeper.new) }
{
    let Setup {
        config,
        policy,
        diagnostics,
    } = setup;
    let ended = run_in_area(rt, alloc, (config, policy), script, gate);
    leave(alloc, diagnostics, ended, keeper)
}
