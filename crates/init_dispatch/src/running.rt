//! `run_dispatch`: the main actor's part, then all sessions, then the end.

ghost use Rattle.std.specs.Prelude.{◌≡◌, ◌≤◌, ◌++◌, ◌∷◌, [], All, IfOk, length};
ghost use Rattle.init_base.specs.Faults.{Counted};
ghost use Rattle.init_core.specs.Core.{opening_of};
ghost use Rattle.init_dispatch.specs.Dispatched.{IsDispatched, KeepsDispatch};
ghost use Rattle.init_dispatch.specs.internal.Ending.{AreDispatched, HasBegun, IsServed};
ghost use Rattle.init_driver.specs.Keeper.{seen_by};
ghost use Rattle.init_driver.specs.Run.{AsksAreMet};
ghost use Rattle.init_machine.specs.WellFormed.{IsWellFormed};
ghost use Rattle.init_race.specs.Keeping.{has_failed};
ghost use Rattle.init_race.specs.Race.{HasRecorded};
ghost use Rattle.prop_dispatch.specs.Clients.{AreOfClients, HaveNotEntered};
ghost use Rattle.property_area.specs.Area.{begins};
ghost use Rattle.script_lang.specs.Sets.{IsSetOrMain};

use crate::main_actor::act_main;
use crate::parts::all_back;
use crate::sessions::sessions_of;
use init_base::{Keeper, List, NoMemory, both};
use init_driver::{Setup, open_area};
use init_machine::Config;
use init_race::{Ended, RaceRefusal, Raced, boot, end_with, leave};
use prop_contexts::Policy;
use prop_dispatch::{Dispatched, OpenPace, Session, dispatch};
use property_area::{Area, AreaWriter, Reader, WriterSeat};
use property_service::{AreaName, Service};
use script_lang::Script;
use std::alloc::Global;
use std::marker::Brand;
use std::sync::Wait;
use std::thread::Threads;

/// How many requests the queue has room for.
const ROOM: usize = 64;

/// The boot and the main actor's part are taken, and the clients' sessions are made.
fn begin<N: AreaName>(
    alloc: Global,
    service: &mut Service<'_, N>,
    script: &Script,
) -> Result<(Reader, List<Session>), NoMemory>
    requires begun { (service.old.history ≡ []) × (service.old.seat.out ≡ []) }
    requires few { length script.now.clients ≤ 64 }
    ensures { IfOk result (λ begun. HasBegun N.area service.old.opening script.now service.new begun.0 begun.1) }
{
    let sessions = sessions_of(alloc, script)?;
    let reader = boot(service)?;
    match act_main(service, reader, script.acts.items()) {
        Some(main) => Ok((main, sessions)),
        None => Err(NoMemory),
    }
}

/// All sessions are served. If there is none, nothing is asked of the service.
fn serve<'a, N: AreaName + Send + Sync, R: Threads + Wait + Sync>(
    rt: &R,
    alloc: Global,
    service: Service<'a, N>,
    sessions: List<Session>,
) -> Result<(Service<'a, N>, List<Reader>), NoMemory>
    requires few { length sessions ≤ 64 }
    requires clients { AreOfClients service.opening sessions }
    requires fresh { HaveNotEntered service.seat sessions }
    ensures { IfOk result (λ back. IsServed N.area service.entry back.0 sessions back.1) }
{
    if sessions.is_empty() {
        return Ok((service, List::new(alloc)));
    }
    match dispatch(rt, alloc, service, sessions, ROOM, &OpenPace) {
        Ok(
            Dispatched {
                service,
                readers,
                verdicts,
            },
        ) => {
            drop(verdicts);
            Ok((service, readers))
        }
        Err(_) => Err(NoMemory),
    }
}

/// The main actor does its part, then the clients' sessions are served, and the service ends.
fn run_actors<N: AreaName + Send + Sync, R: Threads + Wait + Sync>(
    rt: &R,
    alloc: Global,
    mut service: Service<'_, N>,
    script: &Script,
) -> Result<Ended, NoMemory>
    requires begun { (service.history ≡ []) × (service.seat.out ≡ []) }
    requires domains { length script.now.clients ≡ length service.opening.config.domains }
    requires few { length script.now.clients ≤ 64 }
    requires asks { AsksAreMet script.now }
    requires sets { All IsSetOrMain script.now.acts }
    ensures { IfOk result (λ ended. AreDispatched service.entry.opening script.now ended.finished ended.parts) }
{
    let Ok((main, sessions)) = begin(alloc, &mut service, script) else {
        drop(service);
        return Err(NoMemory);
    };
    let (main, (service, readers)) = both(main, serve(rt, alloc, service, sessions))?;
    let came = all_back(alloc, readers, main, script.clients.items());
    end_with(service, came)
}

/// The run over an area that is new.
fn run_over<N: AreaName + Send + Sync, R: Threads + Wait + Sync>(
    rt: &R,
    alloc: Global,
    area: &Area,
    seat: WriterSeat,
    machine: (Config, Policy),
    script: &Script,
) -> Result<Ended, NoMemory>
    requires config { IsWellFormed machine.0 }
    requires area { (area.now ≡ N.area) × (seat.table ≡ area.now) × (seat.view ≡ begins script.now.words) }
    requires domains { length script.now.clients ≡ length machine.0.domains }
    requires few { length script.now.clients ≤ 64 }
    requires asks { AsksAreMet script.now }
    requires sets { All IsSetOrMain script.now.acts }
    ensures { IfOk result
        (λ ended. AreDispatched (opening_of machine.0 machine.1 script.now.words) script.now ended.finished ended.parts) }
{
    let (config, policy) = machine;
    let writer = AreaWriter::new(area, seat);
    let service = Service::<N>::new(alloc, config, policy, writer)?;
    run_actors(rt, alloc, service, script)
}

/// The run over an area that is made for it and ends with it.
fn run_in_area<R: Threads + Wait + Sync>(
    rt: &R,
    alloc: Global,
    machine: (Config, Policy),
    script: &Script,
) -> Result<Ended, NoMemory>
    requires config { IsWellFormed machine.0 }
    requires domains { length script.now.clients ≡ length machine.0.domains }
    requires few { length script.now.clients ≤ 64 }
    requires words { (64 ≤ script.now.words) × (script.now.words ≤ 1048576) }
    requires asks { AsksAreMet script.now }
    requires sets { All IsSetOrMain script.now.acts }
    ensures { IfOk result
        (λ ended. AreDispatched (opening_of machine.0 machine.1 script.now.words) script.now ended.finished ended.parts) }
{
    let (machine, (area, seat)) = both(machine, open_area(alloc, script.words))?;
    let ended = run_over::<Brand, R>(rt, alloc, &area, seat, machine, script);
    drop(area);
    ended
}

/// Runs a script whose clients only set: takes the boot and the main actor's part in order, and then serves all clients' sets, each
/// client's in its order. Nothing is promised of the order between clients.
///
/// The report is one that the audit of traces returns Yes to. Its history has the main actor's entries before all sets, and its
/// clients have no readings. After the last set the keeper is given the text of the saved pairs, if a property was stored. `Keeper`
/// comes only if the keeper's count of faults rose.
pub fn run_dispatch<R: Threads + Wait + Sync, P: Keeper>(
    rt: &R,
    alloc: Global,
    setup: Setup,
    script: &Script,
    keeper: &mut P,
) -> Result<Raced, RaceRefusal>
    requires config { IsWellFormed setup.config }
    requires domains { length script.now.clients ≡ length setup.config.domains }
    requires words { (64 ≤ script.now.words) × (script.now.words ≤ 1048576) }
    requires asks { AsksAreMet script.now }
    requires sets { All IsSetOrMain script.now.acts }
    ensures dispatched { IfOk result (λ raced. IsDispatched
        (opening_of setup.config setup.policy script.now.words) setup.diagnostics script.now raced.report) }
    ensures seat { IfOk result (λ raced. HasRecorded
        (opening_of setup.config setup.policy script.now.words) raced.report.history raced.report.clients raced.seat.view) }
    ensures kept { let seen = seen_by P.held P.TellsCrash P.moment P.MayLeave in
        KeepsDispatch (opening_of setup.config setup.policy script.now.words) setup.diagnostics script.now result (seen keeper.old)
        (seen keeper.new) }
    ensures cause { Counted (has_failed result) (P.fault_count keeper.old) (P.fault_count keeper.new) }
{
    let Setup {
        config,
        policy,
        diagnostics,
    } = setup;
    let ended = run_in_area(rt, alloc, (config, policy), script);
    leave(alloc, diagnostics, ended, keeper)
}
