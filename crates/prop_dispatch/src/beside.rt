//! The sessions push and the worker serves, beside each other.

ghost use Rattle.std.specs.Prelude.{◌≡◌, ◌≤◌, ◌<◌, List as Items, [], All, IfOk, length};
ghost use Rattle.crossbeam_queue.specs.Passes.{view, IsPassOf};
ghost use Rattle.prop_dispatch.specs.internal.Passing.{EachPushed, EachSeated, MayPush};
ghost use Rattle.prop_dispatch.specs.internal.Serving.{GoesOn, IsServing, Served, ServesAll};
ghost use Rattle.prop_dispatch.specs.internal.Views.{worker_view};
ghost use Rattle.prop_dispatch.specs.declared.session.Session.{Session as Asking};
ghost use Rattle.property_service.specs.Service.{ServiceView};

use crate::pace::Pace;
use crate::passing::{AllPushed, push_and_end, seat_all, take_in_all};
use crate::protocol::{Item, Line, View};
use crate::senders::Sender;
use crate::session::Session;
use crate::worker::{Worker, drain, work};
use crossbeam_queue::Pass;
use init_base::{List, NoMemory};
use property_service::AreaName;
use std::alloc::Global;
use std::snapshot::Snapshot;
use std::sync::Wait;
use std::sync::atomic::AtomicBool;
use std::thread;
use std::thread::Threads;

/// The sessions push on a thread of their own, and the worker serves on this one, until both have ended. If that thread can't be made,
/// nothing is pushed: the worker would otherwise wait for sessions that don't begin.
fn push_and_work<'a, N: AreaName + Send + Sync, R: Threads + Wait + Sync, P: Pace>(
    rt: &R,
    line: &Line,
    pace: &P,
    pass: Pass<Item, View>,
    worker: Worker<'a, N>,
    senders: Vec<Sender>,
) -> (
    (Pass<Item, View>, Worker<'a, N>),
    Result<Vec<Pass<Item, View>>, NoMemory>,
)
    requires pass { IsPassOf line.now pass }
    requires gets { view pass ≡ worker_view (view pass).made (view pass).got (view pass).done }
    requires serves { IsServing N.area (view pass).got worker.failed worker.service worker.seats.items }
    requires senders { All (MayPush line.now) senders.items }
    ensures pass { IsPassOf line.now result.0.0 }
    ensures view { view result.0.0 ≡ worker_view (view pass).made (view result.0.0).got (view pass).done }
    ensures serves { GoesOn N.area (view pass).got worker.entry.failed worker.entry.service worker.entry.seats.items
        (view result.0.0).got result.0.1.failed result.0.1.service result.0.1.seats.items }
    ensures pushed { IfOk result.1 (λ passes. EachPushed line.now senders.items passes.items) }
{
    let ended = AtomicBool::new(false);
    let ended = &ended;
    thread::scope(
        thread::scope_env(),
        rt,
        move |scope| -> (
            (Pass<Item, View>, Worker<'_, N>),
            Result<Vec<Pass<Item, View>>, NoMemory>,
        )
            requires { IsPassOf line.now pass × (view pass ≡ worker_view (view pass).made (view pass).got (view pass).done)
                × IsServing N.area (view pass).got worker.failed worker.service worker.seats.items
                × All (MayPush line.now) senders.items }
            ensures { IsPassOf line.entry.now result.0.0
                × (view result.0.0 ≡ worker_view (view pass).made (view result.0.0).got (view pass).done)
                × GoesOn N.area (view pass).got worker.entry.failed worker.entry.service worker.entry.seats.items
                (view result.0.0).got result.0.1.failed result.0.1.service result.0.1.seats.items
                × IfOk result.1 (λ passes. EachPushed line.entry.now senders.items passes.items) }
        {
            let pushing = scope.spawn_with(
                AllPushed {
                    line: Snapshot::of(line),
                    senders: Snapshot::of(&senders),
                },
                move || -> Result<Vec<Pass<Item, View>>, NoMemory>
                    requires { All (MayPush line.now) senders.items }
                    ensures { IfOk result (λ passes. EachPushed line.entry.now senders.items passes.items) }
                { push_and_end(rt, line, pace, ended, senders) },
            );
            match pushing {
                Ok(pushing) => {
                    let (mut pass, mut worker) = (pass, worker);
                    work(rt, line, ended, &mut pass, &mut worker);
                    ((pass, worker), pushing.join(rt))
                }
                Err(_) => ((pass, worker), Err(NoMemory)),
            }
        },
    )
}

/// Serves what the sessions push, to the end.
fn serve_all<'a, N: AreaName + Send + Sync, R: Threads + Wait + Sync, P: Pace>(
    rt: &R,
    line: &Line,
    pace: &P,
    pass: Pass<Item, View>,
    worker: Worker<'a, N>,
    senders: Vec<Sender>,
) -> Worker<'a, N>
    requires pass { IsPassOf line.now pass }
    requires begun { view pass ≡ worker_view (length senders.items) [] [] }
    requires seated { (sessions : Items Asking) × EachSeated line.now 0 sessions senders.items }
    requires serves { IsServing N.area [] worker.failed worker.service worker.seats.items }
    ensures { (sessions : Items Asking) → EachSeated line.now 0 sessions senders.items
        → ServesAll N.area sessions worker.entry.failed worker.entry.service worker.entry.seats.items
        result.failed result.service result.seats.items }
{
    let ((mut pass, mut worker), passes) = push_and_work(rt, line, pace, pass, worker, senders);
    match passes {
        Ok(passes) => {
            take_in_all(line, &mut pass, passes);
            drain(rt, line, &mut pass, &mut worker);
            worker
        }
        Err(NoMemory) => {
            worker.failed = true;
            worker
        }
    }
}

/// A queue of so much room, with the worker's pass and what the sessions push with.
fn open_line(
    alloc: Global,
    sessions: List<Session>,
    room: usize,
) -> Result<(Line, Pass<Item, View>, Vec<Sender>), NoMemory>
    requires room { 0 < room }
    requires few { length sessions ≤ 64 }
    ensures pass { IfOk result (λ opened. IsPassOf opened.0 opened.1) }
    ensures begun { IfOk result (λ opened. view opened.1 ≡ worker_view (length opened.2.items) [] []) }
    ensures seated { IfOk result (λ opened. EachSeated opened.0 0 sessions opened.2.items) }
{
    let (line, mut pass) = Line::ruled(alloc, room)?;
    let senders = seat_all(alloc, &line, &mut pass, sessions)?;
    Ok((line, pass, senders))
}

/// Serves all sessions, each on a thread of its own, beside the worker.
pub(crate) fn serve_beside<'a, N: AreaName + Send + Sync, R: Threads + Wait + Sync, P: Pace>(
    rt: &R,
    alloc: Global,
    pace: &P,
    mut worker: Worker<'a, N>,
    sessions: List<Session>,
    room: usize,
) -> Worker<'a, N>
    requires room { 0 < room }
    requires few { length sessions ≤ 64 }
    requires serves { (old : ServiceView) × Served N.area old sessions [] worker.failed worker.service worker.seats.items }
    ensures { ServesAll N.area sessions worker.entry.failed worker.entry.service worker.entry.seats.items
        result.failed result.service result.seats.items }
{
    match open_line(alloc, sessions, room) {
        Ok((line, pass, senders)) => serve_all(rt, &line, pace, pass, worker, senders),
        Err(NoMemory) => {
            worker.failed = true;
            worker
        }
    }
}
