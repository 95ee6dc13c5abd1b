//! The passes of sessions: each gets one, pushes with it, and gives it back.

ghost use Rattle.std.specs.Prelude.{◌≡◌, ◌≤◌, ◌<◌, ◌+◌, ◌++◌, ◌∷◌, List as Items, [], All, IfOk, OnOk, length};
ghost use Rattle.crossbeam_queue.specs.Passes.{view, IsPassOf};
ghost use Rattle.prop_dispatch.specs.internal.Passing.{EachFrom, EachPushed, EachSeated, HasPushed, MayPush, puts_of};
ghost use Rattle.prop_dispatch.specs.internal.Views.{worker_view};
ghost use Rattle.prop_dispatch.specs.declared.session.Session.{Session as Asking};

use crate::pace::Pace;
use crate::protocol::{Item, Leaves, Line, Seats, View};
use crate::senders::{Sender, push_all};
use crate::session::Session;
use crossbeam_queue::Pass;
use init_base::{List, NoMemory};
use std::alloc::Global;
use std::snapshot::Snapshot;
use std::sync::Wait;
use std::sync::atomic::{AtomicBool, Ordering};
use std::thread;
use std::thread::{Promise, Threads};

/// Gives each session its pass.
pub(crate) fn seat_all(
    alloc: Global,
    line: &Line,
    pass: &mut Pass<Item, View>,
    sessions: List<Session>,
) -> Result<Vec<Sender>, NoMemory>
    requires few { length sessions ≤ 64 }
    requires pass { IsPassOf line.now pass.old }
    requires begun { view pass.old ≡ worker_view 0 [] [] }
    ensures pass { IsPassOf line.now pass.new }
    ensures begun { IfOk result (λ senders. view pass.new ≡ worker_view (length senders.items) [] []) }
    ensures senders { IfOk result (λ senders. EachSeated line.now 0 sessions senders.items) }
{
    let mut senders = Vec::new(alloc);
    for session in sessions.into_vec() {
        seat_next(line, pass, &mut senders, session)?;
    }
    Ok(senders)
}

/// Gives the next session its pass.
fn seat_next(
    line: &Line,
    pass: &mut Pass<Item, View>,
    senders: &mut Vec<Sender>,
    session: Session,
) -> Result<(), NoMemory>
    requires few { length senders.old.items < 64 }
    requires pass { IsPassOf line.now pass.old }
    requires begun { view pass.old ≡ worker_view (length senders.old.items) [] [] }
    ensures pass { IsPassOf line.now pass.new }
    ensures many { OnOk result (length senders.new.items ≡ length senders.old.items + 1) }
    ensures begun { OnOk result (view pass.new ≡ worker_view (length senders.old.items + 1) [] []) }
    ensures sender { OnOk result ((before : Items Asking) → EachSeated line.now 0 before senders.old.items
        → EachSeated line.now 0 (before ++ session ∷ []) senders.new.items) }
{
    let number = senders.len() as u32;
    let theirs = line.another::<Seats>(pass);
    senders.push(Sender {
        session: number,
        pass: theirs,
        requests: session.requests,
    })?;
    Ok(())
}

/// All sessions push what they have, each on a thread of its own if one can be made.
fn push_beside<R: Threads + Wait + Sync, P: Pace>(
    rt: &R,
    line: &Line,
    pace: &P,
    senders: Vec<Sender>,
) -> Result<Vec<Pass<Item, View>>, NoMemory>
    requires { All (MayPush line.now) senders.items }
    ensures { IfOk result (λ passes. EachPushed line.now senders.items passes.items) }
{
    let passes = thread::map_vec(
        rt,
        senders,
        &|sender: Sender| -> Pass<Item, View>
            requires { MayPush line.now sender }
            ensures { HasPushed line.entry.now sender result }
        { push_all(rt, line, pace, sender) },
    )?;
    Ok(passes)
}

/// All sessions push what they have, and then the worker is told that they have ended.
pub(crate) fn push_and_end<R: Threads + Wait + Sync, P: Pace>(
    rt: &R,
    line: &Line,
    pace: &P,
    ended: &AtomicBool,
    senders: Vec<Sender>,
) -> Result<Vec<Pass<Item, View>>, NoMemory>
    requires { All (MayPush line.now) senders.items }
    ensures { IfOk result (λ passes. EachPushed line.now senders.items passes.items) }
{
    let passes = push_beside(rt, line, pace, senders);
    ended.store(true, Ordering::SeqCst);
    passes
}

/// What the sessions' thread promises: all of them have pushed what they had.
#[derive(Drop)]
pub(crate) struct AllPushed {
    pub line: Snapshot<Line>,
    pub senders: Snapshot<Vec<Sender>>,
}

impl Promise<Result<Vec<Pass<Item, View>>, NoMemory>> for AllPushed {
    ghost use Rattle.std.specs.Prelude.{IfOk};
    ghost use Rattle.prop_dispatch.specs.internal.Passing.{EachPushed};

    ghost kept_by = { λ p r. IfOk r (λ passes. EachPushed p.line.value p.senders.value.items passes.items) };
}

/// Takes in the passes of all sessions, which have ended.
pub(crate) fn take_in_all(line: &Line, pass: &mut Pass<Item, View>, passes: Vec<Pass<Item, View>>)
    requires pass { IsPassOf line.now pass.old }
    requires gets { view pass.old ≡ worker_view (view pass.old).made (view pass.old).got [] }
    requires each { EachFrom line.now 0 passes.items }
    ensures pass { IsPassOf line.now pass.new }
    ensures view { view pass.new ≡ worker_view (view pass.old).made (view pass.old).got (puts_of passes.items) }
{
    for theirs in passes {
        line.absorb::<Leaves>(pass, theirs);
    }
}
