//! The worker pops requests and serves them.

ghost use Rattle.std.specs.Prelude.{◌≡◌, ◌++◌, ◌∷◌, List as Items, []};
ghost use Rattle.crossbeam_queue.specs.Passes.{view, IsPassOf};
ghost use Rattle.prop_dispatch.specs.internal.Rule.{Accounts};
ghost use Rattle.prop_dispatch.specs.internal.Serving.{GoesOn, IsServing};
ghost use Rattle.prop_dispatch.specs.internal.Views.{worker_view};
ghost use Rattle.prop_dispatch.specs.declared.protocol.Item.{Item as Popped};

use crate::protocol::{Item, Line, Takes, View};
use crate::seat::Seat;
use crossbeam_queue::Pass;
use property_service::{AreaName, Service};
use std::sync::Wait;
use std::sync::atomic::{AtomicBool, Ordering};
use std::thread;

/// The worker: its service, what it has of each session, and whether memory ran out. Then it goes on popping, so that no session waits
/// for it, and serves nothing more.
#[derive(Drop)]
pub(crate) struct Worker<'a, N: AreaName> {
    pub service: Service<'a, N>,
    pub seats: Vec<Seat>,
    pub failed: bool,
}

impl<'a, N: AreaName> Worker<'a, N> {
    /// Serves an item, unless memory ran out before.
    pub fn serve(&mut self, item: Item)
        requires { (got : Items Popped) × IsServing N.area got self.old.failed self.old.service self.old.seats.items }
        ensures { (got : Items Popped) → GoesOn N.area got self.old.failed self.old.service self.old.seats.items
            (got ++ item ∷ []) self.new.failed self.new.service self.new.seats.items }
    {
        if self.failed {
            return;
        }
        let place = item.session as usize;
        if place >= self.seats.len() {
            self.failed = true;
            return;
        }
        let seat = &mut self.seats[place];
        let served = seat.serve(&mut self.service, &item.request);
        self.failed = served.is_err();
    }
}

/// Pops and serves until the sessions have ended and the queue seems empty.
pub(crate) fn work<N: AreaName, R: Wait>(
    rt: &R,
    line: &Line,
    ended: &AtomicBool,
    pass: &mut Pass<Item, View>,
    worker: &mut Worker<'_, N>,
)
    requires pass { IsPassOf line.now pass.old }
    requires gets { view pass.old ≡ worker_view (view pass.old).made (view pass.old).got (view pass.old).done }
    requires serves { IsServing N.area (view pass.old).got worker.old.failed worker.old.service worker.old.seats.items }
    ensures pass { IsPassOf line.now pass.new }
    ensures view { view pass.new ≡ worker_view (view pass.old).made (view pass.new).got (view pass.old).done }
    ensures serves { GoesOn N.area (view pass.old).got worker.old.failed worker.old.service worker.old.seats.items
        (view pass.new).got worker.new.failed worker.new.service worker.new.seats.items }
{
    for _ in rt.forever() {
        let last = ended.load(Ordering::SeqCst);
        match line.try_pop_as::<Takes>(pass) {
            Some(item) => worker.serve(item),
            None if last => return,
            None => thread::yield_now(),
        }
    }
    unreachable!()
}

/// Pops and serves what is left.
pub(crate) fn drain<N: AreaName, R: Wait>(
    rt: &R,
    line: &Line,
    pass: &mut Pass<Item, View>,
    worker: &mut Worker<'_, N>,
)
    requires pass { IsPassOf line.now pass.old }
    requires gets { view pass.old ≡ worker_view (view pass.old).made (view pass.old).got (view pass.old).done }
    requires serves { IsServing N.area (view pass.old).got worker.old.failed worker.old.service worker.old.seats.items }
    ensures accounts { Accounts (view pass.new) [] }
    ensures view { view pass.new ≡ worker_view (view pass.old).made (view pass.new).got (view pass.old).done }
    ensures serves { GoesOn N.area (view pass.old).got worker.old.failed worker.old.service worker.old.seats.items
        (view pass.new).got worker.new.failed worker.new.service worker.new.seats.items }
{
    for _ in rt.forever() {
        match line.pop_as::<Takes, R>(rt, pass) {
            Some(item) => worker.serve(item),
            None => return,
        }
    }
    unreachable!()
}
