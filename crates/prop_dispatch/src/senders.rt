//! A session pushes its requests.

ghost use Rattle.std.specs.Prelude.{◌≡◌, ◌++◌, ◌∷◌, [], true};
ghost use Rattle.crossbeam_queue.specs.Passes.{view, IsPassOf};
ghost use Rattle.prop_dispatch.specs.internal.Views.{session_view};

use crate::pace::Pace;
use crate::protocol::{Item, Line, Puts, View};
use crossbeam_queue::Pass;
use init_base::List;
use init_machine::Pair;
use std::sync::Wait;
use std::thread;

/// A session on its thread: its number, its pass, and the requests that it has to push.
#[derive(Drop)]
pub(crate) struct Sender {
    pub session: u32,
    pub pass: Pass<Item, View>,
    pub requests: List<Pair>,
}

/// Pushes all requests of a session, in order.
pub(crate) fn push_all<R: Wait, P: Pace>(
    rt: &R,
    line: &Line,
    pace: &P,
    sender: Sender,
) -> Pass<Item, View>
    requires pass { IsPassOf line.now sender.pass }
    requires begun { view sender.pass ≡ session_view sender.session [] }
    ensures pass { IsPassOf line.now result }
    ensures view { view result ≡ session_view sender.session sender.requests }
{
    let Sender {
        session,
        mut pass,
        requests,
    } = sender;
    let mut at = 0u32;
    for request in requests.into_vec() {
        pace.pass(session, at, false);
        push_one(rt, line, &mut pass, Item { session, request });
        pace.pass(session, at, true);
        at = at.saturating_add(1);
    }
    pass
}

/// Pushes a request, and tries again while the queue is full.
fn push_one<R: Wait>(rt: &R, line: &Line, pass: &mut Pass<Item, View>, item: Item)
    requires pass { IsPassOf line.now pass.old }
    requires sends { (view pass.old).sends ≡ true }
    requires own { item.session ≡ (view pass.old).from }
    ensures pass { IsPassOf line.now pass.new }
    ensures view { view pass.new ≡ session_view (view pass.old).from ((view pass.old).put ++ item.request ∷ []) }
{
    let mut item = item;
    for _ in rt.forever() {
        match line.try_push_as::<Puts>(pass, item) {
            Ok(()) => return,
            Err(back) => {
                item = back;
                thread::yield_now();
            }
        }
    }
    unreachable!()
}
