//! The sessions one after another, if no thread can be made.

ghost use Rattle.std.specs.Prelude.{◌≤◌, ◌++◌, List as Items, [], length};
ghost use Rattle.prop_dispatch.specs.internal.Serving.{GoesOn, IsServing, Served, ServesAll, items_for};
ghost use Rattle.prop_dispatch.specs.declared.protocol.Item.{Item as Popped};
ghost use Rattle.property_service.specs.Service.{ServiceView};

use crate::pace::Pace;
use crate::protocol::Item;
use crate::session::Session;
use crate::worker::Worker;
use init_base::List;
use init_machine::Pair;
use property_service::AreaName;

/// Serves all sessions, one after another.
pub(crate) fn serve_in_turn<'a, N: AreaName, P: Pace>(
    pace: &P,
    mut worker: Worker<'a, N>,
    sessions: List<Session>,
) -> Worker<'a, N>
    requires few { length sessions ≤ 64 }
    requires serves { (old : ServiceView) × Served N.area old sessions [] worker.failed worker.service worker.seats.items }
    ensures { ServesAll N.area sessions worker.entry.failed worker.entry.service worker.entry.seats.items
        result.failed result.service result.seats.items }
{
    let mut number = 0u32;
    for session in sessions.into_vec() {
        serve_session(pace, &mut worker, number, session.requests);
        number += 1;
    }
    worker
}

/// Serves the requests of a session.
fn serve_session<N: AreaName, P: Pace>(
    pace: &P,
    worker: &mut Worker<'_, N>,
    session: u32,
    requests: List<Pair>,
)
    requires { (got : Items Popped) × IsServing N.area got worker.old.failed worker.old.service worker.old.seats.items }
    ensures { (got : Items Popped) → GoesOn N.area got worker.old.failed worker.old.service worker.old.seats.items
        (got ++ items_for session requests) worker.new.failed worker.new.service worker.new.seats.items }
{
    let mut at = 0u32;
    for request in requests.into_vec() {
        pace.pass(session, at, false);
        worker.serve(Item { session, request });
        pace.pass(session, at, true);
        at = at.saturating_add(1);
    }
}
