//! The sessions' clients enter.

ghost use Rattle.std.specs.Prelude.{◌≡◌, ◌≤◌, [], OnOk, false, length};
ghost use Rattle.prop_dispatch.specs.Clients.{AreOfClients, HaveNotEntered};
ghost use Rattle.prop_dispatch.specs.internal.Serving.{HasEntered, HaveEntered, Served};
ghost use Rattle.property_service.specs.Service.{has_seat};

use crate::seat::Seat;
use crate::session::Session;
use crate::worker::Worker;
use init_base::{ClientId, List, NoMemory};
use property_service::{AreaName, Service};
use std::alloc::Global;

/// The worker before its first item: the clients have entered, unless memory ran out.
pub(crate) fn begun<'a, N: AreaName>(
    alloc: Global,
    mut service: Service<'a, N>,
    sessions: &List<Session>,
) -> Worker<'a, N>
    requires ready { service.spent ≡ false }
    requires clients { AreOfClients service.opening sessions.now }
    requires fresh { HaveNotEntered service.seat sessions.now }
    ensures { Served N.area service.entry sessions.entry.now [] result.failed result.service result.seats.items }
{
    let mut seats = Vec::new(alloc);
    let entered = enter_all(alloc, &mut service, &mut seats, sessions.items());
    Worker {
        service,
        seats,
        failed: entered.is_err(),
    }
}

/// Gives each session's client its reader.
fn enter_all<N: AreaName>(
    alloc: Global,
    service: &mut Service<'_, N>,
    seats: &mut Vec<Seat>,
    sessions: &[Session],
) -> Result<(), NoMemory>
    requires ready { service.old.spent ≡ false }
    requires clients { AreOfClients service.old.opening sessions.now }
    requires fresh { HaveNotEntered service.old.seat sessions.now }
    requires nobody { seats.old.items ≡ [] }
    ensures { OnOk result (HaveEntered N.area service.old sessions.now service.new seats.new.items) }
{
    for session in sessions {
        enter_next(alloc, service, seats, session.who)?;
    }
    Ok(())
}

/// Gives a client its reader.
fn enter_next<N: AreaName>(
    alloc: Global,
    service: &mut Service<'_, N>,
    seats: &mut Vec<Seat>,
    who: ClientId,
) -> Result<(), NoMemory>
    requires known { who.0 ≤ length service.old.opening.config.domains }
    requires once { has_seat service.old.seat who.0 ≡ false }
    ensures { OnOk result (HasEntered N.area service.old service.new who.0 seats.old.items seats.new.items) }
{
    let reader = service.enter(who)?;
    seats.push(Seat {
        reader: Some(reader),
        verdicts: List::new(alloc),
    })?;
    Ok(())
}
