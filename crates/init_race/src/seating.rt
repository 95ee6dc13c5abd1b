//! The actors get their readers.

ghost use Rattle.std.specs.Prelude.{◌≡◌, ◌≤◌, ◌+◌, ◌==◌, ◌∷◌, ℕ, [], IfOk, OnOk, length, false};
ghost use Rattle.init_machine.specs.History.{inputs_of};
ghost use Rattle.init_race.specs.Seating.{AllSeated, AreSeated, EachSeated, IsBooted};
ghost use Rattle.property_service.specs.Service.{has_seat};

use init_base::{ClientId, NoMemory};
use init_machine::Input;
use property_area::Reader;
use property_service::{AreaName, Service};
use script_lang::Client;
use std::alloc::Global;

/// The main actor's reader, with which the boot was asked first of all.
pub fn boot<N: AreaName>(service: &mut Service<'_, N>) -> Result<Reader, NoMemory>
    requires nobody { (who : ℕ) → has_seat service.old.seat who ≡ false }
    requires empty { service.old.history ≡ [] }
    ensures opening { OnOk result (service.new.opening ≡ service.old.opening) }
    ensures history { OnOk result (inputs_of service.new.history ≡ Input.Boot ∷ []) }
    ensures seats { OnOk result ((who : ℕ) → has_seat service.new.seat who ≡ (0 == who)) }
    ensures reader { IfOk result (λ reader. (reader.table ≡ N.area) × IsBooted service.old.opening reader.view) }
{
    let main = service.enter(ClientId(0))?;
    let (reader, taken) = service.input(main, Input::Boot);
    let Ok(()) = taken else {
        return Err(NoMemory);
    };
    let Some(reader) = reader else {
        return Err(NoMemory);
    };
    Ok(reader)
}

/// The readers of all clients, in order.
pub(crate) fn seat_clients<N: AreaName>(
    alloc: Global,
    service: &mut Service<'_, N>,
    clients: u32,
) -> Result<Vec<Reader>, NoMemory>
    requires nobody { (who : ℕ) → has_seat service.old.seat who ≡ (0 == who) }
    requires known { clients ≤ length service.old.opening.config.domains }
    ensures readers { IfOk result (λ readers. EachSeated N.area service.old.opening 1 readers.items) }
    ensures many { IfOk result (λ readers. length readers.items ≡ clients) }
{
    let mut readers = Vec::new(alloc);
    for place in 0..clients {
        seat_next(service, &mut readers, ClientId(place + 1))?;
    }
    Ok(readers)
}

/// Gives the client behind those that have readers its reader.
fn seat_next<N: AreaName>(
    service: &mut Service<'_, N>,
    readers: &mut Vec<Reader>,
    who: ClientId,
) -> Result<(), NoMemory>
    requires seated { AreSeated N.area service.old.opening service.old readers.old.items }
    requires next { who.0 ≡ length readers.old.items + 1 }
    requires known { who.0 ≤ length service.old.opening.config.domains }
    ensures seated { OnOk result (AreSeated N.area service.old.opening service.new readers.new.items) }
    ensures many { OnOk result (length readers.new.items ≡ who.0) }
{
    let reader = service.enter(who)?;
    readers.push(reader)?;
    Ok(())
}

/// The readers of all clients, and behind them the main actor's.
pub(crate) fn seat_all<N: AreaName>(
    alloc: Global,
    service: &mut Service<'_, N>,
    clients: &[Client],
) -> Result<Vec<Reader>, NoMemory>
    requires nobody { (who : ℕ) → has_seat service.old.seat who ≡ false }
    requires empty { service.old.history ≡ [] }
    requires known { length clients.now ≤ length service.old.opening.config.domains }
    requires few { length clients.now ≤ 64 }
    ensures { IfOk result (λ readers. AllSeated N.area service.old.opening (length clients.now) readers.items) }
{
    let main = boot(service)?;
    let mut readers = seat_clients(alloc, service, clients.len() as u32)?;
    readers.push(main)?;
    Ok(readers)
}
