//! What the actors leave: all readers, and a part of the report for each client.

ghost use Rattle.std.specs.Prelude.{◌≡◌, ◌∷◌, ◌++◌, [], IfOk, map};
ghost use Rattle.init_dispatch.specs.internal.Parts.{silent};

use init_base::{List, NoMemory};
use init_machine::ClientPart;
use property_area::Reader;
use script_lang::Client;
use std::alloc::Global;

/// The clients' readers with the main actor's after them, and the clients' parts, which have no readings.
pub(crate) fn all_back(
    alloc: Global,
    mut readers: List<Reader>,
    main: Reader,
    clients: &[Client],
) -> Result<(List<Reader>, List<ClientPart>), NoMemory>
    ensures readers { IfOk result (λ back. back.0 ≡ readers ++ main ∷ []) }
    ensures parts { IfOk result (λ back. back.1 ≡ map silent clients.now) }
{
    readers.push(main)?;
    let parts = silent_parts(alloc, clients)?;
    Ok((readers, parts))
}

/// A part without readings for each client.
fn silent_parts(alloc: Global, clients: &[Client]) -> Result<List<ClientPart>, NoMemory>
    ensures { IfOk result (λ parts. parts ≡ map silent clients.now) }
{
    let mut parts = List::new(alloc);
    for client in clients {
        parts.push(ClientPart {
            name: client.name.share()?,
            domain: client.domain.share()?,
            readings: List::new(alloc),
        })?;
    }
    Ok(parts)
}
