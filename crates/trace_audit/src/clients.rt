//! The clients that a report shows.

ghost use Rattle.std.specs.Prelude.{◌≡◌, IfOk, map};
ghost use Rattle.trace_audit.specs.Audited as spec;

use init_base::NoMemory;
use init_machine::ClientPart;
use script_lang::Client;
use std::alloc::Global;

/// The clients of parts, in order.
pub fn clients_of(alloc: Global, parts: &[ClientPart]) -> Result<Vec<Client>, NoMemory>
    ensures { IfOk result (λ clients. clients.items ≡ map spec.client_of parts.now) }
{
    let mut clients = Vec::new(alloc);
    for part in parts {
        clients.push(Client {
            name: part.name.share()?,
            domain: part.domain.share()?,
        })?;
    }
    Ok(clients)
}
