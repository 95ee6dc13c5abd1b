//! What stands in a script's place.

ghost use Rattle.std.specs.Prelude.{◌≡◌, IfOk};
ghost use Rattle.init_wire.specs.Opening.{sender, wire_script};
ghost use Rattle.script_lang.specs.Laws.{MeetsConditions};

use init_base::{List, NoMemory, Text};
use script_lang::{Client, Script};
use std::alloc::Global;

/// How many words the area has.
const WORDS: u64 = 65_536;

/// A script without acts, whose one client is a shell.
pub fn one_client(alloc: Global) -> Result<Script, NoMemory>
    ensures script { IfOk result (λ script. script ≡ wire_script) }
    ensures conditions { IfOk result MeetsConditions }
{
    let mut clients = List::new(alloc);
    clients.push(sender(alloc)?)?;
    Ok(Script {
        words: WORDS,
        plans: List::new(alloc),
        clients,
        acts: List::new(alloc),
        lines: List::new(alloc),
    })
}

/// The client that sends the messages.
fn sender(alloc: Global) -> Result<Client, NoMemory>
    ensures { IfOk result (λ client. client ≡ sender) }
{
    Ok(Client {
        name: Text::of(alloc, b"u")?,
        domain: Text::of(alloc, b"shell")?,
    })
}
