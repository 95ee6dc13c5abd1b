//! The sessions of a script: each client's sets.

ghost use Rattle.std.specs.Prelude.{◌≡◌, ◌≤◌, ◌∷◌, ◌++◌, [], IfOk, OnOk, length};
ghost use Rattle.init_dispatch.specs.internal.Sessions.{AreSessions, sets_among};

use init_base::{ClientId, List, NoMemory};
use init_machine::Pair;
use prop_dispatch::Session;
use script_lang::{Act, Ask, Script};
use std::alloc::Global;

/// A session for each client, in order.
pub(crate) fn sessions_of(alloc: Global, script: &Script) -> Result<List<Session>, NoMemory>
    requires { length script.now.clients ≤ 64 }
    ensures sessions { IfOk result (AreSessions script.now.acts 1) }
    ensures many { IfOk result (λ sessions. length sessions ≡ length script.now.clients) }
{
    let mut sessions = List::new(alloc);
    for place in 0..script.clients.len() as u32 {
        let session = session_of(alloc, script.acts.items(), ClientId(place + 1))?;
        sessions.push(session)?;
    }
    Ok(sessions)
}

/// A client's session.
fn session_of(alloc: Global, acts: &[Act], who: ClientId) -> Result<Session, NoMemory>
    ensures client { IfOk result (λ session. session.who ≡ who) }
    ensures requests { IfOk result (λ session. session.requests ≡ sets_among who.0 acts.now) }
{
    let mut requests = List::new(alloc);
    for act in acts {
        add_set(&mut requests, act, who)?;
    }
    Ok(Session { who, requests })
}

/// Adds the set of an act, if it is one of the client's.
fn add_set(requests: &mut List<Pair>, act: &Act, who: ClientId) -> Result<(), NoMemory>
    ensures { OnOk result (requests.new ≡ requests.old ++ sets_among who.0 (act.now ∷ [])) }
{
    match act {
        Act::Ask {
            who: asker,
            ask: Ask::Set(pair),
        } if asker.0 == who.0 => requests.push(Pair {
            name: pair.name.share()?,
            value: pair.value.share()?,
        }),
        _ => Ok(()),
    }
}
