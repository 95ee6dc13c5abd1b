//! Putting a script together.

ghost use Rattle.std.specs.Prelude.{◌≡◌, ◌≤◌, [], OnOk, IfOk, length};
ghost use Rattle.std.specs.List.{position, position_or_len};
ghost use Rattle.std.specs.Str.{bytes_eq};
ghost use Rattle.script_lang.specs.Building.{built_from, empty_script, with_act, with_statement};
ghost use Rattle.script_lang.specs.Ordering.{first_unfit};
ghost use Rattle.script_lang.specs.Script as spec;

use crate::script::{Act, Client, Script};
use crate::statement::{Said, Statement};
use init_base::{ClientId, List, NoMemory};
use std::alloc::Global;

/// The size of the area where none is declared, in words.
const WORDS: u64 = 65_536;

/// The script of what lines say.
pub fn build(alloc: Global, said: List<Said>) -> Result<Script, NoMemory>
    requires { first_unfit [] said ≡ None }
    ensures { IfOk result (λ script. script ≡ built_from empty_script said) }
{
    let mut script = Script {
        words: WORDS,
        plans: List::new(alloc),
        clients: List::new(alloc),
        acts: List::new(alloc),
        lines: List::new(alloc),
    };
    for said in said.into_vec() {
        add(&mut script, said)?;
    }
    Ok(script)
}

fn add(script: &mut Script, said: Said) -> Result<(), NoMemory>
    requires { length script.old.clients ≤ 64 }
    ensures { OnOk result (script.new ≡ with_statement script.old said.line said.statement) }
{
    let Said { line, statement } = said;
    match statement {
        Statement::Area(words) => script.words = words,
        Statement::Plan(plan) => script.plans.push(plan)?,
        Statement::Client(client) => script.clients.push(client)?,
        Statement::Step(count) => push_act(script, line, Act::Step(count))?,
        Statement::Tick(ms) => push_act(script, line, Act::Tick(ms))?,
        Statement::Exit { name, status } => push_act(script, line, Act::Exit { name, status })?,
        Statement::File { path, content } => push_act(script, line, Act::File { path, content })?,
        Statement::Ask { name, ask } => {
            let who = client_id(script.clients.items(), name.bytes());
            push_act(script, line, Act::Ask { who, ask })?;
        }
    }
    Ok(())
}

fn push_act(script: &mut Script, line: u32, act: Act) -> Result<(), NoMemory>
    ensures { OnOk result (script.new ≡ with_act script.old line act) }
{
    script.acts.push(act)?;
    script.lines.push(line)
}

/// The number of the client with this name, from 1.
fn client_id(clients: &[Client], name: &[u8]) -> ClientId
    requires { length clients.now ≤ 64 }
    ensures { result ≡ spec.client_id clients.now name.now }
{
    ClientId(place_or_len(clients, name) as u32 + 1)
}

fn place_or_len(clients: &[Client], name: &[u8]) -> usize
    ensures within { result ≤ length clients.now }
    ensures place { result ≡ position_or_len (λ client. bytes_eq client.name name.now) clients.now }
{
    place(clients, name).unwrap_or(clients.len())
}

/// The place of the client with this name.
fn place(clients: &[Client], name: &[u8]) -> Option<usize>
    ensures { result ≡ position (λ client. bytes_eq client.name name.now) clients.now }
{
    clients.iter().position(|client| client.name.is(name))
}
