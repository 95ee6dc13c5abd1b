//! Which statements fit behind those before them.

ghost use Rattle.std.specs.Prelude.{◌≡◌, IfOk, ◌++◌, ◌∷◌, [], ◌&&◌, not, nat_lt, length, IsTrue, List as Items};
ghost use Rattle.std.specs.List.{list_any};
ghost use Rattle.std.specs.Str.{bytes_eq};
ghost use Rattle.script_lang.specs.Ordering as spec;
ghost use Rattle.script_lang.specs.Script.{fits};
ghost use Rattle.script_lang.specs.Sets as sets_spec;
ghost use Rattle.script_lang.specs.declared.statement.Statement.{Statement as Spoken};

use crate::script::{Ask, Client};
use crate::statement::{Said, Statement};
use init_base::NoMemory;
use std::alloc::Global;
use std::collections::HashSet;
use std::mem;

/// The most clients of a script.
const MOST_CLIENTS: usize = 64;

/// What was seen of the statements so far.
#[derive(Drop)]
pub struct Order<'a> {
    has_area: bool,
    has_act: bool,
    paths: HashSet<&'a [u8]>,
    names: Vec<&'a [u8]>,
}

impl<'a> Order<'a> {
    ghost use Rattle.script_lang.specs.Ordering.{Seen};

    fn new(alloc: Global) -> Order<'a>
        ensures { Seen result [] }
    {
        Order {
            has_area: false,
            has_act: false,
            paths: HashSet::new(alloc),
            names: Vec::new(alloc),
        }
    }

    /// Whether a statement fits behind those before it, to which it is added then.
    fn admits(&mut self, statement: &'a Statement) -> Result<bool, NoMemory>
        ensures answer { IfOk result
            (λ answer. (before : Items Spoken) → Seen self.old before → answer ≡ fits before statement.entry.now) }
        ensures added { IfOk result (λ answer. (before : Items Spoken) → Seen self.old before → IsTrue answer
            → Seen self.new (before ++ statement.entry.now ∷ [])) }
    {
        match statement {
            Statement::Area(_) => Ok(!self.has_act && !mem::replace(&mut self.has_area, true)),
            Statement::Plan(plan) => Ok(!self.has_act && self.paths.insert(plan.path.bytes())?),
            Statement::Client(client) => self.admits_client(client),
            Statement::Ask { name, .. } => {
                self.has_act = true;
                Ok(self.has_name(name.bytes()))
            }
            Statement::Step(_)
            | Statement::Tick(_)
            | Statement::Exit { .. }
            | Statement::File { .. } => {
                self.has_act = true;
                Ok(true)
            }
        }
    }

    fn admits_client(&mut self, client: &'a Client) -> Result<bool, NoMemory>
        ensures answer { IfOk result
            (λ answer. (before : Items Spoken) → Seen self.old before → answer ≡ fits before (Spoken.Client client.entry.now)) }
        ensures added { IfOk result (λ answer. (before : Items Spoken) → Seen self.old before → IsTrue answer
            → Seen self.new (before ++ Spoken.Client client.entry.now ∷ [])) }
    {
        let name = client.name.bytes();
        if !self.has_room_for(name) {
            return Ok(false);
        }
        self.names.push(name)?;
        Ok(true)
    }

    /// Whether a client with this name may be declared.
    fn has_room_for(&self, name: &[u8]) -> bool
        ensures { result ≡ (not self.now.has_act && not (list_any (λ other. bytes_eq other.now name.now) self.now.names.items) && nat_lt
            (length self.now.names.items) 64) }
    {
        !self.has_act && !self.has_name(name) && self.names.len() < MOST_CLIENTS
    }

    /// Whether a client has this name.
    fn has_name(&self, name: &[u8]) -> bool
        ensures { result ≡ list_any (λ other. bytes_eq other.now name.now) self.now.names.items }
    {
        self.names.iter().any(|other| *other == name)
    }
}

/// The line of the first statement that doesn't fit behind those before it.
pub fn first_unfit(alloc: Global, said: &[Said]) -> Result<Option<u32>, NoMemory>
    ensures { IfOk result (λ line. line ≡ spec.first_unfit [] said.now) }
{
    let mut order = Order::new(alloc);
    for said in said {
        if !order.admits(&said.statement)? {
            return Ok(Some(said.line));
        }
    }
    Ok(None)
}

/// The line of the first statement that doesn't fit behind those before it where clients only set.
pub fn first_unfit_of_sets(alloc: Global, said: &[Said]) -> Result<Option<u32>, NoMemory>
    ensures { IfOk result (λ line. line ≡ spec.first_unfit_of_sets [] said.now) }
{
    let mut order = Order::new(alloc);
    for said in said {
        if !order.admits(&said.statement)? || !only_sets(&said.statement) {
            return Ok(Some(said.line));
        }
    }
    Ok(None)
}

/// Whether a statement may stand where clients only set.
fn only_sets(statement: &Statement) -> bool
    ensures { result ≡ sets_spec.only_sets statement.now }
{
    match statement {
        Statement::Ask { ask, .. } => matches!(ask, Ask::Set(_)),
        _ => true,
    }
}
