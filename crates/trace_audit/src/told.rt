//! What a history tells of its sets: the sets in order, and between which of them each set request stands.

ghost use Rattle.std.specs.Prelude.{◌≡◌, ◌+◌, ◌++◌, [], OnOk, IfOk, length};
ghost use Rattle.init_machine.specs.History.{sets_in};
ghost use Rattle.trace_audit.specs.Lists.{bounds_by, request_in};

use crate::sets::Sets;
use init_base::{ClientId, NoMemory, Text};
use init_machine::{Entry, Input, Output};
use std::alloc::Global;

/// How many sets a client has seen at most before an item of its list, and how many after it.
#[derive(Clone, Copy)]
pub struct Bounds {
    pub before: u64,
    pub after: u64,
}

/// A set request of a client.
#[derive(Clone, Copy)]
pub struct Request {
    pub who: ClientId,
    pub bounds: Bounds,
}

/// The sets of a history in order, and its set requests.
#[derive(Drop)]
pub struct Gathered {
    pub sets: Vec<(Text, Text)>,
    pub requests: Vec<Request>,
}

/// What a history tells: its sets, each found by its name, and its set requests.
#[derive(Drop)]
pub struct Told {
    pub sets: Sets,
    requests: Vec<Request>,
}

impl Told {
    /// What a history tells, by what was gathered of it.
    pub fn of(alloc: Global, gathered: Gathered) -> Result<Told, NoMemory>
        ensures sets { IfOk result (λ told. told.sets.pairs.items ≡ gathered.sets.items) }
        ensures requests { IfOk result (λ told. told.requests.items ≡ gathered.requests.items) }
    {
        let Gathered { sets, requests } = gathered;
        Ok(Told {
            sets: Sets::of(alloc, sets)?,
            requests,
        })
    }

    /// Between which sets the set requests of the client with this number stand.
    pub fn bounds_of(&self, alloc: Global, who: usize) -> Result<Vec<Bounds>, NoMemory>
        ensures { IfOk result (λ bounds. bounds.items ≡ bounds_by who self.now.requests.items) }
    {
        let mut bounds = Vec::new(alloc);
        for request in &self.requests {
            if request.who.0 as usize == who {
                bounds.push(request.bounds)?;
            }
        }
        Ok(bounds)
    }
}

impl Gathered {
    /// No set.
    pub fn new(alloc: Global) -> Gathered
        ensures sets { result.sets.items ≡ [] }
        ensures requests { result.requests.items ≡ [] }
    {
        Gathered {
            sets: Vec::new(alloc),
            requests: Vec::new(alloc),
        }
    }

    /// Adds what an entry tells.
    pub fn add(&mut self, entry: &Entry) -> Result<(), NoMemory>
        ensures sets { OnOk result (self.new.sets.items ≡ self.old.sets.items ++ sets_in entry.now.outputs) }
        ensures requests { OnOk result (self.new.requests.items ≡ self.old.requests.items
            ++ request_in entry.now.input (length self.old.sets.items) (length self.old.sets.items + length (sets_in entry.now.outputs))) }
    {
        let before = self.sets.len() as u64;
        add_sets(&mut self.sets, entry.outputs.items())?;
        let after = self.sets.len() as u64;
        if let Input::Set { who, .. } = &entry.input {
            self.requests.push(Request {
                who: *who,
                bounds: Bounds { before, after },
            })?;
        }
        Ok(())
    }
}

/// Adds the sets among outputs.
fn add_sets(sets: &mut Vec<(Text, Text)>, outputs: &[Output]) -> Result<(), NoMemory>
    ensures { OnOk result (sets.new.items ≡ sets.old.items ++ sets_in outputs.now) }
{
    for output in outputs {
        if let Output::Put { name, value, .. } = output {
            sets.push((name.share()?, value.share()?))?;
        }
    }
    Ok(())
}
