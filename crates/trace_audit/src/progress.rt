//! How far each actor's part of a script has come where a history is gone through: no part is copied.

ghost use Rattle.std.specs.Prelude.{◌≡◌, ◌≢◌, ◌↔◌, ℕ, ◌+◌, ◌<◌, ◌∷◌, [], true, false};
ghost use Rattle.std.specs.Prelude.{IsTrue, IfOk, MatchOption, Some, List as Items, length, slice_get, is_some, replicate};
ghost use Rattle.init_machine.specs.declared.input.Input.{Input as Taken};
ghost use Rattle.init_machine.specs.declared.config.Pair.{Pair as Setting};
ghost use Rattle.script_lang.specs.declared.script.Act.{Act as Done};
ghost use Rattle.std.specs.Option.{option_copied};
ghost use Rattle.trace_audit.specs.Progress.{IsOver, Refuses, Takes, TakesSet, left_of, main_left, single_input};
ghost use Rattle.trace_audit.specs.Progress.{sets_behind, sets_left};
ghost use Rattle.trace_audit.specs.Progress as spec;

use crate::same::Same;
use init_base::{ClientId, NoMemory, Text};
use init_machine::{Input, Pair};
use script_lang::{Act, Ask};
use std::alloc::Global;

/// How far the main actor's part has come.
#[derive(Drop)]
pub struct MainPlace {
    /// The place behind the acts that were begun.
    at: usize,
    /// How many steps are left of the last act that was begun.
    steps: u32,
}

/// How far each actor's part has come.
#[derive(Drop)]
pub struct Progress {
    main: MainPlace,
    /// For each client the place behind the act of its last set.
    places: Vec<usize>,
}

impl MainPlace {
    /// Goes past the acts of clients, and begins a step. What is left stays.
    fn settle(&mut self, acts: &[Act])
        ensures left { main_left acts.now self.new ≡ main_left acts.now self.old }
        ensures settled { self.new.steps ≡ 0
            → (act : Done) → slice_get acts.now self.new.at ≡ Some act → IsTrue (is_some (single_input act)) }
    {
        while self.steps == 0 && self.at < acts.len() {
            match &acts[self.at] {
                Act::Step(count) => self.steps = *count,
                Act::Ask { .. } => {}
                Act::Tick(_) | Act::Exit { .. } | Act::File { .. } => return,
            }
            self.at += 1;
        }
    }

    /// Takes an input of the main actor. Whether it is the next of its part.
    fn take(&mut self, acts: &[Act], input: &Input) -> bool
        ensures taken { IsTrue result → main_left acts.now self.old ≡ input.now ∷ main_left acts.now self.new }
        ensures refused { result ≡ false → (rest : Items Taken) → main_left acts.now self.old ≢ input.now ∷ rest }
    {
        self.settle(acts);
        if self.steps > 0 {
            self.steps -= 1;
            return matches!(input, Input::Next);
        }
        let Some(act) = acts.get(self.at) else {
            return false;
        };
        self.at += 1;
        is_input_of(act, input)
    }

    /// Whether nothing is left.
    fn is_over(&mut self, acts: &[Act]) -> bool
        ensures { IsTrue result ↔ (main_left acts.now self.old ≡ []) }
    {
        self.settle(acts);
        self.steps == 0 && self.at >= acts.len()
    }
}

impl Progress {
    /// Nothing was taken.
    pub fn new(alloc: Global, clients: usize) -> Result<Progress, NoMemory>
        ensures main { IfOk result (λ progress. progress.main ≡ record { at = 0; steps = 0 }) }
        ensures places { IfOk result (λ progress. progress.places.items ≡ replicate clients 0) }
    {
        Ok(Progress {
            main: MainPlace { at: 0, steps: 0 },
            places: vec![in alloc; 0; clients]?,
        })
    }

    /// Takes an input. Whether it is the next of its actor.
    pub fn take(&mut self, acts: &[Act], input: &Input) -> bool
        ensures taken { IsTrue result → Takes (input.now ∷ []) (left_of acts.now self.old) (left_of acts.now self.new) }
        ensures refused { result ≡ false → Refuses input.now (left_of acts.now self.old) }
    {
        match input {
            Input::Set { who, name, value } => {
                take_set(&mut self.places, acts, *who, name, value)
            }
            Input::Boot
            | Input::Next
            | Input::Tick { .. }
            | Input::Exit { .. }
            | Input::File { .. } => self.main.take(acts, input),
        }
    }

    /// Whether nothing is left.
    pub fn is_over(&mut self, acts: &[Act]) -> bool
        ensures over { IsTrue result → IsOver (left_of acts.now self.old) }
        ensures left { result ≡ false → IsOver (left_of acts.now self.old) → ⊥ }
    {
        self.main.is_over(acts) && have_no_set(&self.places, acts)
    }
}

/// Whether an input is that of an act that is neither a step nor a client's.
fn is_input_of(act: &Act, input: &Input) -> bool
    ensures { IsTrue result ↔ (single_input act.now ≡ Some input.now) }
{
    match (act, input) {
        (Act::Tick(ms), Input::Tick { ms: other }) => *ms == *other,
        (
            Act::Exit { name, status },
            Input::Exit {
                name: other,
                status: code,
            },
        ) => *status == *code && name.same(other),
        (
            Act::File { path, content },
            Input::File {
                path: other,
                content: text,
            },
        ) => path.same(other) && content.same(text),
        _ => false,
    }
}

/// What an act of the client with this number sets.
fn set_of(act: &Act, who: usize) -> Option<&Pair>
    ensures { option_copied result ≡ spec.set_of who act.now }
{
    match act {
        Act::Ask {
            who: other,
            ask: Ask::Set(pair),
        } if other.0 as usize == who => Some(pair),
        _ => None,
    }
}

/// The next set of the client with this number, from a place on: the place of its act, and the pair.
fn next_set(acts: &[Act], who: usize, from: usize) -> Option<(usize, &Pair)>
    ensures { MatchOption result (sets_behind acts.now who (Some from) ≡ [])
        (λ next. (next.0 < length acts.now)
        × (sets_behind acts.now who (Some from) ≡ next.1.now ∷ sets_behind acts.now who (Some (next.0 + 1)))) }
{
    for at in from..acts.len() {
        if let Some(pair) = set_of(&acts[at], who) {
            return Some((at, pair));
        }
    }
    None
}

/// Takes a set of a client. Whether it is the next of its part.
fn take_set(places: &mut Vec<usize>, acts: &[Act], who: ClientId, name: &Text, value: &Text) -> bool
    ensures taken { IsTrue result
        → TakesSet acts.now places.old.items places.new.items who.0 (record { name = name.now; value = value.now }) }
    ensures refused { result ≡ false → (rest : Items Setting)
        → sets_left acts.now places.old.items who.0 ≢ record { name = name.now; value = value.now } ∷ rest }
{
    let number = who.0 as usize;
    let Some(index) = number.checked_sub(1) else {
        return false;
    };
    let Some(from) = places.as_slice().get(index) else {
        return false;
    };
    let Some((at, pair)) = next_set(acts, number, *from) else {
        return false;
    };
    if !pair.name.same(name) || !pair.value.same(value) {
        return false;
    }
    places[index] = at + 1;
    true
}

/// Whether no client has a set left.
fn have_no_set(places: &Vec<usize>, acts: &[Act]) -> bool
    ensures all { IsTrue result → (who : ℕ) → sets_left acts.now places.now.items who ≡ [] }
    ensures some { result ≡ false → ((who : ℕ) → sets_left acts.now places.now.items who ≡ []) → ⊥ }
{
    for (index, from) in places.iter().enumerate() {
        if next_set(acts, index + 1, *from).is_some() {
            return false;
        }
    }
    true
}
