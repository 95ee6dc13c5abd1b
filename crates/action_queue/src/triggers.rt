//! The actions, and which of them an event may trigger.

ghost use Rattle.std.specs.Prelude.{◌≡◌, ◌<◌, IfOk, IsTrue, length, slice_get, Some};
ghost use Rattle.std.specs.Option.{option_copied};
ghost use Rattle.std.specs.List.{list_all};
ghost use Rattle.action_queue.specs.Index.{may_trigger};
ghost use Rattle.action_queue.specs.Pending.{places_from};
ghost use Rattle.action_queue.specs.Queue.{is_well_formed};

use crate::by_name::find;
use crate::index::{Index, make_index};
use init_base::{List, NoMemory};
use init_machine::{Action, Event};
use std::alloc::Global;
use std::marker::Model;

/// Well-formed actions, with an index by what may trigger them.
#[derive(Drop)]
pub struct Triggers {
    actions: List<Action>,
    index: Index,
}

impl Model for Triggers {
    ghost use Rattle.std.specs.Prelude.{List as Items};
    ghost use Rattle.init_machine.specs.declared.action.Action.{Action};

    ghost Value = { Items Action };

    ghost use Rattle.action_queue.specs.Triggers.{IsIndexed};

    ghost view = { λ t. t.actions };

    ghost invariant = { IsIndexed };
}

impl Triggers {
    pub fn new(alloc: Global, actions: List<Action>) -> Result<Triggers, NoMemory>
        requires { IsTrue (list_all is_well_formed actions) }
        ensures { IfOk result (λ t. t ≡ actions) }
    {
        let index = make_index(alloc, &actions)?;
        Ok(Triggers { actions, index })
    }

    /// The action at a place.
    pub fn at(&self, at: usize) -> &Action
        requires { at < length self.now }
        ensures action { slice_get self.now at ≡ Some result.now }
        ensures well_formed { IsTrue (is_well_formed result.now) }
    {
        &self.actions.items()[at]
    }

    /// The places of the actions that the event may trigger, ascending.
    pub fn candidates(&self, event: &Event) -> &[usize]
        ensures { result.now ≡ places_from 0 (may_trigger event.now) self.now }
    {
        match event {
            Event::Named(name) => find(&self.index.by_event, name.bytes()),
            Event::Change(pair) => find(&self.index.by_property, pair.name.bytes()),
            Event::AllProperties => self.index.without_event.as_slice(),
            Event::Mark => &[],
        }
    }
}
