//! `Queue`: events, and the actions that they begin.

ghost use Rattle.std.specs.Prelude.{◌≡◌, ◌++◌, ◌∷◌, [], false, Some, IfOk, OnOk, OnErr, IsSome, IsTrue, MatchOption};
ghost use Rattle.std.specs.List.{list_all, list_any};
ghost use Rattle.init_machine.specs.Taking.{is_mark};
ghost use Rattle.action_queue.specs.Queue.{QueueView, first_queue, is_well_formed, taken_in, queue_after, command_at, IsNext};

use crate::pending::Pending;
use crate::running::advance;
use crate::taking::take_events;
use crate::triggers::Triggers;
use init_base::{Fifo, List, NoMemory};
use init_machine::{Action, Command, CommandRef, Event, PropStore};
use outputs::Outputs;
use std::alloc::Global;
use std::marker::Model;

/// The events that wait, and the actions that run.
#[derive(Drop)]
pub struct Queue {
    triggers: Triggers,
    pending: Pending,
}

impl Model for Queue {
    ghost use Rattle.action_queue.specs.Queue.{QueueView};

    ghost Value = { QueueView };

    ghost use Rattle.action_queue.specs.Pending.{shown, IsKept};

    ghost view = { λ q. shown q.triggers q.pending };

    ghost invariant = { λ q. IsKept q.triggers q.pending };
}

impl Queue {
    /// A queue of these actions, in which no event waits and nothing runs.
    pub fn new(alloc: Global, actions: List<Action>) -> Result<Queue, NoMemory>
        requires { IsTrue (list_all is_well_formed actions) }
        ensures { IfOk result (λ q. q ≡ first_queue actions) }
    {
        Ok(Queue {
            triggers: Triggers::new(alloc, actions)?,
            pending: Pending {
                events: Fifo::new(alloc),
                begun: List::new(alloc),
                first: 0,
                command: 0,
                changes: false,
            },
        })
    }

    /// Adds an event behind those that wait. Of marks one waits at most.
    #[inline(always)]
    pub fn event(&mut self, what: Event) -> Result<(), NoMemory>
        requires { IsTrue (is_mark what) → list_any is_mark self.old.events ≡ false }
        ensures ok { OnOk result (self.new ≡ record self.old { events = self.old.events ++ what ∷ [] }) }
        ensures err { OnErr result (self.new ≡ self.old) }
    {
        self.pending.events.push(what)?;
        Ok(())
    }

    /// Whether changes of properties queue events: since AllProperties was taken.
    pub fn changes(&self) -> bool
        ensures { result ≡ self.now.changes }
    {
        self.pending.changes
    }

    /// Takes events while no action runs, and then the next command. The lines of the events and of the actions that they
    /// begin are added to the outputs. None where nothing runs then.
    ///
    /// # Errors
    ///
    /// `NoMemory`. The queue isn't used again then.
    pub fn next<S: PropStore, O: Outputs>(
        &mut self,
        alloc: Global,
        store: &mut S,
        outputs: &mut O,
    ) -> Result<Option<CommandRef>, NoMemory>
        ensures next { IfOk result (λ place. MatchOption place ((taken_in (S.meaning store.old) self.old).running ≡ [])
            (IsNext self.old.actions (taken_in (S.meaning store.old) self.old).running)) }
        ensures queue { OnOk result (self.new ≡ queue_after self.old (taken_in (S.meaning store.old) self.old)) }
        ensures lines { OnOk result (O.Adds outputs.old outputs.new ((taken_in (S.meaning store.old) self.old).lines)) }
        ensures same { S.meaning store.new ≡ S.meaning store.old }
        ensures told { S.told store.new ≡ S.told store.old }
        ensures spare { S.spare store.new ≡ S.spare store.old }
        ensures beside { S.Beside store.old store.new }
    {
        take_events(alloc, &self.triggers, &mut self.pending, store, outputs)?;
        Ok(advance(&self.triggers, &mut self.pending))
    }

    /// The command at a place.
    pub fn command(&self, place: CommandRef) -> &Command
        requires { IsSome (command_at self.now.actions place) }
        ensures { command_at self.now.actions place ≡ Some result.now }
    {
        &self.triggers.at(place.action).commands.items()[place.command]
    }
}
