//! What init is going to do: the queue of events and actions, and whether a boot was taken.

use action_queue::Queue;
use init_base::{List, NoMemory, Text};
use init_machine::{Action, Command, CommandRef, Event, PropStore};
use outputs::Outputs;
use std::alloc::Global;
use std::marker::Model;

/// The first two events of a boot.
const EARLY_INIT: &[u8] = b"early-init";

const INIT: &[u8] = b"init";

/// The queue. Before a boot was taken no mark waits in it.
#[derive(Drop)]
pub struct Schedule {
    queue: Queue,
    had_boot: bool,
}

impl Model for Schedule {
    ghost use Rattle.std.specs.Prelude.{◌≡◌, false};
    ghost use Rattle.std.specs.List.{list_any};
    ghost use Rattle.init_machine.specs.Taking.{is_mark};
    ghost use Rattle.machine_parts.specs.Schedule.{ScheduleView};

    ghost Value = { ScheduleView };

    ghost view = { λ s. record {
      actions = s.queue.actions;
      events = s.queue.events;
      running = s.queue.running;
      changes = s.queue.changes;
      had_boot = s.had_boot;
    } };

    ghost invariant = { λ s. s.had_boot ≡ false → list_any is_mark s.queue.events ≡ false };
}

impl Schedule {
    ghost use Rattle.std.specs.Prelude.{◌≡◌, ◌++◌, [], false, Some, IfOk, OnOk, IsSome, IsTrue, MatchOption};
    ghost use Rattle.std.specs.List.{list_all};
    ghost use Rattle.action_queue.specs.Queue.{command_at, is_well_formed, IsNext};
    ghost use Rattle.init_machine.specs.Taking.{is_mark};
    ghost use Rattle.machine_parts.specs.Schedule.{booted, first_schedule, schedule_after, taken_in, with_event};

    /// No event waits, and nothing runs.
    pub fn new(alloc: Global, actions: List<Action>) -> Result<Schedule, NoMemory>
        requires { IsTrue (list_all is_well_formed actions) }
        ensures { IfOk result (λ schedule. schedule ≡ first_schedule actions) }
    {
        Ok(Schedule {
            queue: Queue::new(alloc, actions)?,
            had_boot: false,
        })
    }

    /// Adds an event, which is no mark, behind those that wait.
    #[inline(always)]
    pub fn event(&mut self, what: Event) -> Result<(), NoMemory>
        requires { is_mark what ≡ false }
        ensures { OnOk result (self.new ≡ with_event self.old what) }
    {
        self.queue.event(what)
    }

    /// Adds the events of a boot, of which the third has this name, and behind them the mark.
    pub fn boot(&mut self, alloc: Global, last: Text) -> Result<(), NoMemory>
        requires { self.old.had_boot ≡ false }
        ensures { OnOk result (self.new ≡ booted self.old last) }
    {
        self.event(Event::Named(Text::of(alloc, EARLY_INIT)?))?;
        self.event(Event::Named(Text::of(alloc, INIT)?))?;
        self.event(Event::Named(last))?;
        self.queue.event(Event::Mark)?;
        self.had_boot = true;
        Ok(())
    }

    /// Whether a boot was taken.
    pub fn had_boot(&self) -> bool
        ensures { result ≡ self.now.had_boot }
    {
        self.had_boot
    }

    /// Whether changes of properties queue events: since AllProperties was taken.
    pub fn changes(&self) -> bool
        ensures { result ≡ self.now.changes }
    {
        self.queue.changes()
    }

    /// Takes events while no action runs, and then the next command. The lines of the events and of the actions that they
    /// begin are added to the outputs. None where nothing runs then.
    ///
    /// # Errors
    ///
    /// `NoMemory`. The schedule isn't used again then.
    pub fn next<S: PropStore, O: Outputs>(
        &mut self,
        alloc: Global,
        store: &mut S,
        outputs: &mut O,
    ) -> Result<Option<CommandRef>, NoMemory>
        ensures next { IfOk result (λ place. MatchOption place ((taken_in (S.meaning store.old) self.old).running ≡ [])
            (IsNext self.old.actions (taken_in (S.meaning store.old) self.old).running)) }
        ensures schedule { OnOk result (self.new ≡ schedule_after self.old (taken_in (S.meaning store.old) self.old)) }
        ensures lines { OnOk result (O.Adds outputs.old outputs.new ((taken_in (S.meaning store.old) self.old).lines)) }
        ensures same { S.meaning store.new ≡ S.meaning store.old }
        ensures told { S.told store.new ≡ S.told store.old }
        ensures spare { S.spare store.new ≡ S.spare store.old }
        ensures beside { S.Beside store.old store.new }
    {
        // Of a queue that was cut off by want of memory no boot is taken.
        let had_boot = self.had_boot;
        self.had_boot = true;
        let next = self.queue.next(alloc, store, outputs)?;
        self.had_boot = had_boot;
        Ok(next)
    }

    /// The command at a place.
    pub fn command(&self, place: CommandRef) -> &Command
        requires { IsSome (command_at self.now.actions place) }
        ensures { command_at self.now.actions place ≡ Some result.now }
    {
        self.queue.command(place)
    }
}
