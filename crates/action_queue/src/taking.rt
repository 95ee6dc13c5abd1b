//! Taking events, where no action runs.

ghost use Rattle.std.specs.Prelude.{◌≡◌, ◌≤◌, ◌++◌, ◌∷◌, [], ◌||◌, true, OnOk};
ghost use Rattle.init_machine.specs.Matches.{matches};
ghost use Rattle.init_machine.specs.Taking.{event_line, is_all_properties};
ghost use Rattle.action_queue.specs.Pending.{IsKept, shown, running_of, are_places, places_from, lines_at, mark_count, one_begun, one_taken};
ghost use Rattle.action_queue.specs.Queue.{value_in, taken_in, with_taken};

use crate::matching::is_triggered;
use crate::pending::Pending;
use crate::running::is_running;
use crate::triggers::Triggers;
use init_base::{List, NoMemory};
use init_machine::{Event, Output, PropStore};
use outputs::Outputs;
use std::alloc::Global;

/// Adds the line of an event that is taken.
fn add_event_line<O: Outputs>(event: &Event, outputs: &mut O) -> Result<(), NoMemory>
    ensures { OnOk result (O.Adds outputs.old outputs.new (event_line event.now)) }
{
    match event {
        Event::Named(name) => outputs.event(name),
        Event::Change(pair) => outputs.change(&pair.name, &pair.value),
        Event::AllProperties => outputs.push(Output::AllProperties),
        Event::Mark => Ok(()),
    }
}

/// Adds the lines of the actions at some places.
fn add_action_lines<O: Outputs>(
    alloc: Global,
    triggers: &Triggers,
    places: &List<usize>,
    outputs: &mut O,
) -> Result<(), NoMemory>
    requires { are_places triggers.now places.now ≡ true }
    ensures { OnOk result (O.Adds outputs.old outputs.new (lines_at triggers.now places.now)) }
{
    for at in places.items() {
        let action = triggers.at(*at);
        outputs.action(&action.file, action.line)?;
    }
    Ok(())
}

/// Whether changes of properties queue events when the event was taken.
fn changes_after(changes: bool, event: &Event) -> bool
    ensures { result ≡ (changes || is_all_properties event.now) }
{
    changes || matches!(event, Event::AllProperties)
}

/// Adds the places of the actions that the event triggers, in their order.
fn begin<S: PropStore>(
    triggers: &Triggers,
    event: &Event,
    begun: &mut List<usize>,
    store: &mut S,
) -> Result<(), NoMemory>
    requires { are_places triggers.now begun.old ≡ true }
    ensures places { are_places triggers.now begun.new ≡ true }
    ensures begun { OnOk result
        (begun.new ≡ begun.old ++ places_from 0 (matches (value_in (S.meaning store.old)) event.now) triggers.now) }
    ensures same { S.meaning store.new ≡ S.meaning store.old }
    ensures told { S.told store.new ≡ S.told store.old }
    ensures spare { S.spare store.new ≡ S.spare store.old }
    ensures beside { S.Beside store.old store.new }
{
    let candidates = triggers.candidates(event);
    for at in candidates {
        if is_triggered(store, event, triggers.at(*at)) {
            begun.push(*at)?;
        }
    }
    Ok(())
}

/// Takes an event that is no mark: its actions begin.
fn begin_event<S: PropStore, O: Outputs>(
    alloc: Global,
    triggers: &Triggers,
    event: &Event,
    pending: &mut Pending,
    store: &mut S,
    outputs: &mut O,
) -> Result<(), NoMemory>
    requires { IsKept triggers.now pending.old }
    ensures kept { IsKept triggers.now pending.new }
    ensures queue { OnOk result (shown triggers.now pending.new ≡ with_taken (shown triggers.now pending.old)
        (one_begun (matches (value_in (S.meaning store.old))) triggers.now event.now pending.old.events)) }
    ensures lines { OnOk result (O.Adds outputs.old outputs.new
        (one_begun (matches (value_in (S.meaning store.old))) triggers.now event.now pending.old.events).lines) }
    ensures same { S.meaning store.new ≡ S.meaning store.old }
    ensures told { S.told store.new ≡ S.told store.old }
    ensures spare { S.spare store.new ≡ S.spare store.old }
    ensures beside { S.Beside store.old store.new }
{
    pending.begun.truncate(0);
    pending.first = 0;
    pending.command = 0;
    begin(triggers, event, &mut pending.begun, store)?;
    pending.changes = changes_after(pending.changes, event);
    add_event_line(event, outputs)?;
    add_action_lines(alloc, triggers, &pending.begun, outputs)?;
    Ok(())
}

fn take_event<S: PropStore, O: Outputs>(
    alloc: Global,
    triggers: &Triggers,
    event: &Event,
    pending: &mut Pending,
    store: &mut S,
    outputs: &mut O,
) -> Result<(), NoMemory>
    requires kept { IsKept triggers.now pending.old }
    requires idle { running_of triggers.now pending.old ≡ [] }
    requires lone { mark_count (event.now ∷ pending.old.events) ≤ 1 }
    ensures kept { IsKept triggers.now pending.new }
    ensures queue { OnOk result (shown triggers.now pending.new ≡ with_taken (shown triggers.now pending.old)
        (one_taken (matches (value_in (S.meaning store.old))) triggers.now event.now pending.old.events)) }
    ensures lines { OnOk result (O.Adds outputs.old outputs.new
        (one_taken (matches (value_in (S.meaning store.old))) triggers.now event.now pending.old.events).lines) }
    ensures same { S.meaning store.new ≡ S.meaning store.old }
    ensures told { S.told store.new ≡ S.told store.old }
    ensures spare { S.spare store.new ≡ S.spare store.old }
    ensures beside { S.Beside store.old store.new }
{
    match event {
        Event::Mark => {
            pending.events.push(Event::AllProperties)?;
            Ok(())
        }
        _ => begin_event(alloc, triggers, event, pending, store, outputs),
    }
}

/// Takes events until an action runs or none is left.
pub fn take_events<S: PropStore, O: Outputs>(
    alloc: Global,
    triggers: &Triggers,
    pending: &mut Pending,
    store: &mut S,
    outputs: &mut O,
) -> Result<(), NoMemory>
    requires { IsKept triggers.now pending.old }
    ensures kept { IsKept triggers.now pending.new }
    ensures queue { OnOk result (shown triggers.now pending.new
        ≡ with_taken (shown triggers.now pending.old) (taken_in (S.meaning store.old) (shown triggers.now pending.old))) }
    ensures lines { OnOk result (O.Adds outputs.old outputs.new ((taken_in (S.meaning store.old) (shown triggers.now pending.old)).lines)) }
    ensures same { S.meaning store.new ≡ S.meaning store.old }
    ensures told { S.told store.new ≡ S.told store.old }
    ensures spare { S.spare store.new ≡ S.spare store.old }
    ensures beside { S.Beside store.old store.new }
{
    while !is_running(pending) {
        let Some(event) = pending.events.pop() else {
            return Ok(());
        };
        let taken = take_event(alloc, triggers, &event, pending, store, outputs);
        drop(event);
        taken?;
    }
    Ok(())
}
