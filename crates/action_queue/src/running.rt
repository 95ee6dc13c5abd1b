//! The running actions: which command is next, and the move to the one behind it.

ghost use Rattle.std.specs.Prelude.{◌≡◌, ◌+◌, ◌^◌, ◌<◌, [], nat_lt, length, slice_get, Some, MatchOption};
ghost use Rattle.action_queue.specs.Pending.{IsKept, shown, running_of};
ghost use Rattle.action_queue.specs.Queue.{IsNext, without_first};

use crate::pending::Pending;
use crate::triggers::Triggers;
use init_machine::CommandRef;

/// Whether an action runs.
pub fn is_running(pending: &Pending) -> bool
    ensures answer { result ≡ nat_lt pending.now.first (length pending.now.begun) }
    ensures bound { length pending.now.begun < 2 ^ 64 }
{
    pending.first < pending.begun.len()
}

/// The place of the next command, where an action runs. The command is taken, and an action whose last command that was
/// leaves.
pub fn advance(triggers: &Triggers, pending: &mut Pending) -> Option<CommandRef>
    requires { IsKept triggers.now pending.old }
    ensures kept { IsKept triggers.now pending.new }
    ensures next { MatchOption result (running_of triggers.now pending.old ≡ [])
        (IsNext triggers.now (running_of triggers.now pending.old)) }
    ensures queue { shown triggers.now pending.new
        ≡ record (shown triggers.now pending.old) { running = without_first (running_of triggers.now pending.old) } }
{
    if !is_running(pending) {
        return None;
    }
    let action = pending.begun.items()[pending.first];
    let command = pending.command;
    move_on(triggers, action, pending);
    Some(CommandRef { action, command })
}

/// Moves the first running action on to its next command, or out of the line behind its last one.
fn move_on(triggers: &Triggers, action: usize, pending: &mut Pending)
    requires kept { IsKept triggers.now pending.old }
    requires room { pending.old.first + 1 < 2 ^ 64 }
    requires first { slice_get pending.old.begun pending.old.first ≡ Some action }
    ensures kept { IsKept triggers.now pending.new }
    ensures queue { shown triggers.now pending.new
        ≡ record (shown triggers.now pending.old) { running = without_first (running_of triggers.now pending.old) } }
{
    let count = triggers.at(action).commands.len();
    if pending.command + 1 < count {
        pending.command += 1;
    } else {
        pending.first += 1;
        pending.command = 0;
    }
}
