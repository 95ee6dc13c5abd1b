//! Running a command.

ghost use Rattle.std.specs.Prelude.{◌≡◌, ◌++◌, ◌∷◌, [], Ok, Err, IfOk, IfSome, IsSome, IsTrue, OnOk};
ghost use Rattle.action_queue.specs.Queue.{command_at};
ghost use Rattle.builtins.specs.Brief.{is_brief};
ghost use Rattle.init_machine.specs.Effect.{effect, effect_by, command_line, ending_line, waiting_by};
ghost use Rattle.init_machine.specs.Effect as spec;
ghost use Rattle.init_machine.specs.Tasks as tasks;
ghost use Rattle.machine_parts.specs.Parts.{Does, rules_of, state_of};

use crate::arguments::{first, second};
use crate::at_once::{set_property, trigger};
use crate::expanding::{expand_args, stand_for_themselves};
use crate::performing::perform;
use crate::task::task_of;
use init_base::{NoMemory, Text};
use init_machine::{Cause, Command, CommandRef, Done, Output, PropStore, Task, Waiting, Word};
use machine_parts::Parts;
use outputs::Outputs;
use std::alloc::Global;

/// Tells the line of a command.
fn add_line<O: Outputs>(command: &Command, outputs: &mut O) -> Result<(), NoMemory>
    ensures { OnOk result (O.Adds outputs.old outputs.new (command_line command.now command.now.args ∷ [])) }
{
    outputs.command(&command.file, command.line, command.word, &command.args)
}

/// The line of a wait.
fn wait_line(what: &Waiting) -> Result<Output, NoMemory>
    ensures { IfOk result (λ line. line ≡ spec.wait_line what.now) }
{
    match what {
        Waiting::Child(pid) => Ok(Output::WaitChild { pid: *pid }),
        Waiting::Prop(awaited) => Ok(Output::WaitProp {
            name: awaited.name.share()?,
            value: awaited.value.share()?,
        }),
        Waiting::File { path, until } => Ok(Output::WaitFile {
            path: path.share()?,
            until: *until,
        }),
    }
}

/// The line behind a command, and what it waits for.
#[inline(always)]
fn end_command<O: Outputs>(
    ending: Done,
    waits: &mut Option<Waiting>,
    outputs: &mut O,
) -> Result<(), NoMemory>
    ensures waits { OnOk result (waits.new ≡ waiting_by ending waits.old) }
    ensures lines { OnOk result (O.Adds outputs.old outputs.new (ending_line ending ∷ [])) }
{
    match ending {
        Done::Ok => outputs.ok(),
        Done::Failed(cause) => outputs.push(Output::Failed { cause }),
        Done::Wait(what) => {
            outputs.push(wait_line(&what)?)?;
            *waits = Some(what);
            Ok(())
        }
    }
}

/// Does what a task says, and tells how it ended.
fn finish<S: PropStore, O: Outputs>(
    alloc: Global,
    parts: &mut Parts<S, O>,
    task: Task,
) -> Result<(), NoMemory>
    requires { IsTrue (is_brief task) }
    ensures done { OnOk result (Does S.meaning S.told O.Adds parts.old parts.new
        (spec.end_command (spec.perform (rules_of parts.old) task (state_of S.meaning parts.old)))) }
    ensures beside { S.Beside parts.old.store parts.new.store }
{
    let ending = perform(alloc, parts, task)?;
    end_command(ending, &mut parts.waits, &mut parts.outputs)
}

/// Sets a property, and tells how that ended.
#[inline(always)]
#[tactic(auto, unfolding(init_machine::specs::Effect::perform))]
fn finish_set<S: PropStore, O: Outputs>(
    alloc: Global,
    parts: &mut Parts<S, O>,
    name: Text,
    value: Text,
) -> Result<(), NoMemory>
    ensures done { OnOk result (Does S.meaning S.told O.Adds parts.old parts.new
        (spec.end_command (spec.perform (rules_of parts.old) (Task.SetProperty name value) (state_of S.meaning parts.old)))) }
    ensures beside { S.Beside parts.old.store parts.new.store }
{
    let ending = set_property(alloc, parts, &name, &value);
    drop(name);
    drop(value);
    end_command(ending?, &mut parts.waits, &mut parts.outputs)
}

/// Queues an event, and tells how that ended: one without a name is a wrong argument.
#[inline(always)]
fn finish_trigger<S: PropStore, O: Outputs>(
    parts: &mut Parts<S, O>,
    event: Text,
) -> Result<(), NoMemory>
    ensures done { OnOk result (Does S.meaning S.told O.Adds parts.old parts.new
        (spec.end_command (spec.perform (rules_of parts.old) (tasks.trigger event) (state_of S.meaning parts.old)))) }
    ensures beside { S.Beside parts.old.store parts.new.store }
{
    let ending = trigger_named(parts, event)?;
    end_command(ending, &mut parts.waits, &mut parts.outputs)
}

/// Queues an event, if it has a name.
#[inline(always)]
#[tactic(auto, unfolding(init_machine::specs::Effect::perform))]
fn trigger_named<S: PropStore, O: Outputs>(
    parts: &mut Parts<S, O>,
    event: Text,
) -> Result<Done, NoMemory>
    ensures ending { IfOk result (λ ending. ending
        ≡ (spec.perform (rules_of parts.old) (tasks.trigger event) (state_of S.meaning parts.old)).ending) }
    ensures did { OnOk result (Does S.meaning S.told O.Adds parts.old parts.new
        (spec.perform (rules_of parts.old) (tasks.trigger event) (state_of S.meaning parts.old)).did) }
    ensures beside { S.Beside parts.old.store parts.new.store }
{
    if event.is_empty() {
        return Ok(Done::Failed(Cause::BadArgument { number: 1 }));
    }
    trigger(parts, event)
}

/// Tells the line of a command whose arguments are expanded, does what it asks for, and tells how it ended.
#[inline(never)]
fn run_expanded<S: PropStore, O: Outputs>(
    alloc: Global,
    parts: &mut Parts<S, O>,
    command: Command,
) -> Result<(), NoMemory>
    ensures done { OnOk result (Does S.meaning S.told O.Adds parts.old parts.new
        (effect_by (rules_of parts.old) command (Ok command.args) (state_of S.meaning parts.old))) }
    ensures beside { S.Beside parts.old.store parts.new.store }
{
    let task = task_of(command.word, command.args.items())?;
    add_line(&command, &mut parts.outputs)?;
    finish(alloc, parts, task)
}

/// Tells the line of a command, and why its arguments could not be expanded.
fn refuse<S: PropStore, O: Outputs>(
    parts: &mut Parts<S, O>,
    command: Command,
    why: Cause,
) -> Result<(), NoMemory>
    ensures done { OnOk result (Does S.meaning S.told O.Adds parts.old parts.new
        (effect_by (rules_of parts.old) command (Err why) (state_of S.meaning parts.old))) }
    ensures beside { S.Beside parts.old.store parts.new.store }
{
    add_line(&command, &mut parts.outputs)?;
    end_command(Done::Failed(why), &mut parts.waits, &mut parts.outputs)
}

/// Runs a command: its line, what it does, and how it ended. Its arguments are expanded first.
pub fn run<S: PropStore, O: Outputs>(
    alloc: Global,
    parts: &mut Parts<S, O>,
    mut command: Command,
) -> Result<(), NoMemory>
    ensures done { OnOk result
        (Does S.meaning S.told O.Adds parts.old parts.new (effect (rules_of parts.old) command (state_of S.meaning parts.old))) }
    ensures beside { S.Beside parts.old.store parts.new.store }
{
    match expand_args(alloc, &mut parts.store, &mut command.args)? {
        Ok(()) => run_expanded(alloc, parts, command),
        Err(why) => refuse(parts, command, why),
    }
}

/// Runs the command at a place of the actions. One whose arguments stand for themselves is only read, and the two words that boots
/// have most are done without a task.
pub fn run_queued<S: PropStore, O: Outputs>(
    alloc: Global,
    parts: &mut Parts<S, O>,
    place: CommandRef,
) -> Result<(), NoMemory>
    requires { IsSome (command_at parts.old.queue.actions place) }
    ensures done { IfSome (command_at parts.old.queue.actions place) (λ command. OnOk result
        (Does S.meaning S.told O.Adds parts.old parts.new (effect (rules_of parts.old) command (state_of S.meaning parts.old)))) }
    ensures beside { S.Beside parts.old.store parts.new.store }
{
    let command = parts.queue.command(place);
    let args = command.args.items();
    if !stand_for_themselves(args) {
        let command = command.share()?;
        return run(alloc, parts, command);
    }
    add_line(command, &mut parts.outputs)?;
    match command.word {
        Word::Setprop => {
            let name = first(args)?;
            let value = second(args)?;
            finish_set(alloc, parts, name, value)
        }
        Word::Trigger => {
            let event = first(args)?;
            finish_trigger(parts, event)
        }
        word => {
            let task = task_of(word, args)?;
            finish(alloc, parts, task)
        }
    }
}
