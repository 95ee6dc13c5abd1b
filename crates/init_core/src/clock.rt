//! Ticks of the clock, processes that exit, and files that appear: the inputs of the modelled device.

ghost use Rattle.std.specs.Prelude.{◌≡◌, ◌≢◌, ◌++◌, ◌∷◌, [], OnOk};
ghost use Rattle.init_machine.specs.Changes.{and_then, each};
ghost use Rattle.init_machine.specs.Step as spec;
ghost use Rattle.init_machine.specs.declared.output.Cause.TheVariants as cause;
ghost use Rattle.init_machine.specs.declared.output.Output.TheVariants as output;
ghost use Rattle.machine_parts.specs.Parts.{Does, rules_of, state_of};
ghost use Rattle.init_core.specs.Reaped.{reap_one};

use crate::reaping::{reap, reap_each};
use init_base::{List, NoMemory, Text};
use init_machine::{Cause, FsRefusal, How, Op, Output, PropStore};
use machine_parts::{Parts, operate_each};
use model_kernel::{Reaped, TickRefusal};
use outputs::Outputs;
use std::alloc::Global;

/// The services whose processes have run for as long as their timeouts allow are timed out.
fn time_out<S: PropStore, O: Outputs>(
    alloc: Global,
    parts: &mut Parts<S, O>,
) -> Result<(), NoMemory>
    ensures done { OnOk result
        (Does S.meaning S.told O.Adds parts.old parts.new (spec.time_out (rules_of parts.old) (state_of S.meaning parts.old))) }
    ensures beside { S.Beside parts.old.store parts.new.store }
{
    let places = parts.services.timed_out(alloc, parts.kernel.now())?;
    operate_each(alloc, parts, Op::Timeout, &places)
}

/// The restarting services that are due are started.
fn restart_due<S: PropStore, O: Outputs>(
    alloc: Global,
    parts: &mut Parts<S, O>,
) -> Result<(), NoMemory>
    ensures done { OnOk result
        (Does S.meaning S.told O.Adds parts.old parts.new (spec.restart_due (rules_of parts.old) (state_of S.meaning parts.old))) }
    ensures beside { S.Beside parts.old.store parts.new.store }
{
    let places = parts.services.due(alloc, parts.kernel.now())?;
    operate_each(alloc, parts, Op::Start, &places)
}

/// The processes that have ended are reaped, and then services are timed out.
fn reap_and_time_out<S: PropStore, O: Outputs>(
    alloc: Global,
    parts: &mut Parts<S, O>,
    ended: &List<Reaped>,
) -> Result<(), NoMemory>
    ensures done { OnOk result (Does S.meaning S.told O.Adds parts.old parts.new (and_then
        (each (reap_one (rules_of parts.old)) ended.now (state_of S.meaning parts.old)) (spec.time_out (rules_of parts.old)))) }
    ensures beside { S.Beside parts.old.store parts.new.store }
{
    reap_each(alloc, parts, ended)?;
    if parts.over.is_some() {
        return Ok(());
    }
    time_out(alloc, parts)
}

/// What comes about when the clock has moved: reapings, then time-outs, then restarts, each while the machine isn't over.
fn move_clock<S: PropStore, O: Outputs>(
    alloc: Global,
    parts: &mut Parts<S, O>,
    ended: &List<Reaped>,
) -> Result<(), NoMemory>
    ensures done { OnOk result
        (Does S.meaning S.told O.Adds parts.old parts.new
        (and_then (and_then (each (reap_one (rules_of parts.old)) ended.now (state_of S.meaning parts.old))
        (spec.time_out (rules_of parts.old))) (spec.restart_due (rules_of parts.old)))) }
    ensures beside { S.Beside parts.old.store parts.new.store }
{
    reap_and_time_out(alloc, parts, ended)?;
    if parts.over.is_some() {
        return Ok(());
    }
    restart_due(alloc, parts)
}

/// The clock moves, unless it would pass its last time.
pub fn tick<S: PropStore, O: Outputs>(
    alloc: Global,
    parts: &mut Parts<S, O>,
    ms: u64,
) -> Result<(), NoMemory>
    ensures done { OnOk result
        (Does S.meaning S.told O.Adds parts.old parts.new (spec.tick (rules_of parts.old) ms (state_of S.meaning parts.old))) }
    ensures beside { S.Beside parts.old.store parts.new.store }
{
    match parts.kernel.tick(alloc, ms) {
        Ok(ended) => move_clock(alloc, parts, &ended),
        Err(TickRefusal::TooFar) => parts.outputs.push(Output::TooFar),
        Err(TickRefusal::NoMemory) => Err(NoMemory),
    }
}

/// The process of this name with the least pid exits.
pub fn exit<S: PropStore, O: Outputs>(
    alloc: Global,
    parts: &mut Parts<S, O>,
    name: &Text,
    status: u8,
) -> Result<(), NoMemory>
    ensures done { OnOk result
        (Does S.meaning S.told O.Adds parts.old parts.new (spec.exit (rules_of parts.old) name.now status (state_of S.meaning parts.old))) }
    ensures beside { S.Beside parts.old.store parts.new.store }
{
    match parts.kernel.exit(name.bytes()) {
        Some(pid) => reap(alloc, parts, pid, name, How::Exit(status)),
        None => parts.outputs.push(Output::NoProcess),
    }
}

/// The line of a file that the tree refuses. Want of memory is no refusal.
fn add_refusal<O: Outputs>(kind: FsRefusal, outputs: &mut O) -> Result<(), NoMemory>
    ensures line { OnOk result (O.Adds outputs.old outputs.new (output.Failed (cause.Tree kind) ∷ [])) }
    ensures other { OnOk result (kind ≢ FsRefusal.NoMemory) }
{
    match kind {
        FsRefusal::NoMemory => Err(NoMemory),
        _ => outputs.push(Output::Failed {
            cause: Cause::Tree { kind },
        }),
    }
}

/// A file appears in the tree.
pub fn file<S: PropStore, O: Outputs>(
    alloc: Global,
    parts: &mut Parts<S, O>,
    path: &Text,
    content: &Text,
) -> Result<(), NoMemory>
    ensures done { OnOk result (Does S.meaning S.told O.Adds parts.old parts.new
        (spec.file path.now content.now (state_of S.meaning parts.old))) }
    ensures beside { S.Beside parts.old.store parts.new.store }
{
    match parts.tree.write(alloc, path.bytes(), content.share()?) {
        Ok(()) => parts.outputs.push(Output::Tree {
            path: path.share()?,
        }),
        Err(kind) => add_refusal(kind, &mut parts.outputs),
    }
}
