//! Commands that wait: for a program, for a value of a property, and for a file.

ghost use Rattle.std.specs.Prelude.{◌≡◌, ◌≤◌, IfOk, OnOk};
ghost use Rattle.init_machine.specs.Effect as spec;
ghost use Rattle.machine_parts.specs.Parts.{Does, rules_of, state_of};

use init_base::{Millis, NoMemory, PropName, Text};
use init_machine::{Cause, Done, Output, Pair, PropStore, Waiting, has_value};
use machine_parts::Parts;
use model_kernel::SpawnRefusal;
use outputs::Outputs;
use std::alloc::Global;

/// The name of the process of a program that is run once.
const EXEC: &[u8] = b"*exec";

/// Runs a program once, and waits for it.
pub fn exec<S: PropStore, O: Outputs>(
    alloc: Global,
    parts: &mut Parts<S, O>,
    path: Text,
) -> Result<Done, NoMemory>
    ensures ending { IfOk result (λ ending. ending ≡ (spec.exec (rules_of parts.old) path (state_of S.meaning parts.old)).ending) }
    ensures did { OnOk result
        (Does S.meaning S.told O.Adds parts.old parts.new (spec.exec (rules_of parts.old) path (state_of S.meaning parts.old)).did) }
    ensures beside { S.Beside parts.old.store parts.new.store }
{
    let name = Text::of(alloc, EXEC)?;
    match parts.kernel.spawn(&name, path.bytes()) {
        Ok(pid) => {
            parts.outputs.push(Output::Spawn { pid, name, path })?;
            Ok(Done::Wait(Waiting::Child(pid)))
        }
        Err(SpawnRefusal::NoPid) => {
            parts.outputs.push(Output::NoPid { name })?;
            Ok(Done::Failed(Cause::NoPid))
        }
        Err(SpawnRefusal::NoMemory) => Err(NoMemory),
    }
}

/// Waits for a value of a property, unless it has it already.
pub fn wait_for_property<S: PropStore, O: Outputs>(
    parts: &mut Parts<S, O>,
    name: Text,
    value: Text,
) -> Result<Done, NoMemory>
    ensures ending { IfOk result (λ ending. ending ≡ (spec.wait_for_property name value (state_of S.meaning parts.old)).ending) }
    ensures did { OnOk result
        (Does S.meaning S.told O.Adds parts.old parts.new (spec.wait_for_property name value (state_of S.meaning parts.old)).did) }
    ensures beside { S.Beside parts.old.store parts.new.store }
{
    let Some(legal) = PropName::of(name.bytes()) else {
        return Ok(Done::Failed(Cause::BadArgument { number: 1 }));
    };
    if has_value(&mut parts.store, legal, value.bytes()) {
        Ok(Done::Ok)
    } else {
        Ok(Done::Wait(Waiting::Prop(Pair { name, value })))
    }
}

/// Waits for a file, unless it is there already.
pub fn wait_for_file<S: PropStore, O: Outputs>(
    parts: &mut Parts<S, O>,
    path: Text,
    within: Millis,
) -> Result<Done, NoMemory>
    requires { within.0 ≤ 1000000000 }
    ensures ending { IfOk result (λ ending. ending ≡ (spec.wait_for_file path within (state_of S.meaning parts.old)).ending) }
    ensures did { OnOk result
        (Does S.meaning S.told O.Adds parts.old parts.new (spec.wait_for_file path within (state_of S.meaning parts.old)).did) }
    ensures beside { S.Beside parts.old.store parts.new.store }
{
    if parts.tree.has(path.bytes()) {
        return Ok(Done::Ok);
    }
    let until = Millis(parts.kernel.now().0 + within.0);
    Ok(Done::Wait(Waiting::File { path, until }))
}
