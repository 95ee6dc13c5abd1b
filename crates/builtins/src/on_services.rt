//! Commands on services (AOSP, init's README, "Services").

ghost use Rattle.std.specs.Prelude.{◌≡◌, IfOk, OnOk};
ghost use Rattle.init_machine.specs.Effect as effect_spec;
ghost use Rattle.init_machine.specs.Services.{is_of_class, place_of, places_of};
ghost use Rattle.init_machine.specs.Services as services_spec;
ghost use Rattle.machine_parts.specs.Parts.{Does, rules_of, state_of};

use init_base::{NoMemory, Text};
use init_machine::{Cause, Done, Op, PropStore, Waiting};
use machine_parts::{Parts, operate, operate_each};
use outputs::Outputs;
use std::alloc::Global;

/// The same for each service of a class.
pub fn on_class<S: PropStore, O: Outputs>(
    alloc: Global,
    parts: &mut Parts<S, O>,
    op: Op,
    class: &Text,
) -> Result<Done, NoMemory>
    ensures ending { IfOk result (λ ending. ending ≡ Done.Ok) }
    ensures did { OnOk result (Does S.meaning S.told O.Adds parts.old parts.new (services_spec.operate_each (rules_of parts.old) op
        (places_of (rules_of parts.old) (is_of_class class.now)) (state_of S.meaning parts.old))) }
    ensures beside { S.Beside parts.old.store parts.new.store }
{
    let places = parts.services.of_class(alloc, class.bytes())?;
    operate_each(alloc, parts, op, &places)?;
    Ok(Done::Ok)
}

/// An operation on a service. Where its process was to be spawned, the kernel has to have a pid.
pub fn on_service<S: PropStore, O: Outputs>(
    alloc: Global,
    parts: &mut Parts<S, O>,
    op: Op,
    name: Text,
) -> Result<Done, NoMemory>
    ensures ending { IfOk result (λ ending. ending ≡ (effect_spec.on_service (rules_of parts.old) op name
        (place_of (rules_of parts.old) name) (state_of S.meaning parts.old)).ending) }
    ensures did { OnOk result (Does S.meaning S.told O.Adds parts.old parts.new
        (effect_spec.on_service (rules_of parts.old) op name (place_of (rules_of parts.old) name) (state_of S.meaning parts.old)).did) }
    ensures beside { S.Beside parts.old.store parts.new.store }
{
    let Some(at) = parts.services.find(name.bytes()) else {
        return Ok(Done::Failed(Cause::NoSuchService { name }));
    };
    if operate(alloc, parts, at, op)? {
        Ok(Done::Ok)
    } else {
        Ok(Done::Failed(Cause::NoPid))
    }
}

/// Starts a service once, and waits for its process, unless it runs already.
pub fn exec_start<S: PropStore, O: Outputs>(
    alloc: Global,
    parts: &mut Parts<S, O>,
    name: Text,
) -> Result<Done, NoMemory>
    ensures ending { IfOk result (λ ending. ending ≡
        (effect_spec.exec_start (rules_of parts.old) name (place_of (rules_of parts.old) name) (state_of S.meaning parts.old)).ending) }
    ensures did { OnOk result (Does S.meaning S.told O.Adds parts.old parts.new
        (effect_spec.exec_start (rules_of parts.old) name (place_of (rules_of parts.old) name) (state_of S.meaning parts.old)).did) }
    ensures beside { S.Beside parts.old.store parts.new.store }
{
    let Some(at) = parts.services.find(name.bytes()) else {
        return Ok(Done::Failed(Cause::NoSuchService { name }));
    };
    if parts.services.marks(at).pid.is_some() {
        return Ok(Done::Failed(Cause::AlreadyRunning { name }));
    }
    let had_pid = operate(alloc, parts, at, Op::ExecStart)?;
    match parts.services.marks(at).pid {
        Some(pid) if had_pid => Ok(Done::Wait(Waiting::Child(pid))),
        _ => Ok(Done::Failed(Cause::NoPid)),
    }
}
