//! Commands that are done at once: sets of properties, events, the environment, and those without effect.

ghost use Rattle.std.specs.Prelude.{◌≡◌, ◌++◌, ◌∷◌, [], IfOk, OnOk, None};
ghost use Rattle.init_machine.specs.Changes.{change, nothing};
ghost use Rattle.init_machine.specs.Effect.{by_answer};
ghost use Rattle.init_machine.specs.Effect as effect_spec;
ghost use Rattle.init_machine.specs.Services as services_spec;
ghost use Rattle.machine_parts.specs.Parts.{Does, rules_of, state_of};

use init_base::{NoMemory, Text};
use init_machine::{Cause, Done, Event, Output, PropStore};
use machine_parts::{Parts, set_by};
use outputs::Outputs;
use std::alloc::Global;

/// Init's own set of a property, of any name.
pub fn set_property<S: PropStore, O: Outputs>(
    alloc: Global,
    parts: &mut Parts<S, O>,
    name: &Text,
    value: &Text,
) -> Result<Done, NoMemory>
    ensures ending { IfOk result (λ ending. ending
        ≡ (by_answer (services_spec.set_by (rules_of parts.old) None name.now value.now (state_of S.meaning parts.old))).ending) }
    ensures did { OnOk result (Does S.meaning S.told O.Adds parts.old parts.new
        (by_answer (services_spec.set_by (rules_of parts.old) None name.now value.now (state_of S.meaning parts.old))).did) }
    ensures beside { S.Beside parts.old.store parts.new.store }
{
    match set_by(alloc, parts, None, name, value)? {
        None => Ok(Done::Ok),
        Some(refusal) => Ok(Done::Failed(Cause::Set { refusal })),
    }
}

/// Queues an event.
pub fn trigger<S: PropStore, O: Outputs>(
    parts: &mut Parts<S, O>,
    event: Text,
) -> Result<Done, NoMemory>
    ensures ending { IfOk result (λ ending. ending ≡ Done.Ok) }
    ensures did { let s = state_of S.meaning parts.old in
        OnOk result (Does S.meaning S.told O.Adds parts.old parts.new
        (nothing (record s { events = s.events ++ Event.Named event ∷ [] }))) }
    ensures beside { S.Beside parts.old.store parts.new.store }
{
    parts.queue.event(Event::Named(event))?;
    Ok(Done::Ok)
}

/// Gives a variable of the environment a value.
pub fn export<S: PropStore, O: Outputs>(
    parts: &mut Parts<S, O>,
    name: Text,
    value: Text,
) -> Result<Done, NoMemory>
    ensures ending { IfOk result (λ ending. ending ≡ Done.Ok) }
    ensures did { OnOk result (Does S.meaning S.told O.Adds parts.old parts.new
        (effect_spec.export name value (state_of S.meaning parts.old))) }
    ensures beside { S.Beside parts.old.store parts.new.store }
{
    parts.environment.set(&name, &value)?;
    parts.outputs.push(Output::Env { name, value })?;
    Ok(Done::Ok)
}

/// A command without effect is noted.
pub fn note<S: PropStore, O: Outputs>(parts: &mut Parts<S, O>) -> Result<Done, NoMemory>
    ensures ending { IfOk result (λ ending. ending ≡ Done.Ok) }
    ensures did { OnOk result (Does S.meaning S.told O.Adds parts.old parts.new
        (change (state_of S.meaning parts.old) (Output.Noted ∷ []))) }
    ensures beside { S.Beside parts.old.store parts.new.store }
{
    parts.outputs.push(Output::Noted)?;
    Ok(Done::Ok)
}
