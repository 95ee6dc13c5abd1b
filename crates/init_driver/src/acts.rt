//! The acts of a script, taken one after another.

ghost use Rattle.std.specs.Prelude.{◌≡◌, ◌≤◌, ◌∷◌, ℕ, [], All, length, map, replicate, OnOk};
ghost use Rattle.std.specs.List.{flat_map};
ghost use Rattle.init_base.specs.Faults.{Counted};
ghost use Rattle.init_core.specs.Core.{IsDeclared};
ghost use Rattle.init_driver.specs.Course.{IsReached, Takes, place_of, told_from, view_of};
ghost use Rattle.init_driver.specs.Keeper.{seen_by};
ghost use Rattle.init_driver.specs.Machine.{told_to};
ghost use Rattle.init_driver.specs.Run.{keeper_failed, sink_failed};
ghost use Rattle.init_driver.specs.Seat.{AreTold};
ghost use Rattle.init_machine.specs.declared.input.Input.TheVariants as Input;
ghost use Rattle.script_lang.specs.Inputs.{act_inputs, ask_inputs};
ghost use Rattle.script_lang.specs.Laws.{IsAskAmong};

use crate::keeping::save;
use crate::refusal::DriveRefusal;
use crate::telling::tell;
use crate::traced::Traced;
use init_base::{ClientId, Keeper, Sink};
use init_machine::{ClientPart, Input};
use property_service::AreaName;
use script_lang::{Act, Ask};
use std::alloc::Global;

/// Takes acts: their inputs one after another, and tells each client what its requests tell at their places.
pub fn take_acts<N: AreaName, P: Keeper, K: Sink>(
    alloc: Global,
    traced: &mut Traced<'_, N>,
    acts: &[Act],
    parts: &mut Vec<ClientPart>,
    keeper: &mut P,
    out: &mut K,
) -> Result<(), DriveRefusal>
    requires reached { IsReached traced.old.core.config traced.old.core.policy traced.old.core.state }
    requires domains { length parts.old.items ≤ length traced.old.core.config.domains }
    requires asks { All (IsAskAmong (length parts.old.items)) acts.now }
    requires heard { AreTold (told_to traced.old.core.readers) 1 parts.old.items }
    ensures takes { let seen = seen_by P.held P.TellsCrash P.moment P.MayLeave in
        Takes (flat_map act_inputs acts.now) (place_of (view_of traced.old) (K.taken out.old) (seen keeper.old))
        (place_of (view_of traced.new) (K.taken out.new) (seen keeper.new)) result }
    ensures told { OnOk result (parts.new.items
        ≡ told_from traced.old.core.config traced.old.core.policy traced.old.core.state acts.now 1 parts.old.items) }
    ensures heard { OnOk result (AreTold (told_to traced.new.core.readers) 1 parts.new.items) }
    ensures keeper { Counted (keeper_failed result) (P.fault_count keeper.old) (P.fault_count keeper.new) }
    ensures sink { Counted (sink_failed result) (K.fault_count out.old) (K.fault_count out.new) }
{
    for act in acts {
        tell(alloc, &mut traced.core, act, parts)?;
        take_act(alloc, traced, act, keeper, out)?;
    }
    Ok(())
}

/// Takes the inputs of an act.
fn take_act<N: AreaName, P: Keeper, K: Sink>(
    alloc: Global,
    traced: &mut Traced<'_, N>,
    act: &Act,
    keeper: &mut P,
    out: &mut K,
) -> Result<(), DriveRefusal>
    requires reached { IsReached traced.old.core.config traced.old.core.policy traced.old.core.state }
    requires asked { IsAskAmong (length traced.old.core.config.domains) act.now }
    ensures takes { let seen = seen_by P.held P.TellsCrash P.moment P.MayLeave in
        Takes (act_inputs act.now) (place_of (view_of traced.old) (K.taken out.old) (seen keeper.old))
        (place_of (view_of traced.new) (K.taken out.new) (seen keeper.new)) result }
    ensures still { OnOk result ((who : ℕ) → told_to traced.new.core.readers who ≡ told_to traced.old.core.readers who) }
    ensures keeper { Counted (keeper_failed result) (P.fault_count keeper.old) (P.fault_count keeper.new) }
    ensures sink { Counted (sink_failed result) (K.fault_count out.old) (K.fault_count out.new) }
{
    match act {
        Act::Step(count) => take_steps(alloc, traced, *count, keeper, out),
        Act::Tick(ms) => take(alloc, traced, &Input::Tick { ms: *ms }, keeper, out),
        Act::Exit { name, status } => {
            let input = Input::Exit {
                name: name.share()?,
                status: *status,
            };
            take(alloc, traced, &input, keeper, out)
        }
        Act::File { path, content } => {
            let input = Input::File {
                path: path.share()?,
                content: content.share()?,
            };
            take(alloc, traced, &input, keeper, out)
        }
        Act::Ask { who, ask } => take_ask(alloc, traced, *who, ask, keeper, out),
    }
}

/// Takes the input of a request, if it has one.
fn take_ask<N: AreaName, P: Keeper, K: Sink>(
    alloc: Global,
    traced: &mut Traced<'_, N>,
    who: ClientId,
    ask: &Ask,
    keeper: &mut P,
    out: &mut K,
) -> Result<(), DriveRefusal>
    requires reached { IsReached traced.old.core.config traced.old.core.policy traced.old.core.state }
    requires from { 1 ≤ who.0 }
    requires to { who.0 ≤ length traced.old.core.config.domains }
    ensures takes { let seen = seen_by P.held P.TellsCrash P.moment P.MayLeave in
        Takes (ask_inputs who ask.now) (place_of (view_of traced.old) (K.taken out.old) (seen keeper.old))
        (place_of (view_of traced.new) (K.taken out.new) (seen keeper.new)) result }
    ensures still { OnOk result ((who : ℕ) → told_to traced.new.core.readers who ≡ told_to traced.old.core.readers who) }
    ensures keeper { Counted (keeper_failed result) (P.fault_count keeper.old) (P.fault_count keeper.new) }
    ensures sink { Counted (sink_failed result) (K.fault_count out.old) (K.fault_count out.new) }
{
    let Ask::Set(pair) = ask else {
        return Ok(());
    };
    let input = Input::Set {
        who,
        name: pair.name.share()?,
        value: pair.value.share()?,
    };
    take(alloc, traced, &input, keeper, out)
}

/// Takes so many times the next event or command.
fn take_steps<N: AreaName, P: Keeper, K: Sink>(
    alloc: Global,
    traced: &mut Traced<'_, N>,
    count: u32,
    keeper: &mut P,
    out: &mut K,
) -> Result<(), DriveRefusal>
    requires { IsReached traced.old.core.config traced.old.core.policy traced.old.core.state }
    ensures takes { let seen = seen_by P.held P.TellsCrash P.moment P.MayLeave in
        Takes (replicate count Input.Next) (place_of (view_of traced.old) (K.taken out.old) (seen keeper.old))
        (place_of (view_of traced.new) (K.taken out.new) (seen keeper.new)) result }
    ensures still { OnOk result ((who : ℕ) → told_to traced.new.core.readers who ≡ told_to traced.old.core.readers who) }
    ensures keeper { Counted (keeper_failed result) (P.fault_count keeper.old) (P.fault_count keeper.new) }
    ensures sink { Counted (sink_failed result) (K.fault_count out.old) (K.fault_count out.new) }
{
    for _ in 0..count {
        take(alloc, traced, &Input::Next, keeper, out)?;
    }
    Ok(())
}

/// Takes an input: its entry is told to the printer, the keeper is given the text of the saved pairs where the entry stores a
/// property, and then the entry may be written.
pub fn take<N: AreaName, P: Keeper, K: Sink>(
    alloc: Global,
    traced: &mut Traced<'_, N>,
    input: &Input,
    keeper: &mut P,
    out: &mut K,
) -> Result<(), DriveRefusal>
    requires reached { IsReached traced.old.core.config traced.old.core.policy traced.old.core.state }
    requires declared { IsDeclared traced.old.core.config input.now }
    ensures takes { let seen = seen_by P.held P.TellsCrash P.moment P.MayLeave in
        Takes (input.now ∷ []) (place_of (view_of traced.old) (K.taken out.old) (seen keeper.old))
        (place_of (view_of traced.new) (K.taken out.new) (seen keeper.new)) result }
    ensures still { OnOk result ((who : ℕ) → told_to traced.new.core.readers who ≡ told_to traced.old.core.readers who) }
    ensures keeper { Counted (keeper_failed result) (P.fault_count keeper.old) (P.fault_count keeper.new) }
    ensures sink { Counted (sink_failed result) (K.fault_count out.old) (K.fault_count out.new) }
{
    traced.take(input)?;
    save(alloc, traced, keeper, out)?;
    traced.end_entry(out)
}
