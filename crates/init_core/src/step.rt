//! The step: what one input does to the parts.

ghost use Rattle.std.specs.Prelude.{◌≡◌, OnOk};
ghost use Rattle.init_machine.specs.Step as step_spec;
ghost use Rattle.machine_parts.specs.Parts.{Does, rules_of, state_of};
ghost use Rattle.init_core.specs.Core.{config_of, IsDeclared};
ghost use Rattle.init_core.specs.internal.Down as down_spec;

use crate::boot::boot;
use crate::client::set_of_client;
use crate::clock::{exit, file, tick};
use crate::next::next;
use crate::waiting::settle;
use init_base::{List, NoMemory, Text};
use init_machine::{Input, Output, Pair, PropStore};
use machine_parts::Parts;
use outputs::Outputs;
use std::alloc::Global;

/// Whether the machine is over, and the input asks for that. A boot and a set don't.
fn is_down(over: &Option<Text>, input: &Input) -> bool
    ensures { result ≡ down_spec.is_down over.now input.now }
{
    over.is_some() && !matches!(input, Input::Boot | Input::Set { .. })
}

/// What an input does before it is settled. Most inputs ask first whether the machine is over.
fn respond<S: PropStore, O: Outputs>(
    alloc: Global,
    pairs: &List<Pair>,
    domains: &List<Text>,
    parts: &mut Parts<S, O>,
    input: &Input,
) -> Result<(), NoMemory>
    requires { IsDeclared (config_of pairs.now domains.now parts.old) input.now }
    ensures done { OnOk result (Does S.meaning S.told O.Adds parts.old parts.new
        (step_spec.respond (config_of pairs.now domains.now parts.old) (rules_of parts.old) input.now (state_of S.meaning parts.old))) }
    ensures beside { S.Beside parts.old.store parts.new.store }
{
    if is_down(&parts.over, input) {
        return parts.outputs.push(Output::Down);
    }
    match input {
        Input::Boot => boot(alloc, parts, pairs),
        Input::Next => next(alloc, parts),
        Input::Tick { ms } => tick(alloc, parts, *ms),
        Input::Exit { name, status } => exit(alloc, parts, name, *status),
        Input::File { path, content } => file(alloc, parts, path, content),
        Input::Set { who, name, value } => {
            set_of_client(alloc, parts, domains, *who, name, value)
        }
    }
}

/// Takes one input: its outputs are added.
pub fn step<S: PropStore, O: Outputs>(
    alloc: Global,
    pairs: &List<Pair>,
    domains: &List<Text>,
    parts: &mut Parts<S, O>,
    input: &Input,
) -> Result<(), NoMemory>
    requires { IsDeclared (config_of pairs.now domains.now parts.old) input.now }
    ensures done { OnOk result (Does S.meaning S.told O.Adds parts.old parts.new
        (step_spec.step (config_of pairs.now domains.now parts.old) parts.old.policy (state_of S.meaning parts.old) input.now)) }
    ensures beside { S.Beside parts.old.store parts.new.store }
{
    respond(alloc, pairs, domains, parts, input)?;
    if parts.over.is_some() {
        return Ok(());
    }
    settle(parts)
}
