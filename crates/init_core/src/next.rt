//! The next command (AOSP, init's README, "Actions" and "Triggers").

ghost use Rattle.std.specs.Prelude.{◌≡◌, OnOk};
ghost use Rattle.init_machine.specs.Step as spec;
ghost use Rattle.machine_parts.specs.Parts.{Does, actions_of, rules_of, state_of};

use builtins::run_queued;
use init_base::NoMemory;
use init_machine::{Output, PropStore};
use machine_parts::Parts;
use outputs::Outputs;
use std::alloc::Global;

/// Events are taken, and one command runs. Where none runs, the machine is idle.
fn take_and_run<S: PropStore, O: Outputs>(
    alloc: Global,
    parts: &mut Parts<S, O>,
) -> Result<(), NoMemory>
    ensures done { OnOk result (Does S.meaning S.told O.Adds parts.old parts.new
        (spec.take_and_run (actions_of parts.old) (rules_of parts.old) (state_of S.meaning parts.old))) }
    ensures beside { S.Beside parts.old.store parts.new.store }
{
    let next = parts
        .queue
        .next(alloc, &mut parts.store, &mut parts.outputs)?;
    match next {
        Some(place) => run_queued(alloc, parts, place),
        None => parts.outputs.push(Output::Idle),
    }
}

/// One command runs, unless the machine waits.
#[tactic(auto, unfolding(init_machine::specs::Step::next))]
pub fn next<S: PropStore, O: Outputs>(
    alloc: Global,
    parts: &mut Parts<S, O>,
) -> Result<(), NoMemory>
    ensures done { OnOk result (Does S.meaning S.told O.Adds parts.old parts.new
        (spec.next (actions_of parts.old) (rules_of parts.old) (state_of S.meaning parts.old))) }
    ensures beside { S.Beside parts.old.store parts.new.store }
{
    if parts.waits.is_some() {
        return parts.outputs.push(Output::Blocked);
    }
    take_and_run(alloc, parts)
}
