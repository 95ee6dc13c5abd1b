//! Services that are restarting, and the commands of their `onrestart` (AOSP, init's README, "Options").

ghost use Rattle.std.specs.Prelude.{◌≡◌, Some, OnOk, length, slice_get};
ghost use Rattle.std.specs.Option.{option_copied};
ghost use Rattle.init_machine.specs.Changes.{each};
ghost use Rattle.init_machine.specs.Effect.{effect};
ghost use Rattle.init_machine.specs.Reaping as spec;
ghost use Rattle.init_machine.specs.declared.action.Command.{Command as CommandLem};
ghost use Rattle.init_machine.specs.declared.service.ServiceDef.{ServiceDef as ServiceLem};
ghost use Rattle.machine_parts.specs.Parts.{Does, rules_of, state_of};
ghost use Rattle.init_core.specs.Reaped.{onrestart_of};

use builtins::run;
use init_base::NoMemory;
use init_machine::{Command, PropStore};
use machine_parts::{Parts, tell};
use outputs::Outputs;
use services::Services;
use std::alloc::Global;

/// How many commands the `onrestart` of the service at a place has.
fn onrestart_count(services: &Services, at: usize) -> usize
    ensures { result ≡ length (onrestart_of (slice_get services.now.defs at)) }
{
    match services.get(at) {
        Some(service) => service.onrestart.len(),
        None => 0,
    }
}

/// A command of the `onrestart` of the service at a place. None exactly where there is none.
fn onrestart_command(services: &Services, at: usize, place: usize) -> Option<&Command>
    ensures { option_copied result ≡ slice_get (onrestart_of (slice_get services.now.defs at)) place }
{
    match services.get(at) {
        Some(service) => service.onrestart.at(place),
        None => None,
    }
}

/// The command at a place in the `onrestart` of a service runs.
fn run_at<S: PropStore, O: Outputs>(
    alloc: Global,
    parts: &mut Parts<S, O>,
    at: usize,
    place: usize,
) -> Result<(), NoMemory>
    ensures done { (command : CommandLem) → slice_get (onrestart_of (slice_get parts.old.services.defs at)) place ≡ Some command
        → OnOk result (Does S.meaning S.told O.Adds parts.old parts.new
        (effect (rules_of parts.old) command (state_of S.meaning parts.old))) }
    ensures beside { S.Beside parts.old.store parts.new.store }
{
    let Some(command) = onrestart_command(&parts.services, at, place) else {
        return Ok(());
    };
    let command = command.share()?;
    run(alloc, parts, command)
}

/// The commands of the `onrestart` of the service at a place run, until the machine is over.
fn run_onrestart<S: PropStore, O: Outputs>(
    alloc: Global,
    parts: &mut Parts<S, O>,
    at: usize,
) -> Result<(), NoMemory>
    ensures done { OnOk result (Does S.meaning S.told O.Adds parts.old parts.new
        (each (effect (rules_of parts.old)) (onrestart_of (slice_get parts.old.services.defs at)) (state_of S.meaning parts.old))) }
    ensures beside { S.Beside parts.old.store parts.new.store }
{
    for place in 0..onrestart_count(&parts.services, at) {
        run_at(alloc, parts, at, place)?;
        if parts.over.is_some() {
            return Ok(());
        }
    }
    Ok(())
}

/// The service at a place is restarting, and the commands of its `onrestart` run.
pub fn restarting<S: PropStore, O: Outputs>(
    alloc: Global,
    parts: &mut Parts<S, O>,
    at: usize,
) -> Result<(), NoMemory>
    ensures done { (service : ServiceLem) → slice_get parts.old.services.defs at ≡ Some service
        → OnOk result (Does S.meaning S.told O.Adds parts.old parts.new
        (spec.restarting (rules_of parts.old) service (state_of S.meaning parts.old))) }
    ensures beside { S.Beside parts.old.store parts.new.store }
{
    let Some(service) = parts.services.get(at) else {
        return Ok(());
    };
    let name = service.name.share()?;
    tell(alloc, parts, &name, b"restarting")?;
    if parts.over.is_some() {
        return Ok(());
    }
    run_onrestart(alloc, parts, at)
}
