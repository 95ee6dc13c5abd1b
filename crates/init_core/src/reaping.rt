//! What the end of a process brings about: restarts, critical services, and the end of a wait (AOSP, init's README,
//! "Services", and "Options" for `critical`; the counting of critical exits is this project's profile).

ghost use Rattle.std.specs.Prelude.{◌≡◌, ◌<◌, Some, OnOk, IfOk, length, slice_get};
ghost use Rattle.init_machine.specs.Changes.{each};
ghost use Rattle.init_machine.specs.Reaping.{awaits_child};
ghost use Rattle.init_machine.specs.Reaping as spec;
ghost use Rattle.init_machine.specs.Services.{place_of, service_at};
ghost use Rattle.init_machine.specs.declared.service.ServiceDef.{ServiceDef as ServiceLem};
ghost use Rattle.machine_parts.specs.Parts.{Does, rules_of, state_of};
ghost use Rattle.init_core.specs.Reaped.{reap_one, target_of};

use crate::read::is_boot_completed;
use crate::restarting::restarting;
use init_base::{List, NoMemory, Pid, Text};
use init_machine::{How, Move, Op, Output, PropStore, Waiting};
use machine_parts::{Parts, release, tell};
use model_kernel::Reaped;
use outputs::Outputs;
use services::Services;
use std::alloc::Global;

/// The machine is over, by a reboot.
fn reboot<S: PropStore, O: Outputs>(parts: &mut Parts<S, O>, target: Text) -> Result<(), NoMemory>
    ensures done { OnOk result (Does S.meaning S.told O.Adds parts.old parts.new (spec.reboot target (state_of S.meaning parts.old))) }
    ensures beside { S.Beside parts.old.store parts.new.store }
{
    parts.over = Some(target.share()?);
    parts.outputs.push(Output::Reboot { target })
}

/// Where the service at a place reboots to, if it is critical.
fn target(services: &Services, at: usize) -> Result<Option<Text>, NoMemory>
    ensures { IfOk result (λ target. target ≡ target_of (slice_get services.now.defs at)) }
{
    let Some(service) = services.get(at) else {
        return Ok(None);
    };
    match &service.critical {
        Some(critical) => Ok(Some(critical.target.share()?)),
        None => Ok(None),
    }
}

/// The process of the service at a place has ended: the service is restarting, unless the end is one too many of a
/// critical service.
fn exited<S: PropStore, O: Outputs>(
    alloc: Global,
    parts: &mut Parts<S, O>,
    at: usize,
) -> Result<(), NoMemory>
    requires { at < length parts.old.services.defs }
    ensures done { (service : ServiceLem) → slice_get parts.old.services.defs at ≡ Some service
        → OnOk result (Does S.meaning S.told O.Adds parts.old parts.new
        (spec.exited (rules_of parts.old) service at (state_of S.meaning parts.old))) }
    ensures beside { S.Beside parts.old.store parts.new.store }
{
    let Some(target) = target(&parts.services, at)? else {
        return restarting(alloc, parts, at);
    };
    let booted = is_boot_completed(&mut parts.store);
    let now = parts.kernel.now();
    let is_fatal = parts.services.count_exit(at, now, booted)?;
    if is_fatal {
        return reboot(parts, target);
    }
    restarting(alloc, parts, at)
}

/// The process of the service at a place has ended.
fn end_service<S: PropStore, O: Outputs>(
    alloc: Global,
    parts: &mut Parts<S, O>,
    at: usize,
) -> Result<(), NoMemory>
    ensures done { OnOk result (Does S.meaning S.told O.Adds parts.old parts.new
        (spec.end_service (rules_of parts.old) at (service_at (rules_of parts.old) at) (state_of S.meaning parts.old))) }
    ensures beside { S.Beside parts.old.store parts.new.store }
{
    let Some(service) = parts.services.get(at) else {
        return Ok(());
    };
    let name = service.name.share()?;
    match parts.services.apply(at, Op::Reaped)? {
        Move::Stopped => tell(alloc, parts, &name, b"stopped"),
        Move::Exited => exited(alloc, parts, at),
        Move::Nothing | Move::Spawn | Move::Kill { .. } => Ok(()),
    }
}

/// The process of the service of a name has ended. The child of `exec` belongs to no service.
fn end_named<S: PropStore, O: Outputs>(
    alloc: Global,
    parts: &mut Parts<S, O>,
    name: &Text,
) -> Result<(), NoMemory>
    ensures done { OnOk result (Does S.meaning S.told O.Adds parts.old parts.new
        (spec.end_named (rules_of parts.old) (place_of (rules_of parts.old) name.now) (state_of S.meaning parts.old))) }
    ensures beside { S.Beside parts.old.store parts.new.store }
{
    match parts.services.find(name.bytes()) {
        Some(at) => end_service(alloc, parts, at),
        None => Ok(()),
    }
}

/// Whether it is this child that is waited for.
fn is_awaited(waits: &Option<Waiting>, pid: Pid) -> bool
    ensures { result ≡ awaits_child waits.now pid.0 }
{
    match waits {
        Some(Waiting::Child(awaited)) => *awaited == pid,
        Some(Waiting::Prop(_) | Waiting::File { .. }) | None => false,
    }
}

/// A wait for the child ends.
fn release_child<S: PropStore, O: Outputs>(
    parts: &mut Parts<S, O>,
    pid: Pid,
) -> Result<(), NoMemory>
    ensures done { OnOk result (Does S.meaning S.told O.Adds parts.old parts.new
        (spec.release_child pid.0 (state_of S.meaning parts.old))) }
    ensures beside { S.Beside parts.old.store parts.new.store }
{
    let ends = is_awaited(&parts.waits, pid);
    release(ends, &mut parts.waits, &mut parts.outputs)
}

/// A process that has left the kernel is reaped.
pub fn reap<S: PropStore, O: Outputs>(
    alloc: Global,
    parts: &mut Parts<S, O>,
    pid: Pid,
    name: &Text,
    how: How,
) -> Result<(), NoMemory>
    ensures done { OnOk result
        (Does S.meaning S.told O.Adds parts.old parts.new
        (spec.reap (rules_of parts.old) pid.0 name.now how (state_of S.meaning parts.old))) }
    ensures beside { S.Beside parts.old.store parts.new.store }
{
    parts.outputs.reap(pid, name, how)?;
    end_named(alloc, parts, name)?;
    if parts.over.is_some() {
        return Ok(());
    }
    release_child(parts, pid)
}

/// Processes that have left the kernel are reaped, until the machine is over.
pub fn reap_each<S: PropStore, O: Outputs>(
    alloc: Global,
    parts: &mut Parts<S, O>,
    ended: &List<Reaped>,
) -> Result<(), NoMemory>
    ensures done { OnOk result
        (Does S.meaning S.told O.Adds parts.old parts.new (each (reap_one (rules_of parts.old)) ended.now (state_of S.meaning parts.old))) }
    ensures beside { S.Beside parts.old.store parts.new.store }
{
    for process in ended.items() {
        reap(alloc, parts, process.pid, &process.name, process.how)?;
        if parts.over.is_some() {
            return Ok(());
        }
    }
    Ok(())
}
