//! Operations on services, and sets of any name (`init_machine`'s `specs/Services.antt`).

ghost use Rattle.std.specs.Prelude.{◌≡◌, ◌<◌, ◌∷◌, [], Some, IfOk, OnOk, is_none, length, not, true};
ghost use Rattle.std.specs.Option.{option_copied};
ghost use Rattle.init_machine.specs.Changes.{change};
ghost use Rattle.init_machine.specs.Services.{place_of};
ghost use Rattle.init_machine.specs.Services as services_spec;
ghost use Rattle.init_machine.specs.Choices.{only_if};
ghost use Rattle.init_machine.specs.Setting.{control_op, has_service, set_answer};
ghost use Rattle.init_machine.specs.Setting as setting_spec;
ghost use Rattle.services.specs.Services.{place_named};
ghost use Rattle.init_machine.specs.declared.output.Output.TheVariants as output;
ghost use Rattle.machine_parts.specs.Answers.{IsAnswer};
ghost use Rattle.machine_parts.specs.internal.Operations.{with_step};
ghost use Rattle.machine_parts.specs.Parts.{Does, rules_of, state_of};

use crate::judging::{check_domain, check_up, is_control, legal_name};
use crate::parts::Parts;
use crate::setting::{add_refusal, set_property};
use init_base::{List, NoMemory, Pid, Text};
use init_machine::{Move, Op, Output, PropStore, SetRefusal};
use model_kernel::SpawnRefusal;
use outputs::Outputs;
use services::Services;
use std::alloc::Global;

/// The beginning of the name of the property that tells the state of a service.
const STATE: &[u8] = b"init.svc.";

const RUNNING: &[u8] = b"running";

const STOPPING: &[u8] = b"stopping";

const STOPPED: &[u8] = b"stopped";

const START: &[u8] = b"ctl.start";

const STOP: &[u8] = b"ctl.stop";

const RESTART: &[u8] = b"ctl.restart";

/// The property that tells the state of a service.
fn state_name(alloc: Global, service: &Text) -> Result<Text, NoMemory>
    ensures { IfOk result (λ name. name ≡ services_spec.state_name service.now) }
{
    let mut name = Vec::with_capacity(alloc, STATE.len().saturating_add(service.len()))?;
    name.extend_from_slice(STATE)?;
    name.extend_from_slice(service.bytes())?;
    Text::from_vec(name)
}

/// Tells the state of a service by its property.
pub fn tell<S: PropStore, O: Outputs>(
    alloc: Global,
    parts: &mut Parts<S, O>,
    service: &Text,
    word: &[u8],
) -> Result<(), NoMemory>
    ensures done { OnOk result (Does S.meaning S.told O.Adds parts.old parts.new
        (services_spec.tell (rules_of parts.old) service.now word.now (state_of S.meaning parts.old))) }
    ensures beside { S.Beside parts.old.store parts.new.store }
{
    let name = state_name(alloc, service)?;
    let word = Text::of(alloc, word)?;
    let refused = set_property(alloc, parts, None, &name, &word)?;
    add_refusal(&name, refused, &mut parts.outputs)
}

/// The service at a place has a process that was begun.
fn enter_process<S: PropStore, O: Outputs>(
    parts: &mut Parts<S, O>,
    at: usize,
    name: &Text,
    path: &Text,
    pid: Pid,
) -> Result<(), NoMemory>
    requires { at < length parts.old.services.defs }
    ensures done { OnOk result (Does S.meaning S.told O.Adds parts.old parts.new (change (with_step (state_of S.meaning parts.old) at
        (Op.Spawned pid (record { 0 = parts.old.kernel.kernel.clock }))) (output.Spawn pid name.now path.now ∷ []))) }
    ensures beside { S.Beside parts.old.store parts.new.store }
{
    let now = parts.kernel.now();
    parts.services.apply(at, Op::Spawned { pid, now })?;
    parts.outputs.spawn(pid, name, path)
}

/// Stops a service, since the kernel has no pid.
fn stop_unspawned<S: PropStore, O: Outputs>(
    parts: &mut Parts<S, O>,
    at: usize,
    name: &Text,
) -> Result<(), NoMemory>
    requires { at < length parts.old.services.defs }
    ensures done { OnOk result (Does S.meaning S.told O.Adds parts.old parts.new
        (change (with_step (state_of S.meaning parts.old) at Op.NoPid) (output.NoPid name.now ∷ []))) }
    ensures beside { S.Beside parts.old.store parts.new.store }
{
    parts.services.apply(at, Op::NoPid)?;
    parts.outputs.push(Output::NoPid {
        name: name.share()?,
    })
}

/// Spawns a process for the service at a place. Answers whether the kernel had a pid.
fn spawn<S: PropStore, O: Outputs>(
    alloc: Global,
    parts: &mut Parts<S, O>,
    at: usize,
    name: &Text,
    path: &Text,
) -> Result<bool, NoMemory>
    requires { at < length parts.old.services.defs }
    ensures had_pid { IfOk result (λ had_pid. had_pid
        ≡ (services_spec.spawn (rules_of parts.old) name.now path.now at (state_of S.meaning parts.old)).had_pid) }
    ensures done { OnOk result (Does S.meaning S.told O.Adds parts.old parts.new
        (services_spec.spawn (rules_of parts.old) name.now path.now at (state_of S.meaning parts.old)).done) }
    ensures beside { S.Beside parts.old.store parts.new.store }
{
    match parts.kernel.spawn(name, path.bytes()) {
        Ok(pid) => {
            enter_process(parts, at, name, path, pid)?;
            tell(alloc, parts, name, RUNNING)?;
            Ok(true)
        }
        Err(SpawnRefusal::NoPid) => {
            stop_unspawned(parts, at, name)?;
            tell(alloc, parts, name, STOPPED)?;
            Ok(false)
        }
        Err(SpawnRefusal::NoMemory) => Err(NoMemory),
    }
}

/// Kills the process of a service.
fn kill_process<S: PropStore, O: Outputs>(
    alloc: Global,
    parts: &mut Parts<S, O>,
    name: &Text,
    pid: Pid,
) -> Result<(), NoMemory>
    ensures done { OnOk result (Does S.meaning S.told O.Adds parts.old parts.new
        (services_spec.kill_process (rules_of parts.old) name.now pid (state_of S.meaning parts.old))) }
    ensures beside { S.Beside parts.old.store parts.new.store }
{
    parts.kernel.kill(pid);
    parts.outputs.kill(pid, name)?;
    tell(alloc, parts, name, STOPPING)
}

/// Does what follows from an operation on the service at a place.
#[tactic(auto, unfolding(init_machine::specs::Services::follow))]
fn follow<S: PropStore, O: Outputs>(
    alloc: Global,
    parts: &mut Parts<S, O>,
    at: usize,
    name: &Text,
    path: &Text,
    todo: Move,
) -> Result<bool, NoMemory>
    requires { at < length parts.old.services.defs }
    ensures had_pid { IfOk result (λ had_pid. had_pid
        ≡ (services_spec.follow (rules_of parts.old) name.now path.now at todo (state_of S.meaning parts.old)).had_pid) }
    ensures done { OnOk result (Does S.meaning S.told O.Adds parts.old parts.new
        (services_spec.follow (rules_of parts.old) name.now path.now at todo (state_of S.meaning parts.old)).done) }
    ensures beside { S.Beside parts.old.store parts.new.store }
{
    match todo {
        Move::Nothing | Move::Exited => {}
        Move::Spawn => return spawn(alloc, parts, at, name, path),
        Move::Kill { pid } => kill_process(alloc, parts, name, pid)?,
        Move::Stopped => tell(alloc, parts, name, STOPPED)?,
    }
    Ok(true)
}

/// Does an operation on the service at a place, and what follows from it. Answers whether the kernel had a pid where a
/// process was to be spawned.
pub fn operate<S: PropStore, O: Outputs>(
    alloc: Global,
    parts: &mut Parts<S, O>,
    at: usize,
    op: Op,
) -> Result<bool, NoMemory>
    ensures had_pid { IfOk result
        (λ had_pid. had_pid ≡ (services_spec.operate (rules_of parts.old) at op (state_of S.meaning parts.old)).had_pid) }
    ensures done { OnOk result (Does S.meaning S.told O.Adds parts.old parts.new
        (services_spec.operate (rules_of parts.old) at op (state_of S.meaning parts.old)).done) }
    ensures beside { S.Beside parts.old.store parts.new.store }
{
    let Some(service) = parts.services.get(at) else {
        return Ok(true);
    };
    let name = service.name.share()?;
    let path = service.path.share()?;
    let todo = parts.services.apply(at, op)?;
    follow(alloc, parts, at, &name, &path, todo)
}

/// Does an operation on each service at some places, in their order, until the machine is over.
pub fn operate_each<S: PropStore, O: Outputs>(
    alloc: Global,
    parts: &mut Parts<S, O>,
    op: Op,
    places: &List<usize>,
) -> Result<(), NoMemory>
    ensures done { OnOk result (Does S.meaning S.told O.Adds parts.old parts.new
        (services_spec.operate_each (rules_of parts.old) op places.now (state_of S.meaning parts.old))) }
    ensures beside { S.Beside parts.old.store parts.new.store }
{
    for at in places.items() {
        operate(alloc, parts, *at, op)?;
        if parts.over.is_some() {
            return Ok(());
        }
    }
    Ok(())
}

/// The operation that a control name asks for.
fn asked_op(name: &[u8]) -> Result<Op, SetRefusal>
    ensures answer { IsAnswer result (only_if (is_none (control_op name.now)) SetRefusal.UnknownControl) }
    ensures op { IfOk result (λ op. Some op ≡ control_op name.now) }
{
    if name == START {
        Ok(Op::Start)
    } else if name == STOP {
        Ok(Op::Stop)
    } else if name == RESTART {
        Ok(Op::Restart {
            only_running: false,
        })
    } else {
        Err(SetRefusal::UnknownControl)
    }
}

/// The place of a service.
fn find_service(services: &Services, name: &[u8]) -> Result<usize, SetRefusal>
    ensures answer { IsAnswer result (only_if (not (has_service services.now.defs name.now)) SetRefusal.NoSuchService) }
    ensures place { IfOk result (λ at. Some at ≡ place_named services.now name.now) }
{
    match services.find(name) {
        Some(at) => Ok(at),
        None => Err(SetRefusal::NoSuchService),
    }
}

/// The operation that a control name asks for, and the place of its service, or why it is refused.
#[tactic(auto, unfolding(init_machine::specs::Setting::set_answer))]
fn judge_control<S: PropStore, O: Outputs>(
    parts: &Parts<S, O>,
    by: Option<&Text>,
    name: &[u8],
    service: &[u8],
) -> Result<(Op, usize), SetRefusal>
    requires { setting_spec.is_control name.now ≡ true }
    ensures answer { IsAnswer result
        (set_answer (rules_of parts.now) (state_of S.meaning parts.now) (option_copied by.entry) name.now service.now) }
    ensures op { IfOk result (λ asked. Some asked.0 ≡ control_op name.now) }
    ensures place { IfOk result (λ asked. Some asked.1 ≡ place_of (rules_of parts.now) service.now) }
{
    check_up(&parts.over)?;
    let legal = legal_name(name)?;
    let op = asked_op(name)?;
    check_domain(&parts.policy, by, legal)?;
    let at = find_service(&parts.services, service)?;
    Ok((op, at))
}

/// A set of any name, by init or by a client of a domain, and why it is refused, if it is.
#[inline(always)]
#[tactic(auto, unfolding(init_machine::specs::Services::set_by))]
pub fn set_by<S: PropStore, O: Outputs>(
    alloc: Global,
    parts: &mut Parts<S, O>,
    by: Option<&Text>,
    name: &Text,
    value: &Text,
) -> Result<Option<SetRefusal>, NoMemory>
    ensures refused { IfOk result (λ refused. refused ≡ (services_spec.set_by (rules_of parts.old)
        (option_copied by.entry) name.entry.now value.entry.now (state_of S.meaning parts.old)).refused) }
    ensures done { OnOk result (Does S.meaning S.told O.Adds parts.old parts.new (services_spec.set_by (rules_of parts.old)
        (option_copied by.entry) name.entry.now value.entry.now (state_of S.meaning parts.old)).done) }
    ensures beside { S.Beside parts.old.store parts.new.store }
{
    if !is_control(name.bytes()) {
        return set_property(alloc, parts, by, name, value);
    }
    match judge_control(parts, by, name.bytes(), value.bytes()) {
        Ok((op, at)) => {
            operate(alloc, parts, at, op)?;
            Ok(None)
        }
        Err(SetRefusal::NoMemory) => Err(NoMemory),
        Err(why) => Ok(Some(why)),
    }
}
