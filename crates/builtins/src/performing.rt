//! What tasks do (AOSP, init's README, "Commands").

ghost use Rattle.std.specs.Prelude.{◌≡◌, IfOk, IsTrue, OnOk};
ghost use Rattle.init_machine.specs.Effect as spec;
ghost use Rattle.machine_parts.specs.Parts.{Does, rules_of, state_of};
ghost use Rattle.builtins.specs.Brief.{is_brief};

use crate::at_once::{export, note, set_property, trigger};
use crate::on_services::{exec_start, on_class, on_service};
use crate::saved::load_saved;
use crate::tree_calls::change_tree;
use crate::waits::{exec, wait_for_file, wait_for_property};
use init_base::NoMemory;
use init_machine::{Cause, Done, PropStore, Task};
use machine_parts::Parts;
use outputs::Outputs;
use std::alloc::Global;

/// Does what a task says, and answers how it ended.
#[inline(never)]
#[tactic(auto, unfolding(init_machine::specs::Effect::perform))]
pub fn perform<S: PropStore, O: Outputs>(
    alloc: Global,
    parts: &mut Parts<S, O>,
    task: Task,
) -> Result<Done, NoMemory>
    requires { IsTrue (is_brief task) }
    ensures ending { IfOk result (λ ending. ending ≡ (spec.perform (rules_of parts.old) task (state_of S.meaning parts.old)).ending) }
    ensures did { OnOk result
        (Does S.meaning S.told O.Adds parts.old parts.new (spec.perform (rules_of parts.old) task (state_of S.meaning parts.old)).did) }
    ensures beside { S.Beside parts.old.store parts.new.store }
{
    match task {
        Task::OnClass { op, class } => on_class(alloc, parts, op, &class),
        Task::OnService { op, name } => on_service(alloc, parts, op, name),
        Task::ExecStart { name } => exec_start(alloc, parts, name),
        Task::Exec { path } => exec(alloc, parts, path),
        Task::SetProperty { name, value } => set_property(alloc, parts, &name, &value),
        Task::Trigger { event } => trigger(parts, event),
        Task::WaitForProperty { name, value } => wait_for_property(parts, name, value),
        Task::WaitForFile { path, within } => wait_for_file(parts, path, within),
        Task::LoadSaved => load_saved(alloc, parts),
        Task::Export { name, value } => export(parts, name, value),
        Task::Tree(call) => change_tree(alloc, parts, call),
        Task::Note => note(parts),
        Task::BadArgument { number } => Ok(Done::Failed(Cause::BadArgument { number })),
    }
}
