//! What the machine did, against what it does.

ghost use Rattle.std.specs.Prelude.{◌≡◌, ◌↔◌, IsTrue, IfOk, OnOk};
ghost use Rattle.init_core.specs.Core.{IsDeclared, opening_of, step_of, without_saved};
ghost use Rattle.init_machine.specs.State.{first_state};
ghost use Rattle.init_machine.specs.WellFormed.{IsWellFormed};

use crate::same::first_difference;
use init_base::{List, NoMemory};
use init_core::Core;
use init_machine::{Config, Entry, Output};
use list_store::ListStore;
use prop_contexts::Policy;
use std::alloc::Global;

/// The machine in its first state, with so many words for properties.
pub fn open(
    alloc: Global,
    config: Config,
    policy: Policy,
    words: u64,
) -> Result<Core<ListStore, List<Output>>, NoMemory>
    requires { IsWellFormed config }
    ensures config { IfOk result (λ core. core.config ≡ without_saved config) }
    ensures policy { IfOk result (λ core. core.policy ≡ policy) }
    ensures state { IfOk result (λ core. core.state ≡ first_state (opening_of config policy words)) }
{
    let store = ListStore::new(alloc, words)?;
    Core::new(alloc, config, policy, store, List::new(alloc))
}

/// Whether an entry has the outputs of the machine, which takes its input. They take the memory of those of before.
pub fn has_outputs(
    core: &mut Core<ListStore, List<Output>>,
    outputs: &mut List<Output>,
    entry: &Entry,
) -> Result<bool, NoMemory>
    requires { IsDeclared core.old.config entry.now.input }
    ensures config { OnOk result (core.new.config ≡ core.old.config) }
    ensures policy { OnOk result (core.new.policy ≡ core.old.policy) }
    ensures state { OnOk result (core.new.state ≡ (step_of core.old entry.now.input).state) }
    ensures same { IfOk result (λ same. IsTrue same ↔ (entry.now.outputs ≡ (step_of core.old entry.now.input).lines)) }
{
    outputs.truncate(0);
    if core.take(&entry.input, outputs).is_err() {
        return Err(NoMemory);
    }
    Ok(first_difference(outputs.items(), entry.outputs.items()).is_none())
}
