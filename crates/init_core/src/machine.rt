//! `Core`: the machine, one input after another.

ghost use Rattle.std.specs.Prelude.{◌≡◌, ◌≤◌, ◌↔◌, [], length, true, false, IfOk, OnOk};

use crate::opening::Opened;
use crate::step::step;
use init_base::{List, NoMemory, PropName, Text, both};
use init_machine::{Config, Input, Pair, PropStore};
use machine_parts::{Parts, Saved};
use outputs::Outputs;
use prop_contexts::Policy;
use std::alloc::Global;
use std::marker::Model;
use std::mem;

/// Why a core took no input.
#[derive(Clone, Copy, Debug, PartialEq, Eq)]
pub enum CoreStop {
    /// Memory ran out at an earlier input.
    Spent,
    NoMemory,
}

impl From<NoMemory> for CoreStop {
    ghost use Rattle.std.specs.Prelude.{◌≡◌};
    ghost use Rattle.init_core.specs.declared.machine.CoreStop.TheVariants.{NoMemory as stop_no_memory};

    ghost from_gives = { λ _ stop. stop ≡ stop_no_memory };

    fn from(_: NoMemory) -> Self {
        CoreStop::NoMemory
    }
}

/// The machine over a store of properties.
///
/// To contracts it is what it goes by, its state, its store, and whether it is spent.
#[derive(Drop)]
pub struct Core<S: PropStore, O: Outputs> {
    pub(crate) alloc: Global,
    /// The pairs of the build files.
    pub(crate) pairs: List<Pair>,
    /// The domains of the clients.
    pub(crate) domains: List<Text>,
    pub(crate) parts: Parts<S, O>,
    pub(crate) spent: bool,
}

impl<S: PropStore, O: Outputs> Model for Core<S, O> {
    ghost use Rattle.std.specs.Prelude.{[]};
    ghost use Rattle.init_core.specs.Core.{CoreView, config_of};
    ghost use Rattle.machine_parts.specs.Parts.{state_of};

    ghost Value = { CoreView S };

    ghost view = { λ c. record {
      config = config_of c.pairs c.domains c.parts;
      policy = c.parts.policy;
      state = state_of S.meaning c.parts;
      store = c.parts.store;
      spent = c.spent;
    } };
}

impl<S: PropStore, O: Outputs> Core<S, O> {
    ghost use Rattle.init_core.specs.Core.{opened, step_of, IsDeclared};
    ghost use Rattle.init_core.specs.declared.machine.CoreStop.TheVariants as CoreStop;
    ghost use Rattle.init_base.specs.Value.{max_value_len};
    ghost use Rattle.init_machine.specs.History.{sets_in};
    ghost use Rattle.init_machine.specs.Props.{lookup_in, more_sets, IsLookUp};
    ghost use Rattle.init_machine.specs.WellFormed.{IsWellFormed};

    /// The machine in its first state. The outputs are what stands in while no input is taken.
    pub fn new(
        alloc: Global,
        config: Config,
        policy: Policy,
        store: S,
        outputs: O,
    ) -> Result<Core<S, O>, NoMemory>
    where
        S: Drop,
        requires config { IsWellFormed config }
        requires empty { (S.meaning store).held ≡ [] }
        requires count { (S.meaning store).count ≡ 0 }
        ensures { IfOk result (λ core. core ≡ opened config policy (S.meaning store).capacity store) }
    {
        let Config {
            actions,
            services,
            pairs,
            saved,
            plans,
            domains,
        } = config;
        let (policy, opened) = both(policy, Opened::new(alloc, actions, services, plans))?;
        let saved = Saved::of(saved);
        let parts = opened.into_parts(alloc, store, policy, saved, outputs);
        Ok(Core {
            alloc,
            pairs,
            domains,
            parts,
            spent: false,
        })
    }

    /// Takes one input: what the documented step does, and tells its outputs. A set is of a client that the configuration declares.
    ///
    /// `Spent` comes exactly where an earlier call answered `NoMemory`, and changes nothing. After `NoMemory` the store
    /// is the same beside the map, and nothing else is said of the core and of what was told.
    pub fn take(&mut self, input: &Input, outputs: &mut O) -> Result<(), CoreStop>
        requires declared { IsDeclared self.old.config input.now }
        ensures config { OnOk result (self.new.config ≡ self.old.config) }
        ensures policy { OnOk result (self.new.policy ≡ self.old.policy) }
        ensures state { OnOk result (self.new.state ≡ (step_of self.old input.now).state) }
        ensures outputs { OnOk result (O.Adds outputs.old outputs.new (step_of self.old input.now).lines) }
        ensures told { OnOk result
            (S.told self.new.store ≡ more_sets (S.told self.old.store) (sets_in (step_of self.old input.now).lines)) }
        ensures ready { OnOk result (self.new.spent ≡ false) }

        ensures spent { (result ≡ Err CoreStop.Spent) ↔ (self.old.spent ≡ true) }
        ensures unchanged { result ≡ Err CoreStop.Spent → (self.new ≡ self.old) × (outputs.new ≡ outputs.old) }
        ensures no_memory { result ≡ Err CoreStop.NoMemory → self.new.spent ≡ true }
        ensures beside { S.Beside self.old.store self.new.store }
    {
        if self.spent {
            return Err(CoreStop::Spent);
        }
        self.spent = true;
        mem::swap(&mut self.parts.outputs, outputs);
        let taken = step(
            self.alloc,
            &self.pairs,
            &self.domains,
            &mut self.parts,
            input,
        );
        mem::swap(&mut self.parts.outputs, outputs);
        taken?;
        self.spent = false;
        Ok(())
    }

    /// The properties to be saved.
    pub fn saved(&self) -> &List<Pair>
        ensures { result.now ≡ self.now.state.saved }
    {
        self.parts.saved.pairs()
    }

    /// Whether sets of persistent properties are saved.
    pub fn saving(&self) -> bool
        ensures { result ≡ self.now.state.saving }
    {
        self.parts.saving
    }

    /// The policy by which sets are judged.
    pub fn policy(&self) -> &Policy
        ensures { result.now ≡ self.now.policy }
    {
        &self.parts.policy
    }

    /// The store of properties.
    pub fn store(&self) -> &S
        ensures same { result.now ≡ self.now.store }
        ensures props { S.meaning result.now ≡ self.now.state.props }
    {
        &self.parts.store
    }

    /// The store's look-up: none exactly where the name is absent; else the length of the value, which stands at the
    /// front of `out`, and the number of its set. The buffer has room for any value that is legal under the name.
    pub fn get(&mut self, name: PropName<'_>, out: &mut [u8]) -> Option<(usize, u64)>
        requires room { max_value_len name.bytes.now ≤ length out.old }
        ensures found { IsLookUp (lookup_in (S.meaning self.old.store).held name.entry.bytes.now) result out.new }
        ensures same { self.new ≡ record self.old { store = self.new.store } }
        ensures meaning { S.meaning self.new.store ≡ S.meaning self.old.store }
        ensures told { S.told self.new.store ≡ S.told self.old.store }
        ensures beside { S.Beside self.old.store self.new.store }
    {
        self.parts.store.get(name, out)
    }
}
