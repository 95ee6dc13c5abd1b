//! What leaves a core: its store for a while, and what lasts when the core ends.

ghost use Rattle.std.specs.Prelude.{◌≡◌};

use crate::machine::Core;
use init_base::List;
use init_machine::{Pair, PropStore};
use machine_parts::Parts;
use outputs::Outputs;
use prop_contexts::Policy;

/// What lasts of a core that has ended.
#[derive(Drop)]
pub struct Ended<S: PropStore> {
    /// The properties to be saved, and whether sets of persistent ones are.
    pub saved: List<Pair>,
    pub saving: bool,
    pub policy: Policy,
    pub store: S,
}

impl<S: PropStore, O: Outputs> Core<S, O> {
    ghost use Rattle.std.specs.Prelude.{◌≡◌};
    ghost use Rattle.std.specs.Borrow.{sem};
    ghost use Rattle.init_core.specs.Lending.{LendsStore};

    /// The store of properties, lent. What is done to it is done to the properties of the state, and to nothing else.
    pub fn store_mut(&mut self) -> &mut S
        ensures* lends { sem 𝓛 (LendsStore S.row O.row S.PropStore O.Outputs self.entry result) }
        ensures same { result.now ≡ self.old.store }
        ensures props { S.meaning result.now ≡ self.old.state.props }
    {
        let parts = &mut self.parts;
        &mut parts.store
    }

    /// What lasts when the core ends. It takes no memory.
    pub fn into_ended(self) -> Ended<S>
        ensures saved { result.saved ≡ self.state.saved }
        ensures saving { result.saving ≡ self.state.saving }
        ensures policy { result.policy ≡ self.policy }
        ensures store { result.store ≡ self.store }
    {
        let Core {
            alloc: _,
            pairs,
            domains,
            parts,
            spent: _,
        } = self;
        drop(pairs);
        drop(domains);
        parts_ended(parts)
    }
}

/// What lasts of the parts. The others go by `drop`, one by one, so that this proof has nothing to do with them.
fn parts_ended<S: PropStore, O: Outputs>(parts: Parts<S, O>) -> Ended<S>
    ensures saved { (result.saved ≡ parts.saved) × (result.saving ≡ parts.saving) }
    ensures rest { (result.policy ≡ parts.policy) × (result.store ≡ parts.store) }
{
    let Parts {
        store,
        queue,
        services,
        kernel,
        tree,
        policy,
        environment,
        saved,
        saving,
        waits,
        over,
        outputs,
    } = parts;
    drop(queue);
    drop(services);
    drop(kernel);
    drop(tree);
    drop(environment);
    drop(waits);
    drop(over);
    drop(outputs);
    Ended {
        saved: saved.into_pairs(),
        saving,
        policy,
        store,
    }
}
