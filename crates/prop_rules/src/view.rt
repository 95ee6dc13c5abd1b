//! The view of the build files' pairs against which the paths of imports are expanded. What it gives is `view` of
//! `specs/View.antt`.

ghost use Rattle.std.specs.Prelude.{◌≡◌, ◌∷◌, ℕ, List as Items, IfOk, OnOk, true};
ghost use Rattle.init_base.specs.Value.{LegalValue};
ghost use Rattle.init_machine.specs.Props.{is_absent, lookup_in, value_in, with_set};
ghost use Rattle.init_machine.specs.declared.config.Pair.{Pair as AnyPair};
ghost use Rattle.prop_rules.specs.View as spec;
ghost use Rattle.prop_rules.specs.internal.Views.{Shows, with_legal};

use collections::TextIndex;
use init_base::{List, NoMemory, PropName, PropValue};
use init_machine::{Pair, PropStore};
use list_store::ListStore;
use std::alloc::Global;

/// The capacity of the view, in words: as many as can be counted.
const CAPACITY: u64 = u64::MAX;

/// The store in which each name has the value of its last pair, where that pair's name and value are legal. It takes the
/// time of the pairs. A view that takes more words than can be counted is want of memory.
pub fn boot_view(alloc: Global, pairs: &List<Pair>) -> Result<ListStore, NoMemory>
    ensures { IfOk result (λ store. (name : Items ℕ) → value_in store.props name ≡ spec.view pairs.now name) }
{
    let mut decided = TextIndex::new(alloc);
    let mut view = ListStore::new(alloc, CAPACITY)?;
    let mut rest = pairs.items();
    while let [before @ .., pair] = rest {
        take_earlier(alloc, &mut decided, &mut view, pair)?;
        rest = before;
    }
    Ok(view)
}

/// Takes the pair before those that were taken, which decide the names that they have.
#[tactic(auto, using(crate::proofs::Views::decided_stays, crate::proofs::Views::decides, crate::proofs::Views::undecided))]
fn take_earlier(
    alloc: Global,
    decided: &mut TextIndex,
    view: &mut ListStore,
    pair: &Pair,
) -> Result<(), NoMemory>
    requires { (taken : Items AnyPair) × Shows decided.old view.old.props taken }
    ensures { OnOk result ((later : Items AnyPair) → Shows decided.old view.old.props later
        → Shows decided.new view.new.props (pair.now ∷ later)) }
{
    let name = pair.name.bytes();
    if decided.place(name).is_some() {
        return Ok(());
    }
    decided.add(name)?;
    put_legal(alloc, view, pair)
}

/// Sets the property of a pair, where its name and value are legal.
fn put_legal(alloc: Global, view: &mut ListStore, pair: &Pair) -> Result<(), NoMemory>
    requires { is_absent (lookup_in view.old.props.held pair.now.name) ≡ true }
    ensures { OnOk result (view.new.props ≡ with_legal view.old.props pair.now) }
{
    let Some(name) = PropName::of(pair.name.bytes()) else {
        return Ok(());
    };
    let Ok(value) = PropValue::under(name, pair.value.bytes()) else {
        return Ok(());
    };
    put(alloc, view, name, value)
}

fn put(
    alloc: Global,
    view: &mut ListStore,
    name: PropName<'_>,
    value: PropValue<'_>,
) -> Result<(), NoMemory>
    requires legal { LegalValue name.bytes.now value.bytes.now }
    requires absent { is_absent (lookup_in view.old.props.held name.bytes.now) ≡ true }
    ensures { OnOk result (view.new.props ≡ with_set view.old.props name.entry.bytes.now value.entry.bytes.now) }
{
    view.reserve(alloc)?;
    if view.room(name, value.bytes().len()).is_err() {
        return Err(NoMemory);
    }
    view.put(name, value);
    Ok(())
}
