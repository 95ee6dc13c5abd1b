//! The saved properties are set, and from then on sets of persistent ones are saved.

ghost use Rattle.std.specs.Prelude.{◌≡◌, IfOk, IsTrue, OnOk};
ghost use Rattle.std.specs.List.{list_all};
ghost use Rattle.init_machine.specs.Changes.{each};
ghost use Rattle.init_machine.specs.Effect as spec;
ghost use Rattle.init_machine.specs.Setting.{is_persistent};
ghost use Rattle.machine_parts.specs.Parts.{Does, rules_of, state_of};

use init_base::{List, NoMemory};
use init_machine::{Done, Pair, PropStore};
use machine_parts::{Parts, add_refusal, set_property};
use outputs::Outputs;
use std::alloc::Global;

/// Sets a saved property. Where that is refused it leaves the saved pairs, and the refusal has a line.
fn set_saved<S: PropStore, O: Outputs>(
    alloc: Global,
    parts: &mut Parts<S, O>,
    pair: &Pair,
) -> Result<(), NoMemory>
    requires { IsTrue (is_persistent pair.now.name) }
    ensures done { OnOk result
        (Does S.meaning S.told O.Adds parts.old parts.new (spec.set_saved (rules_of parts.old) pair.now (state_of S.meaning parts.old))) }
    ensures beside { S.Beside parts.old.store parts.new.store }
{
    let refused = set_property(alloc, parts, None, &pair.name, &pair.value)?;
    if refused.is_some() {
        parts.saved.remove(alloc, &pair.name)?;
    }
    add_refusal(&pair.name, refused, &mut parts.outputs)
}

/// Sets saved properties one after another, until the machine is over.
fn set_each<S: PropStore, O: Outputs>(
    alloc: Global,
    parts: &mut Parts<S, O>,
    pairs: &[Pair],
) -> Result<(), NoMemory>
    requires { IsTrue (list_all (λ p. is_persistent p.name) pairs.now) }
    ensures done { OnOk result (Does S.meaning S.told O.Adds parts.old parts.new
        (each (spec.set_saved (rules_of parts.old)) pairs.now (state_of S.meaning parts.old))) }
    ensures beside { S.Beside parts.old.store parts.new.store }
{
    for pair in pairs {
        set_saved(alloc, parts, pair)?;
        if parts.over.is_some() {
            return Ok(());
        }
    }
    Ok(())
}

/// Another list of the same pairs.
fn copy_of(alloc: Global, pairs: &List<Pair>) -> Result<List<Pair>, NoMemory>
    ensures { IfOk result (λ copy. copy ≡ pairs.now) }
{
    let mut copy = List::with_capacity(alloc, pairs.len())?;
    for pair in pairs.items() {
        copy.push(Pair {
            name: pair.name.share()?,
            value: pair.value.share()?,
        })?;
    }
    Ok(copy)
}

/// Sets the saved properties, and from then on sets of persistent properties are saved. Once they are, it does nothing.
pub fn load_saved<S: PropStore, O: Outputs>(
    alloc: Global,
    parts: &mut Parts<S, O>,
) -> Result<Done, NoMemory>
    ensures ending { IfOk result (λ ending. ending ≡ Done.Ok) }
    ensures did { OnOk result
        (Does S.meaning S.told O.Adds parts.old parts.new (spec.load_saved (rules_of parts.old) (state_of S.meaning parts.old))) }
    ensures beside { S.Beside parts.old.store parts.new.store }
{
    if parts.saving {
        return Ok(Done::Ok);
    }
    let pairs = copy_of(alloc, parts.saved.pairs())?;
    set_each(alloc, parts, pairs.items())?;
    if parts.over.is_none() {
        parts.saving = true;
    }
    Ok(Done::Ok)
}
