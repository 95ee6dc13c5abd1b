//! The boot: the pairs of the build files, and the events (AOSP, init's README, "Trigger Sequence").

ghost use Rattle.std.specs.Prelude.{◌≡◌, IfOk, OnOk, false};
ghost use Rattle.init_machine.specs.Changes.{nothing};
ghost use Rattle.init_machine.specs.Step as spec;
ghost use Rattle.machine_parts.specs.Parts.{Does, rules_of, state_of};
ghost use Rattle.init_core.specs.internal.Stage.{stage_in};

use crate::last_pairs::last_pairs;
use crate::read::is_charger;
use init_base::{List, NoMemory, Text};
use init_machine::{Output, Pair, PropStore};
use machine_parts::{Parts, add_refusal, set_by};
use outputs::Outputs;
use std::alloc::Global;

/// A pair of the build files is set by init.
fn set_pair<S: PropStore, O: Outputs>(
    alloc: Global,
    parts: &mut Parts<S, O>,
    pair: &Pair,
) -> Result<(), NoMemory>
    ensures done { OnOk result
        (Does S.meaning S.told O.Adds parts.old parts.new (spec.set_pair (rules_of parts.old) pair.now (state_of S.meaning parts.old))) }
    ensures beside { S.Beside parts.old.store parts.new.store }
{
    let refused = set_by(alloc, parts, None, &pair.name, &pair.value)?;
    add_refusal(&pair.name, refused, &mut parts.outputs)
}

/// Pairs of the build files are set by init, also where the machine is over.
fn set_pairs<S: PropStore, O: Outputs>(
    alloc: Global,
    parts: &mut Parts<S, O>,
    pairs: &List<Pair>,
) -> Result<(), NoMemory>
    ensures done { OnOk result
        (Does S.meaning S.told O.Adds parts.old parts.new (spec.set_pairs (rules_of parts.old) pairs.now (state_of S.meaning parts.old))) }
    ensures beside { S.Beside parts.old.store parts.new.store }
{
    for pair in pairs.items() {
        set_pair(alloc, parts, pair)?;
    }
    Ok(())
}

/// The name of the third event. A device that charges doesn't come to `late-init`.
fn last_stage<S: PropStore>(alloc: Global, store: &mut S) -> Result<Text, NoMemory>
    ensures stage { IfOk result (λ stage. stage ≡ stage_in (S.meaning store.old)) }
    ensures same { S.meaning store.new ≡ S.meaning store.old }
    ensures told { S.told store.new ≡ S.told store.old }
    ensures beside { S.Beside store.old store.new }
{
    if is_charger(store) {
        return Text::of(alloc, b"charger");
    }
    Text::of(alloc, b"late-init")
}

/// Queues the events of a boot, and behind them the mark.
fn queue_boot<S: PropStore, O: Outputs>(
    alloc: Global,
    parts: &mut Parts<S, O>,
) -> Result<(), NoMemory>
    requires { parts.old.queue.had_boot ≡ false }
    ensures done { OnOk result (Does S.meaning S.told O.Adds parts.old parts.new
        (nothing (spec.queue_boot (state_of S.meaning parts.old)))) }
    ensures beside { S.Beside parts.old.store parts.new.store }
{
    let last = last_stage(alloc, &mut parts.store)?;
    parts.queue.boot(alloc, last)
}

/// The first boot: the last pair of each name is set, in ascending order of names, and the events are queued.
fn first_boot<S: PropStore, O: Outputs>(
    alloc: Global,
    parts: &mut Parts<S, O>,
    pairs: &List<Pair>,
) -> Result<(), NoMemory>
    requires { parts.old.queue.had_boot ≡ false }
    ensures done { OnOk result
        (Does S.meaning S.told O.Adds parts.old parts.new (spec.first_boot pairs.now (rules_of parts.old) (state_of S.meaning parts.old))) }
    ensures beside { S.Beside parts.old.store parts.new.store }
{
    let last = last_pairs(alloc, pairs)?;
    set_pairs(alloc, parts, &last)?;
    queue_boot(alloc, parts)
}

/// The first boot sets the pairs of the build files and queues its events. A later one is idle.
pub fn boot<S: PropStore, O: Outputs>(
    alloc: Global,
    parts: &mut Parts<S, O>,
    pairs: &List<Pair>,
) -> Result<(), NoMemory>
    ensures done { OnOk result
        (Does S.meaning S.told O.Adds parts.old parts.new (spec.boot pairs.now (rules_of parts.old) (state_of S.meaning parts.old))) }
    ensures beside { S.Beside parts.old.store parts.new.store }
{
    if parts.queue.had_boot() {
        return parts.outputs.push(Output::Idle);
    }
    first_boot(alloc, parts, pairs)
}
