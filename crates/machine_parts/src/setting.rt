//! Sets of properties that are no control names (`init_machine`'s `specs/Setting.antt`).

ghost use Rattle.std.specs.Prelude.{◌≡◌, ◌++◌, ◌∷◌, [], None, IfOk, OnOk, false, length, if◌then◌else◌, ◌&&◌};
ghost use Rattle.std.specs.Option.{option_copied};
ghost use Rattle.init_base.specs.Value.{LegalValue};
ghost use Rattle.init_machine.specs.Pairs.{with_saved};
ghost use Rattle.init_machine.specs.Props.{MayBeSet, full_for};
ghost use Rattle.init_machine.specs.Setting.{awaits, change_event, is_control, released_lines, still_waits, unset_lines};
ghost use Rattle.init_machine.specs.Setting as spec;
ghost use Rattle.init_machine.specs.declared.output.Output.TheVariants as output;
ghost use Rattle.machine_parts.specs.Parts.{Does, rules_of, state_of};

use crate::judging::judge;
use crate::parts::Parts;
use crate::saved::Saved;
use crate::schedule::Schedule;
use init_base::{NoMemory, PropName, PropValue, Text};
use init_machine::{Event, Output, Pair, PropStore, SetRefusal, Waiting};
use outputs::Outputs;
use std::alloc::Global;

const PERSISTENT: &[u8] = b"persist.";

fn is_persistent(name: &Text) -> bool
    ensures { result ≡ spec.is_persistent name.now }
{
    name.bytes().starts_with(PERSISTENT)
}

/// Queues a change of a property, where changes queue events.
#[inline(always)]
fn queue_change(queue: &mut Schedule, name: &Text, value: &Text) -> Result<(), NoMemory>
    ensures { OnOk result (queue.new
        ≡ record queue.old { events = queue.old.events ++ change_event queue.old.changes name.now value.now }) }
{
    if !queue.changes() {
        return Ok(());
    }
    queue.event(Event::Change(Pair {
        name: name.share()?,
        value: value.share()?,
    }))
}

/// Saves a persistent property, where saving is on.
fn store_saved<O: Outputs>(
    saving: bool,
    saved: &mut Saved,
    name: &Text,
    value: &Text,
    outputs: &mut O,
) -> Result<(), NoMemory>
    ensures saved { OnOk result
        (saved.new ≡ (if spec.is_persistent name.now && saving then with_saved saved.old name.now value.now else saved.old)) }
    ensures lines { OnOk result
        (O.Adds outputs.old outputs.new (if spec.is_persistent name.now && saving then output.Stored name.now ∷ [] else [])) }
{
    if !(is_persistent(name) && saving) {
        return Ok(());
    }
    saved.put(name, value)?;
    outputs.stored(name)
}

#[inline(always)]
fn is_awaited(waits: &Option<Waiting>, name: &Text, value: &Text) -> bool
    ensures { result ≡ awaits waits.now name.now value.now }
{
    match waits {
        Some(Waiting::Prop(pair)) => pair.name.is(name.bytes()) && pair.value.is(value.bytes()),
        _ => false,
    }
}

/// A wait that ends is no more, and has a line.
#[inline(always)]
pub fn release<O: Outputs>(
    ends: bool,
    waits: &mut Option<Waiting>,
    outputs: &mut O,
) -> Result<(), NoMemory>
    ensures waits { OnOk result (waits.new ≡ still_waits ends waits.old) }
    ensures lines { OnOk result (O.Adds outputs.old outputs.new (released_lines ends)) }
{
    if !ends {
        return Ok(());
    }
    *waits = None;
    outputs.push(Output::Released)
}

/// Puts a property for which there is room.
fn put_property<S: PropStore, O: Outputs>(
    alloc: Global,
    parts: &mut Parts<S, O>,
    name: &Text,
    value: &Text,
    property: PropName<'_>,
    legal: PropValue<'_>,
) -> Result<(), NoMemory>
    requires name { property.bytes.now ≡ name.now }
    requires value { legal.bytes.now ≡ value.now }
    requires legal { LegalValue name.now value.now }
    requires once { MayBeSet (S.meaning parts.old.store) name.now }
    requires room { full_for (S.meaning parts.old.store) name.now (length value.now) ≡ None }
    ensures done { OnOk result
        (Does S.meaning S.told O.Adds parts.old parts.new (spec.put_property (state_of S.meaning parts.old) name.now value.now)) }
    ensures beside { S.Beside parts.old.store parts.new.store }
{
    parts.store.reserve(alloc)?;
    let number = parts.store.put(property, legal);
    queue_change(&mut parts.queue, name, value)?;
    parts.outputs.put(number, name, value)?;
    store_saved(
        parts.saving,
        &mut parts.saved,
        name,
        value,
        &mut parts.outputs,
    )?;
    let ends = is_awaited(&parts.waits, name, value);
    release(ends, &mut parts.waits, &mut parts.outputs)
}

/// A set of a property that is no control name, by init or by a client of a domain, and why it is refused, if it is.
#[tactic(auto, unfolding(init_machine::specs::Setting::set_property))]
pub fn set_property<S: PropStore, O: Outputs>(
    alloc: Global,
    parts: &mut Parts<S, O>,
    by: Option<&Text>,
    name: &Text,
    value: &Text,
) -> Result<Option<SetRefusal>, NoMemory>
    requires plain { is_control name.now ≡ false }
    ensures refused { IfOk result (λ refused. refused ≡ (spec.set_property (rules_of parts.old) (state_of S.meaning parts.old)
        (option_copied by.entry) name.entry.now value.entry.now).refused) }
    ensures done { OnOk result (Does S.meaning S.told O.Adds parts.old parts.new (spec.set_property (rules_of parts.old)
        (state_of S.meaning parts.old) (option_copied by.entry) name.entry.now value.entry.now).done) }
    ensures beside { S.Beside parts.old.store parts.new.store }
{
    match judge(parts, by, name.bytes(), value.bytes()) {
        Ok((property, legal)) => {
            put_property(alloc, parts, name, value, property, legal)?;
            Ok(None)
        }
        Err(SetRefusal::NoMemory) => Err(NoMemory),
        Err(why) => Ok(Some(why)),
    }
}

/// The line of a refused set of init's that isn't a command.
pub fn add_refusal<O: Outputs>(
    name: &Text,
    refused: Option<SetRefusal>,
    outputs: &mut O,
) -> Result<(), NoMemory>
    ensures { OnOk result (O.Adds outputs.old outputs.new (unset_lines name.now refused)) }
{
    match refused {
        Some(refusal) => outputs.push(Output::Unset {
            name: name.share()?,
            refusal,
        }),
        None => Ok(()),
    }
}
