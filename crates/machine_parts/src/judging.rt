//! Whether a set of a property is accepted (`set_answer` of `init_machine`'s `specs/Setting.antt`).

ghost use Rattle.std.specs.Prelude.{◌≡◌, ℕ, List, None, IfOk, OnOk, false, length, not};
ghost use Rattle.std.specs.Option.{option_copied};
ghost use Rattle.init_base.specs.Name.{is_legal_name};
ghost use Rattle.init_base.specs.Value.{LegalValue, value_fault_under};
ghost use Rattle.init_machine.specs.Choices.{first_of, only_if};
ghost use Rattle.init_machine.specs.Policy.{context_of};
ghost use Rattle.init_machine.specs.Props.{MayBeSet, full_for};
ghost use Rattle.init_machine.specs.Setting.{bad_value, denied, down, no_room, property_refusals, read_only, set_answer};
ghost use Rattle.init_machine.specs.Setting as spec;
ghost use Rattle.machine_parts.specs.Answers.{IsAnswer};
ghost use Rattle.machine_parts.specs.Parts.{rules_of, state_of};

use crate::parts::Parts;
use init_base::{BadValue, PropName, PropValue, Text};
use init_machine::{Full, PropStore, SetRefusal};
use outputs::Outputs;
use prop_contexts::{Context, Policy};
use prop_rules::check_type;

const CONTROL: &[u8] = b"ctl.";

/// Whether a set of this name is asked of a service.
pub fn is_control(name: &[u8]) -> bool
    ensures { result ≡ spec.is_control name.now }
{
    name.starts_with(CONTROL)
}

/// Whether the machine isn't over.
#[inline(always)]
pub fn check_up(over: &Option<Text>) -> Result<(), SetRefusal>
    ensures { IsAnswer result (down over.now) }
{
    match over {
        Some(target) => Err(SetRefusal::Down {
            target: target.share()?,
        }),
        None => Ok(()),
    }
}

/// Whether the one who asks may set the property: a client what its domain is allowed to, and init everything.
pub fn check_domain(
    policy: &Policy,
    by: Option<&Text>,
    name: PropName<'_>,
) -> Result<(), SetRefusal>
    ensures { IsAnswer result (denied policy.now (option_copied by.entry) name.entry.bytes.now) }
{
    if by.is_none() {
        return Ok(());
    }
    check_context(policy, by, policy.context_of(name))
}

/// The same, of a name whose context is known.
#[inline(always)]
fn check_context(policy: &Policy, by: Option<&Text>, context: &Context) -> Result<(), SetRefusal>
    ensures { (name : List ℕ) → context.now ≡ context_of policy.now name
        → IsAnswer result (denied policy.now (option_copied by.entry) name) }
{
    let Some(domain) = by else {
        return Ok(());
    };
    let label = &context.label;
    if policy.allows(domain.bytes(), label.bytes()) {
        Ok(())
    } else {
        Err(SetRefusal::Denied {
            context: label.share()?,
        })
    }
}

/// The name, if it is legal.
pub fn legal_name(name: &[u8]) -> Result<PropName<'_>, SetRefusal>
    ensures answer { IsAnswer result (only_if (not (is_legal_name name.entry.now)) SetRefusal.InvalidName) }
    ensures same { IfOk result (λ legal. legal.bytes ≡ name.entry) }
{
    match PropName::of(name) {
        Some(legal) => Ok(legal),
        None => Err(SetRefusal::InvalidName),
    }
}

/// The value, if it is legal under the name.
fn legal_value<'a>(name: PropName<'_>, value: &'a [u8]) -> Result<PropValue<'a>, SetRefusal>
    ensures answer { IsAnswer result (bad_value (value_fault_under name.entry.bytes.now value.entry.now)) }
    ensures same { IfOk result (λ legal. legal.bytes ≡ value.entry) }
    ensures legal { OnOk result (LegalValue name.entry.bytes.now value.entry.now) }
{
    match PropValue::under(name, value) {
        Ok(value) => Ok(value),
        Err(BadValue::TooLong { len }) => Err(SetRefusal::ValueTooLong { len: len as u64 }),
        Err(BadValue::NotUtf8) => Err(SetRefusal::NotUtf8),
    }
}

/// Whether the property may be set again: one that is read only may not.
fn check_read_only<S: PropStore>(store: &mut S, name: PropName<'_>) -> Result<(), SetRefusal>
    ensures answer { IsAnswer result (read_only (S.meaning store.old) name.entry.bytes.now) }
    ensures once { OnOk result (MayBeSet (S.meaning store.old) name.entry.bytes.now) }
    ensures same { S.meaning store.new ≡ S.meaning store.old }
    ensures told { S.told store.new ≡ S.told store.old }
    ensures beside { S.Beside store.old store.new }
{
    if !name.is_read_only() {
        return Ok(());
    }
    match store.number_of(name) {
        Some(number) => Err(SetRefusal::ReadOnly { number }),
        None => Ok(()),
    }
}

/// Whether there is room for a set by a value of so many bytes.
fn check_room<S: PropStore>(store: &mut S, name: PropName<'_>, len: usize) -> Result<(), SetRefusal>
    ensures answer { IsAnswer result (no_room (full_for (S.meaning store.old) name.entry.bytes.now len)) }
    ensures room { OnOk result (full_for (S.meaning store.old) name.entry.bytes.now len ≡ None) }
    ensures same { S.meaning store.new ≡ S.meaning store.old }
    ensures told { S.told store.new ≡ S.told store.old }
    ensures beside { S.Beside store.old store.new }
{
    match store.room(name, len) {
        Ok(()) => Ok(()),
        Err(Full::Words { used, need }) => Err(SetRefusal::AreaFull { used, need }),
        Err(Full::Numbers { last }) => Err(SetRefusal::NumberSpent { last }),
    }
}

/// Whether there is a reason against a set of a property with a legal name, which is no control name.
fn judge_named<'a, S: PropStore>(
    policy: &Policy,
    store: &mut S,
    by: Option<&Text>,
    name: PropName<'a>,
    value: &'a [u8],
) -> Result<PropValue<'a>, SetRefusal>
    ensures answer { IsAnswer result
        (first_of (property_refusals policy.now (S.meaning store.old) (option_copied by.entry) name.entry.bytes.now value.entry.now)) }
    ensures value { IfOk result (λ legal. legal.bytes ≡ value.entry) }
    ensures legal { OnOk result (LegalValue name.entry.bytes.now value.entry.now) }
    ensures once { OnOk result (MayBeSet (S.meaning store.old) name.entry.bytes.now) }
    ensures room { OnOk result (full_for (S.meaning store.old) name.entry.bytes.now (length value.entry.now) ≡ None) }
    ensures same { S.meaning store.new ≡ S.meaning store.old }
    ensures told { S.told store.new ≡ S.told store.old }
    ensures beside { S.Beside store.old store.new }
{
    let context = policy.context_of(name);
    check_context(policy, by, context)?;
    if !check_type(&context.kind, value) {
        return Err(SetRefusal::InvalidType);
    }
    let legal = legal_value(name, value)?;
    check_read_only(store, name)?;
    check_room(store, name, value.len())?;
    Ok(legal)
}

/// Whether there is a reason against a set of a name that is no control name.
#[tactic(auto, unfolding(init_machine::specs::Setting::set_answer))]
pub fn judge<'a, S: PropStore, O: Outputs>(
    parts: &mut Parts<S, O>,
    by: Option<&Text>,
    name: &'a [u8],
    value: &'a [u8],
) -> Result<(PropName<'a>, PropValue<'a>), SetRefusal>
    requires { spec.is_control name.now ≡ false }
    ensures answer { IsAnswer result
        (set_answer (rules_of parts.old) (state_of S.meaning parts.old) (option_copied by.entry) name.entry.now value.entry.now) }
    ensures name { IfOk result (λ pair. pair.0.bytes ≡ name.entry) }
    ensures value { IfOk result (λ pair. pair.1.bytes ≡ value.entry) }
    ensures legal { OnOk result (LegalValue name.entry.now value.entry.now) }
    ensures once { OnOk result (MayBeSet (S.meaning parts.old.store) name.entry.now) }
    ensures room { OnOk result (full_for (S.meaning parts.old.store) name.entry.now (length value.entry.now) ≡ None) }
    ensures same { S.meaning parts.new.store ≡ S.meaning parts.old.store }
    ensures told { S.told parts.new.store ≡ S.told parts.old.store }
    ensures beside { S.Beside parts.old.store parts.new.store }
    ensures rest { parts.new ≡ record parts.old { store = parts.new.store } }
{
    check_up(&parts.over)?;
    let name = legal_name(name)?;
    let value = judge_named(&parts.policy, &mut parts.store, by, name, value)?;
    Ok((name, value))
}
