//! Sets by clients, each judged by the domain of its client.

ghost use Rattle.std.specs.Prelude.{◌≡◌, ◌≤◌, OnOk, length};
ghost use Rattle.init_machine.specs.Setting as setting_spec;
ghost use Rattle.init_machine.specs.Step as step_spec;
ghost use Rattle.machine_parts.specs.Parts.{Does, rules_of, state_of};

use init_base::{ClientId, List, NoMemory, Text};
use init_machine::{Output, PropStore, SetRefusal};
use machine_parts::{Parts, set_by};
use outputs::Outputs;
use std::alloc::Global;

fn is_control(name: &[u8]) -> bool
    ensures { result ≡ setting_spec.is_control name.now }
{
    name.starts_with(b"ctl.")
}

/// The domain of a client. The clients are numbered from 1.
fn domain_of(domains: &List<Text>, who: ClientId) -> &Text
    requires from { 1 ≤ who.0 }
    requires to { who.0 ≤ length domains.now }
    ensures { result.now ≡ step_spec.domain_of domains.now who }
{
    &domains.items()[who.0 as usize - 1]
}

fn answer_line(refused: Option<SetRefusal>, is_control: bool, count: u64) -> Output
    ensures { result ≡ step_spec.answer_line refused is_control count }
{
    match refused {
        Some(refusal) => Output::Refused { refusal },
        None if is_control => Output::Control { number: count },
        None => Output::Accepted { number: count },
    }
}

/// A client asks for a property to be set.
fn ask<S: PropStore, O: Outputs>(
    alloc: Global,
    parts: &mut Parts<S, O>,
    domain: &Text,
    name: &Text,
    value: &Text,
) -> Result<(), NoMemory>
    ensures done { OnOk result (Does S.meaning S.told O.Adds parts.old parts.new
        (step_spec.ask (rules_of parts.old) domain.now name.now value.now (state_of S.meaning parts.old))) }
    ensures beside { S.Beside parts.old.store parts.new.store }
{
    let refused = set_by(alloc, parts, Some(domain), name, value)?;
    let count = parts.store.count();
    parts
        .outputs
        .push(answer_line(refused, is_control(name.bytes()), count))
}

/// A client asks for a property to be set, and is judged by the domain of its number.
pub fn set_of_client<S: PropStore, O: Outputs>(
    alloc: Global,
    parts: &mut Parts<S, O>,
    domains: &List<Text>,
    who: ClientId,
    name: &Text,
    value: &Text,
) -> Result<(), NoMemory>
    requires from { 1 ≤ who.0 }
    requires to { who.0 ≤ length domains.now }
    ensures done { OnOk result (Does S.meaning S.told O.Adds parts.old parts.new
        (step_spec.ask (rules_of parts.old) (step_spec.domain_of domains.now who) name.now value.now (state_of S.meaning parts.old))) }
    ensures beside { S.Beside parts.old.store parts.new.store }
{
    ask(alloc, parts, domain_of(domains, who), name, value)
}
