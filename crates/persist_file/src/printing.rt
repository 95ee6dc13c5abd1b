//! Printing a store's text.

ghost use Rattle.std.specs.Prelude.{◌≡◌, ◌++◌, IsTrue, IfOk, OnOk};
ghost use Rattle.init_base.specs.Name.{LegalName};
ghost use Rattle.persist_file.specs.Store.{are_saved, are_typed, ended, entry_under, line_text, store_text};
ghost use Rattle.persist_file.specs.Store as spec;
ghost use Rattle.persist_file.specs.declared.version.Version.TheVariants.{Second};

use crate::kind::{SavedKind, kind_of, kind_word};
use crate::value::put_quoted;
use init_base::{List, NoMemory, PropName, Text};
use init_machine::Pair;
use prop_contexts::Policy;
use std::alloc::Global;

/// The version 2 text of pairs, with the type of each name's context. The first line is always there.
#[tactic(auto, using(crate::proofs::Printed::name_legal))]
pub fn print(alloc: Global, pairs: &List<Pair>, policy: &Policy) -> Result<Text, NoMemory>
    requires saved { IsTrue (are_saved pairs.now) }
    requires typed { IsTrue (are_typed policy.now pairs.now) }
    ensures { IfOk result (λ text. text ≡ store_text policy.now pairs.now) }
{
    let mut page = Vec::new(alloc);
    page.extend_from_slice(b"persist 2\n")?;
    for pair in pairs.items() {
        print_pair(&mut page, pair, policy)?;
    }
    Text::of(alloc, &page)
}

/// Adds the line of a pair.
fn print_pair(page: &mut Vec<u8>, pair: &Pair, policy: &Policy) -> Result<(), NoMemory>
    requires { LegalName pair.now.name }
    ensures { OnOk result (page.new.items ≡ page.old.items ++ ended (line_text Second (entry_under policy.now pair.now))) }
{
    let name = PropName {
        bytes: pair.name.bytes(),
    };
    page.extend_from_slice(name.bytes())?;
    page.push(b' ')?;
    page.extend_from_slice(kind_word(kind_under(policy, name)))?;
    page.push(b' ')?;
    put_quoted(page, pair.value.bytes())?;
    page.push(b'\n')?;
    Ok(())
}

/// The type of a name's context, as the store spells it.
fn kind_under(policy: &Policy, name: PropName<'_>) -> SavedKind
    ensures { result ≡ spec.kind_under policy.now name.entry.bytes.now }
{
    kind_of(&policy.context_of(name).kind)
}
