//! The entries of the store: a name, and what is held of it.

ghost use Rattle.std.specs.Prelude.{◌≡◌, ◌+◌, ◌≤◌, not, length, Some, None, take, if◌then◌else◌};
ghost use Rattle.indexmap.specs.IndexMap.{spare};
ghost use Rattle.indexmap.specs.IndexSet as keys;
ghost use Rattle.init_base.specs.Value.{max_value_len};
ghost use Rattle.list_store.specs.internal.Stored.{AreKnown, EachFits, properties, property_of};
ghost use Rattle.init_machine.specs.Props.{lookup_in, number_of as number_in, put_in, is_absent, sizes_of, IsLookUp};
ghost use Rattle.init_machine.specs.Words.{need_of};

use crate::held::Held;
use crate::name::Name;
use crate::nodes::{add, words_of_new};
use indexmap::{IndexMap, IndexSet};
use init_machine::cell_words;

/// Looks a property up: the length of its value, which stands at the front of the buffer then, and the number of its
/// set.
#[tactic(auto, using(crate::proofs::Properties::lookup_property, crate::proofs::Properties::fits_entry))]
pub fn look_up(held: &IndexMap<Name, Held>, name: &[u8], out: &mut [u8]) -> Option<(usize, u64)>
    requires short { length name.now ≤ 255 }
    requires fits { EachFits (properties held.now.entries) }
    requires room { max_value_len name.now ≤ length out.old }
    ensures { IsLookUp (lookup_in (properties held.now.entries) name.now) result out.new }
{
    match held.get(&Name::new(name)) {
        Some(held) => Some(held.read(out)),
        None => None,
    }
}

/// The number of a property's set.
#[tactic(auto, using(crate::proofs::Properties::lookup_property))]
pub fn number_of(held: &IndexMap<Name, Held>, name: &[u8]) -> Option<u64>
    requires { length name.now ≤ 255 }
    ensures { result ≡ number_in (lookup_in (properties held.now.entries) name.now) }
{
    match held.get(&Name::new(name)) {
        Some(held) => Some(held.number()),
        None => None,
    }
}

/// The words that a name needs with a value of so many bytes, where it isn't held. The known prefixes are those of the names
/// that are held.
#[tactic(auto, using(crate::proofs::Properties::absent_property, crate::proofs::Properties::need_absent))]
pub fn need_if_absent(
    held: &IndexMap<Name, Held>,
    known: &IndexSet<Name>,
    name: &[u8],
    len: usize,
) -> Option<u64>
    requires short { length name.now ≤ 255 }
    requires known { AreKnown known.now.keys (properties held.now.entries) }
    ensures { result ≡ (if is_absent (lookup_in (properties held.now.entries) name.now) then Some
        (need_of (sizes_of (properties held.now.entries)) name.now len) else None) }
{
    if held.contains_key(&Name::new(name)) {
        None
    } else {
        Some(cell_words(len) + words_of_new(known, name))
    }
}

/// Puts a property in the place of its name's old one, or at the end, where there is memory for it; and answers how
/// many words that takes. The known prefixes are those of the names that are held, and stay so.
#[tactic(auto, using(crate::proofs::Properties::need_absent, crate::proofs::Properties::need_held))]
pub fn set(
    entries: &mut IndexMap<Name, Held>,
    known: &mut IndexSet<Name>,
    name: &[u8],
    held: Held,
) -> u64
    requires short { length name.now ≤ 255 }
    requires spare { 1 ≤ spare entries.old }
    requires spare_prefixes { 256 ≤ keys.spare known.old }
    requires known { AreKnown known.old.keys (properties entries.old.entries) }
    ensures put { properties entries.new.entries ≡ put_in (properties entries.old.entries) (property_of (name.now, held)) }
    ensures words { result ≡ need_of (sizes_of (properties entries.old.entries)) name.now (length held.0) }
    ensures known { AreKnown known.new.keys (properties entries.new.entries) }
{
    let len = held.len();
    if hold(entries, name, held) {
        cell_words(len) + add(known, name)
    } else {
        0
    }
}

/// Puts what is held of a name in the place of the old, or at the end, where there is memory for it; and answers
/// whether the name is new.
#[tactic(auto, using(crate::proofs::Properties::absent_property, crate::proofs::Properties::put_property))]
fn hold(entries: &mut IndexMap<Name, Held>, name: &[u8], held: Held) -> bool
    requires short { length name.now ≤ 255 }
    requires spare { 1 ≤ spare entries.old }
    ensures new { result ≡ is_absent (lookup_in (properties entries.old.entries) name.now) }
    ensures put { properties entries.new.entries ≡ put_in (properties entries.old.entries) (property_of (name.now, held)) }
{
    match entries.insert(Name::new(name), held) {
        Ok(old) => old.is_none(),
        Err(_) => unreachable!(),
    }
}
