//! The services that stay of those that were read so far.

ghost use Rattle.std.specs.Prelude.{◌≡◌, [], ◌∷◌, ◌++◌, ℕ, true, false, List as Items, Some, IfOk, OnOk, if◌then◌else◌};
ghost use Rattle.std.specs.List.{list_any};
ghost use Rattle.std.specs.Option.{option_to_list};
ghost use Rattle.std.specs.Str.{bytes_eq};
ghost use Rattle.rc_parse.specs.internal.Merging.{IsVacated, is_placed, place_of, standing};
ghost use Rattle.rc_parse.specs.Kept.{is_again, is_named, merged};

use collections::{Spelled, TextKey};
use indexmap::IndexMap;
use init_base::{List, NoMemory};
use init_machine::ServiceDef;
use std::alloc::Global;
use std::marker::Model;

/// The services that stay, in the order in which they were read, with an index of their names.
#[derive(Drop)]
pub struct Standing {
    /// The services that were read, with nothing in the place of one that a later one overrides.
    slots: List<Option<ServiceDef>>,
    /// The place of each name in `slots`.
    places: IndexMap<TextKey, usize>,
}

impl Model for Standing {
    ghost use Rattle.std.specs.Prelude.{ℕ, List, IsTrue};
    ghost use Rattle.init_machine.specs.declared.service.ServiceDef.{ServiceDef};
    ghost use Rattle.rc_parse.specs.internal.Merging.{is_placed, place_of, standing};

    ghost Value = { List ServiceDef };

    ghost view = { λ s. standing s.slots };

    ghost invariant = { λ s. (name : List ℕ) → IsTrue (is_placed name s.slots (place_of s.places name)) };
}

impl Standing {
    pub fn new(alloc: Global) -> Standing
        ensures { result ≡ [] }
    {
        Standing {
            slots: List::new(alloc),
            places: IndexMap::new(alloc),
        }
    }

    /// Whether one of these services has this name.
    pub fn has_name(&self, name: &[u8]) -> bool
        ensures { result ≡ list_any (is_named name.now) self.now }
    {
        self.places.contains_key(Spelled { bytes: name })
    }

    /// These services and one more, which takes the place of one of its name.
    pub fn with(mut self, alloc: Global, service: ServiceDef) -> Result<Standing, NoMemory>
        requires { is_again self service ≡ false }
        ensures { IfOk result (λ next. next ≡ merged self (service ∷ [])) }
    {
        let place = self.slots.len();
        vacate(&mut self.slots, &self.places, service.name.bytes());
        put_place(&mut self.places, alloc, service.name.bytes(), place)?;
        self.slots.push(Some(service))?;
        Ok(self)
    }

    pub fn into_list(self, alloc: Global) -> Result<List<ServiceDef>, NoMemory>
        ensures { IfOk result (λ services. services ≡ self) }
    {
        filled(alloc, self.slots)
    }
}

/// The services of the slots.
fn filled(alloc: Global, slots: List<Option<ServiceDef>>) -> Result<List<ServiceDef>, NoMemory>
    ensures { IfOk result (λ services. services ≡ standing slots) }
{
    let mut services = List::with_capacity(alloc, slots.len())?;
    for slot in slots.into_vec() {
        push_some(&mut services, slot)?;
    }
    Ok(services)
}

fn push_some(services: &mut List<ServiceDef>, slot: Option<ServiceDef>) -> Result<(), NoMemory>
    ensures { OnOk result (services.new ≡ services.old ++ option_to_list slot) }
{
    match slot {
        Some(service) => services.push(service),
        None => Ok(()),
    }
}

/// Empties the slot of a name.
fn vacate(slots: &mut List<Option<ServiceDef>>, places: &IndexMap<TextKey, usize>, name: &[u8])
    requires { is_placed name.now slots.old (place_of places.now name.now) ≡ true }
    ensures { IsVacated name.now slots.old slots.new }
{
    let Some(place) = places.get(Spelled { bytes: name }) else {
        return;
    };
    slots.set(*place, None);
}

/// Notes the place of a name, in place of an earlier one.
fn put_place(
    places: &mut IndexMap<TextKey, usize>,
    alloc: Global,
    name: &[u8],
    place: usize,
) -> Result<(), NoMemory>
    ensures { OnOk result ((other : Items ℕ)
        → place_of places.new other ≡ (if bytes_eq name.now other then Some place else place_of places.old other)) }
{
    places.insert(TextKey::of(alloc, name)?, place)?;
    Ok(())
}
