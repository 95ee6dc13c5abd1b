//! The services of each class.

ghost use Rattle.std.specs.Prelude.{◌≡◌, ℕ, List as Items, Some, IfOk, OnOk, position};
ghost use Rattle.std.specs.Str.{bytes_eq};
ghost use Rattle.init_machine.specs.Services.{is_of_class};
ghost use Rattle.service_table.specs.Classes.{AreClasses, IsPaired, ends_with, found, placed_if, with_place};

use collections::TextIndex;
use init_base::{List, NoMemory};
use init_machine::ServiceDef;
use std::alloc::Global;

/// The classes in the order in which they are first named, and the places of the services of each.
#[derive(Drop)]
pub(crate) struct Classes {
    pub(crate) names: TextIndex,
    pub(crate) places: Vec<List<usize>>,
}

impl Classes {
    /// The places of the services of a class, which are none where no service is of it.
    pub(crate) fn find(&self, class: &[u8]) -> &[usize]
        requires { IsPaired self.now }
        ensures { result.now ≡ found self.now class.now }
    {
        match self.names.place(class) {
            Some(at) => self.places[at].items(),
            None => &[],
        }
    }

    /// The place of a class, which is added with no services where it isn't there.
    fn ensure(&mut self, alloc: Global, class: &[u8]) -> Result<usize, NoMemory>
        requires { IsPaired self.old }
        ensures paired { OnOk result (IsPaired self.new) }
        ensures place { IfOk result (λ at. position (bytes_eq class.now) self.new.names ≡ Some at) }
        ensures same { OnOk result ((other : Items ℕ) → found self.new other ≡ found self.old other) }
    {
        if let Some(at) = self.names.place(class) {
            return Ok(at);
        }
        let at = self.names.add(class)?;
        self.places.push(List::new(alloc))?;
        Ok(at)
    }

    /// Adds a service to those of a class, unless it is the last one there.
    fn add(&mut self, alloc: Global, class: &[u8], service: usize) -> Result<(), NoMemory>
        requires { IsPaired self.old }
        ensures paired { OnOk result (IsPaired self.new) }
        ensures places { OnOk result
            ((other : Items ℕ) → found self.new other ≡ placed_if (bytes_eq class.now other) service (found self.old other)) }
    {
        let at = self.ensure(alloc, class)?;
        add_place(&mut self.places[at], service)?;
        Ok(())
    }

    /// Adds a service to those of each of its classes.
    fn add_each(&mut self, alloc: Global, def: &ServiceDef, service: usize) -> Result<(), NoMemory>
        requires { IsPaired self.old }
        ensures paired { OnOk result (IsPaired self.new) }
        ensures places { OnOk result
            ((other : Items ℕ) → found self.new other ≡ placed_if (is_of_class other def.now) service (found self.old other)) }
    {
        for class in def.classes.items() {
            self.add(alloc, class.bytes(), service)?;
        }
        Ok(())
    }
}

/// The classes of the services, in one walk over them.
pub(crate) fn index_classes(alloc: Global, defs: &[ServiceDef]) -> Result<Classes, NoMemory>
    ensures { IfOk result (AreClasses defs.now) }
{
    let mut classes = Classes {
        names: TextIndex::new(alloc),
        places: Vec::new(alloc),
    };
    for (at, def) in defs.iter().enumerate() {
        classes.add_each(alloc, def, at)?;
    }
    Ok(classes)
}

fn add_place(places: &mut List<usize>, at: usize) -> Result<(), NoMemory>
    ensures { OnOk result (places.new ≡ with_place at places.old) }
{
    if is_last(places.items(), at) {
        return Ok(());
    }
    places.push(at)?;
    Ok(())
}

fn is_last(places: &[usize], at: usize) -> bool
    ensures { result ≡ ends_with at places.now }
{
    match places.last() {
        Some(last) => *last == at,
        None => false,
    }
}

pub(crate) fn copied(alloc: Global, places: &[usize]) -> Result<List<usize>, NoMemory>
    ensures { IfOk result (λ copy. copy ≡ places.now) }
{
    Ok(List::from_vec(Vec::from_slice(alloc, places)?))
}
