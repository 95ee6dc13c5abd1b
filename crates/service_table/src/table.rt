//! The table.

use crate::class::{Classes, copied, index_classes};
use crate::fresh::{first_marks, index_names};
use crate::operation::step;
use collections::TextIndex;
use init_base::{List, NoMemory};
use init_machine::{Marks, Move, Op, ServiceDef};
use std::alloc::Global;
use std::marker::Model;

/// Services in declared order, and the marks of each.
#[derive(Drop)]
pub struct Table {
    defs: List<ServiceDef>,
    marks: Vec<Marks>,
    names: TextIndex,
    classes: Classes,
}

impl Model for Table {
    ghost use Rattle.service_table.specs.Table.{TableView};

    ghost Value = { TableView };

    ghost use Rattle.std.specs.Prelude.{◌≡◌, length};
    ghost use Rattle.service_table.specs.Classes.{AreClasses};
    ghost use Rattle.service_table.specs.Table.{names_of};

    ghost view = { λ table. record { defs = table.defs; marks = table.marks.items } };

    ghost invariant = { λ table. (table.names ≡ names_of table.defs) × (length table.marks.items ≡ length table.defs)
        × AreClasses table.defs table.classes };
}

impl Table {
    ghost use Rattle.std.specs.Prelude.{◌≡◌, ◌<◌, IsTrue, IfOk, Some, length, slice_get};
    ghost use Rattle.init_machine.specs.WellFormed.{are_distinct};
    ghost use Rattle.service_table.specs.Table.{first_table, move_of, names_of, place_named, places_of_class, with_op};

    /// The table of services that were just declared: the marks are those of the options.
    pub fn new(alloc: Global, defs: List<ServiceDef>) -> Result<Table, NoMemory>
        requires { IsTrue (are_distinct (names_of defs)) }
        ensures { IfOk result (λ table. table ≡ first_table defs) }
    {
        let names = index_names(alloc, defs.items())?;
        let marks = first_marks(alloc, defs.items())?;
        let classes = index_classes(alloc, defs.items())?;
        Ok(Table {
            defs,
            marks,
            names,
            classes,
        })
    }

    /// The number of services.
    pub fn count(&self) -> usize
        ensures { result ≡ length self.now.defs }
    {
        let _ = &self.names;
        self.defs.len()
    }

    /// The place of a service. None exactly where no service has the name.
    pub fn find(&self, name: &[u8]) -> Option<usize>
        ensures { result ≡ place_named self.now name.now }
    {
        self.names.place(name)
    }

    /// The places of the services of a class, in declared order.
    pub fn of_class(&self, alloc: Global, class: &[u8]) -> Result<List<usize>, NoMemory>
        ensures { IfOk result (λ places. places ≡ places_of_class self.now class.now) }
    {
        copied(alloc, self.classes.find(class))
    }

    /// The marks of the service at a place.
    pub fn marks(&self, at: usize) -> Marks
        requires { at < length self.now.defs }
        ensures { slice_get self.now.marks at ≡ Some result }
    {
        self.marks[at]
    }

    /// The definition of the service at a place.
    pub fn def(&self, at: usize) -> &ServiceDef
        requires { at < length self.now.defs }
        ensures { slice_get self.now.defs at ≡ Some result.now }
    {
        &self.defs.items()[at]
    }

    /// Does an operation to the service at a place, and answers what follows from it. It takes no memory.
    pub fn apply(&mut self, at: usize, op: Op) -> Move
        requires { at < length self.old.defs }
        ensures table { self.new ≡ with_op self.old at op }
        ensures todo { result ≡ move_of self.old at op }
    {
        step(&mut self.marks[at], op)
    }
}
