//! Services that were just declared.

ghost use Rattle.std.specs.Prelude.{◌≡◌, IsTrue, IfOk, map};
ghost use Rattle.init_machine.specs.Marks.{first_marks};
ghost use Rattle.init_machine.specs.WellFormed.{are_distinct};
ghost use Rattle.service_table.specs.Table.{names_of};

use collections::TextIndex;
use init_base::{Millis, NoMemory};
use init_machine::{Marks, ServiceDef};
use std::alloc::Global;

/// The names, each at the place of its service.
pub(crate) fn index_names(alloc: Global, defs: &[ServiceDef]) -> Result<TextIndex, NoMemory>
    requires { IsTrue (are_distinct (names_of defs.now)) }
    ensures { IfOk result (λ names. names ≡ names_of defs.now) }
{
    let mut names = TextIndex::new(alloc);
    for def in defs {
        names.add(def.name.bytes())?;
    }
    Ok(names)
}

/// The marks of services that were just declared.
pub(crate) fn first_marks(alloc: Global, defs: &[ServiceDef]) -> Result<Vec<Marks>, NoMemory>
    ensures { IfOk result (λ marks. marks.items ≡ map (λ service. first_marks service.disabled service.oneshot) defs.now) }
{
    let mut marks = Vec::with_capacity(alloc, defs.len())?;
    for def in defs {
        marks.push(first_marks_of(def))?;
    }
    Ok(marks)
}

fn first_marks_of(def: &ServiceDef) -> Marks
    ensures { result ≡ first_marks def.now.disabled def.now.oneshot }
{
    Marks {
        pid: None,
        killed: false,
        disabled: def.disabled,
        declared: def.disabled,
        oneshot: def.oneshot,
        reset: false,
        again: false,
        restarting: false,
        wanted: false,
        started: Millis(0),
    }
}
