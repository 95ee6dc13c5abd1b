//! The files of a directory, in the order of the bytes of their names.

ghost use Rattle.std.specs.Prelude.{◌≡◌, IfOk, OnOk};
ghost use Rattle.init_base.specs.Faults.{Counted};
ghost use Rattle.rc_import.specs.Answers.{HasItsNumber, is_read_fault};
ghost use Rattle.rc_import.specs.internal.Listings.{ListsInOrder};
ghost use Rattle.rc_import.specs.Names as spec;

use crate::loaded::{LoadLimit, LoadRefusal};
use init_base::{Files, List, NoMemory, ReadRefusal, Text};
use std::alloc::Global;

/// One more than the names that a directory may have.
const ONE_NAME_MORE: u64 = 1_025;

/// The names of the files of a directory, in the order in which they are read. None where the path isn't a directory's.
pub fn list<F: Files>(
    alloc: Global,
    files: &mut F,
    dir: &Text,
) -> Result<Option<List<Text>>, LoadRefusal>
    ensures names { ListsInOrder (F.tree files.old) dir.now result }
    ensures number { HasItsNumber result }
    ensures tree { F.tree files.new ≡ F.tree files.old }
    ensures cause { Counted (is_read_fault result) (F.fault_count files.old) (F.fault_count files.new) }
{
    match files.list(alloc, dir.bytes()) {
        Ok(Some(names)) => Ok(Some(in_byte_order(names)?)),
        Ok(None) => Ok(None),
        Err(ReadRefusal::TooLarge) => Err(LoadRefusal::TooLarge {
            path: dir.share()?,
            limit: LoadLimit::Names,
            number: ONE_NAME_MORE,
        }),
        Err(ReadRefusal::Failed) => Err(LoadRefusal::ReadFault),
        Err(ReadRefusal::NoMemory) => Err(LoadRefusal::NoMemory),
    }
}

/// The names in the order of their bytes.
fn in_byte_order(names: List<Text>) -> Result<List<Text>, NoMemory>
    ensures { IfOk result (λ sorted. sorted ≡ spec.in_byte_order names) }
{
    let mut names = names.into_vec();
    names.sort_by(|one, other| one.bytes().cmp(other.bytes()))?;
    Ok(List::from_vec(names))
}
