//! Lists that several owners share.

ghost use Rattle.std.specs.Prelude.{◌≡◌, IfOk};

use crate::list::List;
use crate::memory::NoMemory;
use std::alloc::Global;
use std::marker::Model;
use std::sync::Arc;

/// Values in order that several owners see, and none changes.
#[derive(Debug, Drop)]
pub struct SharedList<T> {
    items: Arc<Vec<T>>,
}

impl<T> Model for SharedList<T> {
    ghost use Rattle.std.specs.Prelude.{List as Items};
    ghost use Rattle.std.specs.Arc.{arc_value};

    ghost Value = { Items T };

    ghost view = { λ l. (arc_value l.items).items };
}

impl<T> SharedList<T> {
    /// The values of a list, of which no other has a share yet.
    pub fn of(alloc: Global, list: List<T>) -> Result<SharedList<T>, NoMemory>
    where
        T: Drop,
        ensures { IfOk result (λ shared. shared ≡ list) }
    {
        Ok(SharedList {
            items: Arc::new(alloc, list.into_vec())?,
        })
    }

    /// The same values for another owner. It takes no memory, and fails only where as many owners share them as can be counted.
    pub fn share(&self) -> Result<SharedList<T>, NoMemory>
        ensures { IfOk result (λ shared. shared ≡ self.now) }
    {
        Ok(SharedList {
            items: Arc::try_clone(&self.items)?,
        })
    }

    pub fn items(&self) -> &[T]
        ensures { result.now ≡ self.now }
    {
        self.items.as_slice()
    }
}
