//! Why bytes are no store.

use init_base::NoMemory;

/// Why a line doesn't fit. Of those that hold of a line the first one is answered. `specs/Causes.antt` says where each holds.
#[derive(Clone, Copy, Debug, PartialEq, Eq)]
pub enum StoreCause {
    /// The first line is that of no version.
    Head,
    /// The line lacks its LF, or hasn't its version's number of words with one space between.
    Shape,
    /// The name isn't legal, or doesn't begin with `persist.`.
    Name,
    /// The name isn't above that of the line before.
    Order,
    /// The type is none of the five.
    Kind,
    /// The value isn't written as its version has it, isn't legal, or doesn't pass its type.
    Value,
}

/// Why bytes are no store.
#[derive(Clone, Copy, Debug, PartialEq, Eq)]
pub enum StoreRefusal {
    /// The first line that doesn't fit, from 1, and why.
    BadLine { line: u32, cause: StoreCause },
    NoMemory,
}

impl From<NoMemory> for StoreRefusal {
    ghost use Rattle.std.specs.Prelude.{◌≡◌};
    ghost use Rattle.persist_file.specs.declared.refusal.StoreRefusal.TheVariants.{NoMemory as no_memory};

    ghost from_gives = { λ _ refusal. refusal ≡ no_memory };

    fn from(_: NoMemory) -> Self {
        StoreRefusal::NoMemory
    }
}
