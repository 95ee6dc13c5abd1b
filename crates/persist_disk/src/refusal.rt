//! Why a store wasn't opened.

use init_base::{IoRefusal, ReadRefusal};
use persist_file::{StoreCause, StoreRefusal};

/// Why a store wasn't opened.
#[derive(Clone, Copy, Debug, PartialEq, Eq)]
pub enum OpenRefusal {
    /// A fault of the disk, or of the keeper that it is formatted from.
    Failed,
    /// The text that the disk is to be formatted with has more bytes than a slot holds.
    TooLarge,
    /// The chosen slot's length is more than a slot holds, or passes the end of the disk.
    BadSlot { slot: u8, len: u64 },
    NoMemory,
}

impl From<IoRefusal> for OpenRefusal {
    ghost use Rattle.std.specs.Prelude.{◌≡◌};
    ghost use Rattle.persist_disk.specs.Refusing.{of_write};

    ghost from_gives = { λ from refusal. refusal ≡ of_write from };

    fn from(refusal: IoRefusal) -> Self {
        match refusal {
            IoRefusal::Failed => OpenRefusal::Failed,
            IoRefusal::NoMemory => OpenRefusal::NoMemory,
        }
    }
}

impl From<ReadRefusal> for OpenRefusal {
    ghost use Rattle.std.specs.Prelude.{◌≡◌};
    ghost use Rattle.persist_disk.specs.Refusing.{of_read};

    ghost from_gives = { λ from refusal. refusal ≡ of_read from };

    fn from(refusal: ReadRefusal) -> Self {
        match refusal {
            ReadRefusal::Failed => OpenRefusal::Failed,
            ReadRefusal::TooLarge => OpenRefusal::TooLarge,
            ReadRefusal::NoMemory => OpenRefusal::NoMemory,
        }
    }
}

/// Why the pairs of a store weren't read.
#[derive(Clone, Copy, Debug, PartialEq, Eq)]
pub enum ReopenRefusal {
    /// A fault of the disk.
    Failed,
    /// The chosen slot's length is more than a slot holds, or passes the end of the disk.
    BadSlot { slot: u8, len: u64 },
    /// The first line of the text that doesn't fit, from 1, and why.
    BadLine { line: u32, cause: StoreCause },
    NoMemory,
}

impl From<OpenRefusal> for ReopenRefusal {
    ghost use Rattle.std.specs.Prelude.{◌≡◌};
    ghost use Rattle.persist_disk.specs.Refusing.{of_open};

    ghost from_gives = { λ from refusal. refusal ≡ of_open from };

    fn from(refusal: OpenRefusal) -> Self {
        match refusal {
            // The empty text fits each slot.
            OpenRefusal::Failed | OpenRefusal::TooLarge => ReopenRefusal::Failed,
            OpenRefusal::BadSlot { slot, len } => ReopenRefusal::BadSlot { slot, len },
            OpenRefusal::NoMemory => ReopenRefusal::NoMemory,
        }
    }
}

impl From<ReadRefusal> for ReopenRefusal {
    ghost use Rattle.std.specs.Prelude.{◌≡◌};
    ghost use Rattle.persist_disk.specs.Refusing.{of_load};

    ghost from_gives = { λ from refusal. refusal ≡ of_load from };

    fn from(refusal: ReadRefusal) -> Self {
        match refusal {
            // A text of the store fits its slot.
            ReadRefusal::Failed | ReadRefusal::TooLarge => ReopenRefusal::Failed,
            ReadRefusal::NoMemory => ReopenRefusal::NoMemory,
        }
    }
}

impl From<StoreRefusal> for ReopenRefusal {
    ghost use Rattle.std.specs.Prelude.{◌≡◌};
    ghost use Rattle.persist_disk.specs.Refusing.{of_store};

    ghost from_gives = { λ from refusal. refusal ≡ of_store from };

    fn from(refusal: StoreRefusal) -> Self {
        match refusal {
            StoreRefusal::BadLine { line, cause } => ReopenRefusal::BadLine { line, cause },
            StoreRefusal::NoMemory => ReopenRefusal::NoMemory,
        }
    }
}
