//! Why a call on an object of the outside gave nothing.

use crate::memory::NoMemory;
use std::alloc::AllocError;

/// A fault of the object that was called. It counted the fault.
#[derive(Clone, Copy, Debug, PartialEq, Eq)]
pub struct Failed;

/// Why a write was refused.
#[derive(Clone, Copy, Debug, PartialEq, Eq)]
pub enum IoRefusal {
    Failed,
    NoMemory,
}

impl From<NoMemory> for IoRefusal {
    ghost use Rattle.std.specs.Prelude.{◌≡◌};
    ghost use Rattle.init_base.specs.declared.outside.refusal.IoRefusal.TheVariants.{NoMemory as io_no_memory};

    ghost from_gives = { λ _ refusal. refusal ≡ io_no_memory };

    fn from(_: NoMemory) -> Self {
        IoRefusal::NoMemory
    }
}

impl From<Failed> for IoRefusal {
    ghost use Rattle.std.specs.Prelude.{◌≡◌};
    ghost use Rattle.init_base.specs.declared.outside.refusal.IoRefusal.TheVariants.{Failed as io_failed};

    ghost from_gives = { λ _ refusal. refusal ≡ io_failed };

    fn from(_: Failed) -> Self {
        IoRefusal::Failed
    }
}

/// Why a text of the outside was not read.
#[derive(Clone, Copy, Debug, PartialEq, Eq)]
pub enum ReadRefusal {
    Failed,
    TooLarge,
    NoMemory,
}

/// What is found at a path of a tree: None where it isn't there.
pub type Found<T> = Result<Option<T>, ReadRefusal>;

impl From<NoMemory> for ReadRefusal {
    ghost use Rattle.std.specs.Prelude.{◌≡◌};
    ghost use Rattle.init_base.specs.declared.outside.refusal.ReadRefusal.TheVariants.{NoMemory as read_no_memory};

    ghost from_gives = { λ _ refusal. refusal ≡ read_no_memory };

    fn from(_: NoMemory) -> Self {
        ReadRefusal::NoMemory
    }
}

impl From<Failed> for ReadRefusal {
    ghost use Rattle.std.specs.Prelude.{◌≡◌};
    ghost use Rattle.init_base.specs.declared.outside.refusal.ReadRefusal.TheVariants.{Failed as read_failed};

    ghost from_gives = { λ _ refusal. refusal ≡ read_failed };

    fn from(_: Failed) -> Self {
        ReadRefusal::Failed
    }
}

impl From<AllocError> for ReadRefusal {
    ghost use Rattle.std.specs.Prelude.{◌≡◌};
    ghost use Rattle.init_base.specs.declared.outside.refusal.ReadRefusal.TheVariants.{NoMemory as read_no_memory};

    ghost from_gives = { λ _ refusal. refusal ≡ read_no_memory };

    fn from(_: AllocError) -> Self {
        ReadRefusal::NoMemory
    }
}
