//! Why a run ends early.

ghost use Rattle.std.specs.Prelude.{◌≡◌};

use init_base::NoMemory;

/// Why a run ended early.
#[derive(Clone, Copy, Debug, PartialEq, Eq)]
pub enum DriveRefusal {
    /// The keeper's call failed: its count of faults rose.
    Keeper,
    /// A write failed: the sink's count of faults rose.
    Write,
    NoMemory,
}

impl From<NoMemory> for DriveRefusal {
    ghost use Rattle.std.specs.Prelude.{◌≡◌};
    ghost use Rattle.init_driver.specs.declared.refusal.DriveRefusal.TheVariants.{NoMemory as no_memory};

    ghost from_gives = { λ _ refusal. refusal ≡ no_memory };

    fn from(_: NoMemory) -> Self {
        DriveRefusal::NoMemory
    }
}
