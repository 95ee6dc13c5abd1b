//! Why a call of the kernel is refused.

use init_base::NoMemory;

/// Why no process begins.
#[derive(Clone, Copy, Debug, PartialEq, Eq)]
pub enum SpawnRefusal {
    /// The next pid would pass the last one.
    NoPid,
    NoMemory,
}

impl From<NoMemory> for SpawnRefusal {
    ghost use Rattle.std.specs.Prelude.{◌≡◌};
    ghost use Rattle.model_kernel.specs.declared.refusal.SpawnRefusal.{SpawnRefusal};

    ghost from_gives = { λ _ refusal. refusal ≡ SpawnRefusal.NoMemory };

    fn from(_: NoMemory) -> Self {
        SpawnRefusal::NoMemory
    }
}

/// Why the clock doesn't move.
#[derive(Clone, Copy, Debug, PartialEq, Eq)]
pub enum TickRefusal {
    /// It would pass its last time.
    TooFar,
    NoMemory,
}

impl From<NoMemory> for TickRefusal {
    ghost use Rattle.std.specs.Prelude.{◌≡◌};
    ghost use Rattle.model_kernel.specs.declared.refusal.TickRefusal.{TickRefusal};

    ghost from_gives = { λ _ refusal. refusal ≡ TickRefusal.NoMemory };

    fn from(_: NoMemory) -> Self {
        TickRefusal::NoMemory
    }
}
