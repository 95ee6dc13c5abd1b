//! Why a race ends early.

use init_base::NoMemory;

/// Why a race ended early. The keeper is asked once, behind all actors; nothing is written.
#[derive(Clone, Copy, Debug, PartialEq, Eq)]
pub enum RaceRefusal {
    /// The keeper's call failed: its count of faults rose.
    Keeper,
    NoMemory,
}

impl From<NoMemory> for RaceRefusal {
    ghost use Rattle.std.specs.Prelude.{◌≡◌};
    ghost use Rattle.init_race.specs.declared.refusal.RaceRefusal.TheVariants.{NoMemory as no_memory};

    ghost from_gives = { λ _ refusal. refusal ≡ no_memory };

    fn from(_: NoMemory) -> Self {
        RaceRefusal::NoMemory
    }
}
