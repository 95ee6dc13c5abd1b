//! Why a stream isn't served to its end.

ghost use Rattle.std.specs.Prelude.{◌≡◌};

use init_base::{Failed, IoRefusal, NoMemory};

/// Why a stream isn't served to its end. A place is the number of bytes before it.
#[derive(Clone, Copy, Debug, PartialEq, Eq)]
pub enum WireRefusal {
    /// An earlier call on the desk ran out of memory.
    Spent,
    /// A word that is no form's command follows the messages, at this place.
    BadCommand { at: u64, word: u32 },
    /// A message of form two with a length that is too large follows the messages, at this place.
    BadLength { at: u64, len: u32 },
    /// The stream has more bytes than are served. So many were read.
    TooLong { taken: u64 },
    /// The stream ends within a message, which begins at this place.
    Torn { at: u64 },
    ReadFault,
    WriteFault,
    NoMemory,
}

impl From<NoMemory> for WireRefusal {
    ghost use Rattle.std.specs.Prelude.{◌≡◌};
    ghost use Rattle.prop_wire.specs.declared.refusal.WireRefusal.TheVariants as refusal;

    ghost from_gives = { λ _ answer. answer ≡ refusal.NoMemory };

    fn from(_: NoMemory) -> Self {
        WireRefusal::NoMemory
    }
}

impl From<Failed> for WireRefusal {
    ghost use Rattle.std.specs.Prelude.{◌≡◌};
    ghost use Rattle.prop_wire.specs.declared.refusal.WireRefusal.TheVariants as refusal;

    ghost from_gives = { λ _ answer. answer ≡ refusal.ReadFault };

    fn from(_: Failed) -> Self {
        WireRefusal::ReadFault
    }
}

impl From<IoRefusal> for WireRefusal {
    ghost use Rattle.std.specs.Prelude.{◌≡◌};
    ghost use Rattle.prop_wire.specs.Refusals.{refusal_of};

    ghost from_gives = { λ refused answer. answer ≡ refusal_of refused };

    fn from(refused: IoRefusal) -> Self {
        match refused {
            IoRefusal::Failed => WireRefusal::WriteFault,
            IoRefusal::NoMemory => WireRefusal::NoMemory,
        }
    }
}
