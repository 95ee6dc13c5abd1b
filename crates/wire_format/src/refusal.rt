//! What feeding may refuse.

use crate::message::Message;
use init_base::{List, NoMemory};

/// Why a piece isn't read on.
#[derive(Debug, Drop)]
pub enum FeedRefusal {
    /// A word that is no form's command follows these messages.
    BadCommand { messages: List<Message>, word: u32 },
    /// A length that is too large follows these messages.
    BadLength { messages: List<Message>, len: u32 },
    /// An earlier piece was refused.
    Over,
    NoMemory,
}

impl From<NoMemory> for FeedRefusal {
    ghost use Rattle.std.specs.Prelude.{◌≡◌};
    ghost use Rattle.wire_format.specs.declared.refusal.FeedRefusal.TheVariants as refusal;

    ghost from_gives = { λ _ answer. answer ≡ refusal.NoMemory };

    fn from(_: NoMemory) -> Self {
        FeedRefusal::NoMemory
    }
}
