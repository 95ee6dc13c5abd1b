//! A message, and what follows the whole messages of a stream.

ghost use Rattle.std.specs.Prelude.{◌≡◌};

use init_base::Text;

/// A client's request to set a property.
#[derive(Debug, Drop)]
pub struct Message {
    /// Whether it is of form two, which has a reply.
    pub second: bool,
    pub name: Text,
    pub value: Text,
}

/// What follows the whole messages of a stream.
#[derive(Clone, Copy, Debug, PartialEq, Eq)]
pub enum Rest {
    /// Nothing.
    End,
    /// So many bytes, which are less than a message.
    Torn { have: u64 },
    /// A word that is no form's command.
    BadCommand { word: u32 },
    /// A message of form two up to a length that is too large.
    BadLength { len: u32 },
}

impl Rest {
    ghost use Rattle.wire_format.specs.Wire.{is_open};

    /// Whether more bytes may make it a message.
    pub(crate) fn is_open(self) -> bool
        ensures { result ≡ is_open self }
    {
        match self {
            Rest::End | Rest::Torn { .. } => true,
            Rest::BadCommand { .. } | Rest::BadLength { .. } => false,
        }
    }
}
