//! Why a line of a script is bad.

use init_base::Text;

/// Why a line of a script is bad. Words are as they stand in the line, and lines count from 1.
#[derive(Drop)]
pub enum ScriptCause {
    /// This byte may not stand in a line.
    BadByte {
        byte: u8,
    },
    /// No line begins with this word.
    UnknownWord {
        word: Text,
    },
    /// Behind this word stand more words than it takes, or fewer.
    WrongCount {
        word: Text,
        wanted: usize,
        given: usize,
    },
    /// The word is no number from the least to the most.
    BadNumber {
        given: Text,
        least: u64,
        most: u64,
    },
    /// The word is no q form.
    NotQForm {
        given: Text,
    },
    /// The name, in q form, is no legal name of a property.
    IllegalName {
        name: Text,
    },
    /// Nothing stands behind the name of a client.
    NoRequest,
    /// No request begins with this word.
    UnknownRequest {
        word: Text,
    },
    /// A declaration stands behind an act, of which the first has this line.
    Late {
        act: usize,
    },
    /// The line `first` declares the same: another area, or another path or client of this name, in q form.
    Twice {
        word: Text,
        name: Text,
        first: usize,
    },
    /// As many clients are declared as a script may have.
    TooManyClients,
    /// No line before declares a client of this name, in q form.
    UnknownClient {
        name: Text,
    },
}
