//! What is wrong with a line of a store.

use init_base::{BadValue, Text};
use persist_file::Version;

/// What is wrong with a line of the persistent store's text. Lines count from 1.
#[derive(Drop)]
pub enum StoreFault {
    /// The first line is that of no version.
    NoHead,
    /// The line hasn't its version's number of words, with one space between.
    NoWords { version: Version },
    /// The name is no legal name of a property.
    IllegalName { name: Text },
    /// The name doesn't begin with `persist.`.
    NotPersistent { name: Text },
    /// The line before, of this number, has the same name.
    Twice { name: Text, first: u32 },
    /// The line before, of this number, has a later name.
    OutOfOrder { name: Text, behind: u32 },
    /// The type is none of the five.
    NoKind { given: Text },
    /// The value is neither pairs of lower-case hexadecimal digits nor `-`.
    NotHex { given: Text },
    /// The value is no q form.
    NotQuoted { given: Text },
    /// The value is no legal value of a property.
    IllegalValue { fault: BadValue },
    /// The value doesn't pass its type.
    NotTyped { kind: Text, value: Text },
    /// The line doesn't end with LF.
    NoEnd,
}
