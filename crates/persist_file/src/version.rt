//! The versions of the store's text.

ghost use Rattle.std.specs.Prelude.{◌≡◌};
ghost use Rattle.persist_file.specs.Causes as spec;

/// A version of the store's text.
#[derive(Clone, Copy)]
pub enum Version {
    /// Values in hexadecimal, and no types.
    First,
    /// A type beside each value, which a person can read.
    Second,
}

/// The first line of version 1.
const FIRST: &[u8] = b"persist 1";

/// The first line of version 2.
const SECOND: &[u8] = b"persist 2";

/// The version of a first line.
pub fn version_of(line: &[u8]) -> Option<Version>
    ensures { result ≡ spec.version_of line.now }
{
    if line == FIRST {
        Some(Version::First)
    } else if line == SECOND {
        Some(Version::Second)
    } else {
        None
    }
}
