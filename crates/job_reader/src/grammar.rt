//! The grammars of scripts.

/// Which lines a script may have.
#[derive(Clone, Copy, Debug, PartialEq, Eq)]
pub enum Grammar {
    /// All that a script may have.
    Whole,
    /// The same, but that clients only set: no `read`, `sync` and `catch`.
    Sets,
}
