//! What an audit says of a trace.

/// The part of an audit that fails first.
#[derive(Clone, Copy, Debug, PartialEq, Eq)]
pub enum Why {
    /// The mistakes that were found in the files of the tree.
    Diagnostics,
    /// The names and the domains of the clients.
    Clients,
    /// The order of the inputs.
    Merge,
    /// What the machine did.
    Legal,
    /// What the clients read.
    Readings,
}

/// What an audit says of a trace.
#[derive(Clone, Copy, Debug, PartialEq, Eq)]
pub enum Verdict {
    /// The documented machine can have written it.
    Yes,
    /// It can't. The number counts from 1 what the part goes over: diagnostics, clients, or the entries of the history.
    No { why: Why, number: u64 },
}
