//! The numbers of a report.

/// The numbers of a report.
#[derive(Clone, Copy, Debug, PartialEq, Eq)]
pub struct Tally {
    pub entries: u64,
    /// The accepted sets.
    pub puts: u64,
    pub spawns: u64,
    /// The events taken.
    pub events: u64,
    /// The readings that found a value.
    pub found: u64,
    /// The words that the sets take in an area.
    pub used: u64,
}
