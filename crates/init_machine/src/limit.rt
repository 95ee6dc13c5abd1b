//! Limits on what is read.

/// A limit on what is read.
#[derive(Clone, Copy, Debug, PartialEq, Eq)]
pub enum Limit {
    /// The bytes of one rc file, build file or policy file.
    FileBytes,
    /// The rc files that are read.
    Files,
    /// The names in a listed directory.
    Names,
    /// The bytes of all rc files.
    RcBytes,
    /// The bytes of a script.
    ScriptBytes,
    /// The lines of a script.
    ScriptLines,
    /// The steps of a script.
    Steps,
    /// The bytes of the persistent store.
    StoreBytes,
    /// The bytes of a trace that is audited.
    TraceBytes,
}
