//! Where a dispatch can be held: each session passes its pace before and after each push.

/// What a session passes round each push of a request. It returns nothing. It may wait for other sessions, but not for ever: if no
/// thread can be made, they are served one after another.
pub trait Pace: Sync {
    /// Passed once before the first try of a push (`after` is false) and once after the push is done. The session and its pushes
    /// are counted from 0.
    fn pass(&self, session: u32, at: u32, after: bool);
}

/// A pace that holds nobody.
pub struct OpenPace;

impl Pace for OpenPace {
    fn pass(&self, _: u32, _: u32, _: bool) {}
}
