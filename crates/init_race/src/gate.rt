//! Where a race can be held: each actor passes a gate before and after each of its inputs and requests.

use init_base::ClientId;

/// A moment of an actor. The main actor is client 0; `at` counts the actor's own inputs or requests from 0, and the boot isn't
/// counted.
#[derive(Clone, Copy, Debug)]
pub enum Point {
    Before { who: ClientId, at: u32 },
    After { who: ClientId, at: u32 },
}

/// What each actor passes. It answers nothing, and may wait for other actors.
pub trait Gate: Sync {
    fn pass(&self, point: Point);
}

/// A gate that holds nobody.
pub struct OpenGate;

impl Gate for OpenGate {
    fn pass(&self, _: Point) {}
}
