//! What a dispatch is asked for.

use init_base::{ClientId, List};
use init_machine::Pair;

/// The sets that a client asks for, in order.
#[derive(Drop)]
pub struct Session {
    pub who: ClientId,
    pub requests: List<Pair>,
}
