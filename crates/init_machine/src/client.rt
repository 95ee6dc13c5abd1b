//! The list of one client of the property area: what it was told, and what it asked, in the order of its calls. No
//! value of these types is made: contracts alone see them.

use crate::input::Input;
use crate::output::Output;
use crate::report::Reading;

/// A request, and where its entry stands in the history.
pub struct ClientRequest {
    pub input: Input,
    /// How a set was answered. An input of the main actor has no answer.
    pub answer: Option<Output>,
    /// The place of its entry: the first entry of the history has place 1.
    pub place: u64,
    /// How many sets there were before its entry.
    pub before: u64,
    /// How many there were after it.
    pub after: u64,
}

/// A thing of a client's list.
pub enum ClientItem {
    /// It was told this.
    Told { reading: Reading },
    /// It asked this.
    Asked { request: ClientRequest },
}
