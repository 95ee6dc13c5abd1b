//! What a seat at the area knows. No value of these types is made: contracts alone see them.

use init_machine::{AllowLine, ClientItem, ClientRequest, Config, Context};
use property_trie::TrieView;
use serial_value::{Bytes, CellView, Set};
use std::collections::LinkedList;

/// A name of a property or a prefix of names, and its context.
pub struct LogLine {
    pub name: Bytes,
    pub context: Context,
}

/// What the recorded history was opened with: the configuration, the lines of the policy, and the capacity.
pub struct LogOpening {
    pub config: Config,
    pub default: Context,
    pub exact: LinkedList<LogLine>,
    pub prefixes: LinkedList<LogLine>,
    pub allows: LinkedList<AllowLine>,
    pub capacity: u64,
}

/// An entry of the recorded history: whose input it is, 0 for one that is no set, and the request.
pub struct LogEntry {
    pub who: u64,
    pub request: ClientRequest,
}

/// A client that has no seat now: the sets that there were when it began, and its list.
pub struct Client {
    pub who: u64,
    pub began: LinkedList<Set>,
    pub list: LinkedList<ClientItem>,
}

/// A seat that has just come in: its client, its number, who had which seat before, and the opening that it knows.
pub struct Arrival {
    pub who: u64,
    pub seat: u64,
    pub before: LinkedList<(u64, u64)>,
    pub opening: Option<LogOpening>,
}

/// The writer's part is in `cell`, `head` (the number that word 0 has), `clients` (those that were there and have no seat
/// now), `out` (those that have one, each with the number of its seat), `seats` (how many seats there were), `came` (a seat,
/// while it comes in), `opening` and `log` (the recorded history); a reader's in `cell`, `who` (its client), `began` and
/// `list` (the client's), and `opening`. Of each seat `trie` is what it knows of the trie, and `words` the number of words.
pub struct AreaView {
    pub cell: CellView,
    pub who: u64,
    pub began: LinkedList<Set>,
    pub list: LinkedList<ClientItem>,
    pub trie: TrieView,
    pub words: u64,
    pub head: u64,
    pub clients: LinkedList<Client>,
    pub out: LinkedList<(u64, u64)>,
    pub seats: u64,
    pub came: Option<Arrival>,
    pub opening: Option<LogOpening>,
    pub log: LinkedList<LogEntry>,
}
