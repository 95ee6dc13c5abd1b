//! Digests in the order in which they were added. Most digests that aren't in it are told by their last byte alone.

ghost use Rattle.std.specs.Prelude.{◌≡◌, ◌%◌, [], is_some, nat_eq, OnOk, OnErr};
ghost use Rattle.std.specs.List.{list_any};
ghost use Rattle.indexmap.specs.IndexSet.{insert_key};

use indexmap::IndexSet;
use init_base::NoMemory;
use std::alloc::Global;
use std::marker::Model;

/// Digests, each once.
#[derive(Drop)]
pub struct DigestSet {
    keys: IndexSet<u64>,
    /// Whether some digest has this last byte.
    marks: [bool; 256],
}

impl Model for DigestSet {
    ghost use Rattle.std.specs.Prelude.{List, ℕ};
    ghost use Rattle.prop_contexts.specs.Digests.{AreMarked};

    ghost Value = { List ℕ };

    ghost view = { λ d. d.keys.keys };

    ghost invariant = { λ d. AreMarked d.keys.keys d.marks };
}

/// The last byte of a digest.
fn last_byte(digest: u64) -> usize
    ensures { result ≡ digest % 256 }
{
    (digest % 256) as usize
}

impl DigestSet {
    /// No digests.
    pub fn new(alloc: Global) -> DigestSet
        ensures { result ≡ [] }
    {
        DigestSet {
            keys: IndexSet::new(alloc),
            marks: [false; 256],
        }
    }

    /// Adds a digest, if it isn't there.
    pub fn insert(&mut self, digest: u64) -> Result<(), NoMemory>
        ensures added { OnOk result (self.new ≡ insert_key nat_eq self.old digest) }
        ensures same { OnErr result (self.new ≡ self.old) }
    {
        self.keys.insert(digest)?;
        self.marks[last_byte(digest)] = true;
        Ok(())
    }

    /// Where the digest stands, in the order in which they were added. None exactly where it isn't there.
    pub fn place(&self, digest: u64) -> Option<usize>
        ensures { is_some result ≡ list_any (nat_eq digest) self.now }
    {
        if !self.marks[last_byte(digest)] {
            return None;
        }
        self.keys.get_index_of(&digest)
    }
}
