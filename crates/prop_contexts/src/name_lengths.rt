//! How long the names of lines are: most names that have no line are told by their length.

ghost use Rattle.std.specs.Prelude.{◌≡◌, ◌≤◌, ℕ, min, true};
ghost use Rattle.prop_contexts.specs.Lengths.{may_have};

/// Lengths of names. Those of 255 bytes and more count as one.
#[derive(Drop)]
pub struct NameLengths {
    /// The most bytes of a name.
    pub most: usize,
    /// Whether some name has so many bytes.
    pub marks: [bool; 256],
}

/// The place of the mark of a length.
fn mark_of(len: usize) -> usize
    ensures { result ≡ min len 255 }
{
    len.min(255)
}

impl NameLengths {
    /// No lengths.
    pub fn new() -> NameLengths {
        NameLengths {
            most: 0,
            marks: [false; 256],
        }
    }

    /// Adds the length of a name.
    pub fn add(&mut self, len: usize)
        ensures there { may_have self.new len ≡ true }
        ensures others { (other : ℕ) → may_have self.old other ≡ true → may_have self.new other ≡ true }
        ensures most { (len ≤ self.new.most) × (self.old.most ≤ self.new.most) }
    {
        self.most = self.most.max(len);
        self.marks[mark_of(len)] = true;
    }

    /// False only where no name has so many bytes.
    pub fn may_have(&self, len: usize) -> bool
        ensures { result ≡ may_have self.now len }
    {
        self.marks[mark_of(len)]
    }
}
