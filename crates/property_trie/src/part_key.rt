//! The keys of maps by parts, in the order of siblings.

ghost use Rattle.std.specs.Prelude.{◌≡◌, Some, IfOk, refl};
ghost use Rattle.std.specs.Cmp.{eq_by_cmp_equiv, partial_equiv_from_equiv, po};
ghost use Rattle.std.specs.Ordering.{eq_by_cmp};
ghost use Rattle.property_trie.specs.Parts.{compare_parts as order_of};
ghost use Rattle.property_trie.specs.PartOrder.{parts_total};

use init_base::{NoMemory, Text};
use serial_value::word_of;
use std::alloc::Global;
use std::cmp::Ordering;
use std::marker::Model;

/// The most bytes of a part that is a key.
const MOST: usize = 8191;

/// A part that is a key. Its length, and its first eight bytes as a number, tell most keys apart.
#[derive(Debug, Drop)]
pub struct PartKey {
    text: Text,
    len: usize,
    head: u64,
}

impl Model for PartKey {
    ghost use Rattle.std.specs.Prelude.{ℕ, List};
    ghost use Rattle.property_trie.specs.PartOrder.{IsHeaded};

    ghost Value = { List ℕ };

    ghost view = { λ key. key.text };

    ghost invariant = { λ key. IsHeaded key.text key.len key.head };
}

impl PartKey {
    /// The key of a part. One of 8 KiB or more is want of memory.
    pub fn of(alloc: Global, part: &[u8]) -> Result<PartKey, NoMemory>
        ensures { IfOk result (λ key. key ≡ part.now) }
    {
        if part.len() > MOST {
            return Err(NoMemory);
        }
        Ok(PartKey {
            text: Text::of(alloc, part)?,
            len: part.len(),
            head: word_of(part, 0).swap_bytes(),
        })
    }
}

impl PartialEq for PartKey {
    ghost eq = { eq_by_cmp order_of };

    ghost laws = { partial_equiv_from_equiv (eq_by_cmp_equiv parts_total) };

    fn eq(&self, other: &Self) -> bool {
        self.cmp(other).is_eq()
    }
}

impl Eq for PartKey {
    ghost laws = { eq_by_cmp_equiv parts_total };
}

impl PartialOrd for PartKey {
    ghost partial_cmp = { λ x y. Some (order_of x y) };

    ghost laws = { po parts_total (λ x y. refl) };

    fn partial_cmp(&self, other: &Self) -> Option<Ordering> {
        Some(self.cmp(other))
    }
}

impl Ord for PartKey {
    ghost cmp = { order_of };

    ghost total = { parts_total };

    ghost matches_partial_cmp = { λ x y. refl };

    ghost matches_eq = { λ x y. refl };

    fn cmp(&self, other: &Self) -> Ordering {
        if self.len != other.len {
            return self.len.cmp(&other.len);
        }
        if self.head != other.head {
            return self.head.cmp(&other.head);
        }
        self.text.bytes().cmp(other.text.bytes())
    }
}
