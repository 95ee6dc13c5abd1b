//! What a name misses that is in no set: the writer searches for it, or knows it.

ghost use Rattle.std.specs.Prelude.{◌≡◌, ◌≤◌, [], length, None};
ghost use Rattle.serial_value.specs.declared.view.CellView.TheVariants.{Writer};
ghost use Rattle.serial_value.specs.Cell.{sets_of};
ghost use Rattle.serial_value.specs.Steps.{IsSameSeat};
ghost use Rattle.property_trie.specs.Parts.{parts_of};
ghost use Rattle.property_trie.specs.Tree.{find as find_in};
ghost use Rattle.property_trie.specs.TrieSteps.{SitsAt, IsAtRest, tree_of};
ghost use Rattle.property_trie.specs.Additions.{EndsAbsent, IsAdding, IsMissing};

use crate::rule::{Added, TrieRule};
use crate::walk::{SearchEnd, search};
use atomic_table::{Seat, Table};
use init_base::PropName;
use std::alloc::Global;
use std::marker::Brand;

/// What a name misses, and where the link stands that would lead to the first of it.
#[derive(Clone, Copy, Debug, PartialEq, Eq)]
pub enum Missing {
    /// The cell alone.
    Cell { link: usize },
    /// The nodes of the parts from byte `from` on, and the cell.
    Nodes { link: usize, from: usize },
}

/// Searches what a name misses that is in no set, which changes nothing.
fn search_absent<V, K, R: TrieRule<V, K>, Q: Added>(
    table: &Table<(), V, K, R, Global>,
    seat: &mut Seat<(), V>,
    name: &[u8],
) -> Missing
    requires table { SitsAt seat.old table.now.shared.table_id (R.words seat.old.me.0) }
    requires top { 16 ≤ table.now.shared.table_id.words }
    requires name { (name.now ≡ Q.name) × (length name.now ≤ 255) }
    requires adds { IsAdding (R.cell seat.old.me.0) (R.trie seat.old.me.0) Q.name 0 [] }
    requires rests { IsAtRest (R.trie seat.old.me.0) }
    ensures seat { IsSameSeat seat.old seat.new × (seat.new.me ≡ seat.old.me) }
    ensures missing { IsMissing table.now.shared.table_id.words (sets_of (R.cell seat.old.me.0)) Q.name result }
{
    match search::<V, K, R, Brand>(table, seat, name) {
        SearchEnd::Cell(_) => unreachable!(),
        SearchEnd::NoCell(link) => Missing::Cell { link },
        SearchEnd::NoNode(link, from) => Missing::Nodes { link, from },
    }
}

/// What a name misses that is in no set. The search changes nothing, takes no memory, and waits for nothing.
pub fn search_missing<V, K, R: TrieRule<V, K>>(
    table: &Table<(), V, K, R, Global>,
    seat: &mut Seat<(), V>,
    name: PropName<'_>,
) -> Missing
    requires table { SitsAt seat.old table.now.shared.table_id (R.words seat.old.me.0) }
    requires top { 16 ≤ table.now.shared.table_id.words }
    requires writer { (R.cell seat.old.me.0 ≡ Writer (sets_of (R.cell seat.old.me.0)) None) × IsAtRest (R.trie seat.old.me.0) }
    requires absent { find_in (tree_of (sets_of (R.cell seat.old.me.0))) (parts_of name.bytes.now) ≡ 0 }
    ensures seat { IsSameSeat seat.old seat.new × (seat.new.me ≡ seat.old.me) }
    ensures missing { IsMissing table.now.shared.table_id.words (sets_of (R.cell seat.old.me.0)) name.entry.bytes.now result }
{
    search_absent::<V, K, R, Brand>(table, seat, name.bytes)
}
