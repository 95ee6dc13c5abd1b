//! The rule of the area, and that it meets the laws of cells and of the trie.

use crate::view::AreaView;
use atomic_table::TableRule;
use property_trie::TrieRule;
use serial_value::CellRule;

/// The rule of the area's table. It is told the number of words.
pub struct WordArea;

impl TableRule<(), AreaView, u64> for WordArea {
    ghost use Rattle.property_area.specs.Area.{AreaHolds, begins};

    ghost holds = { λ key s. AreaHolds s };

    ghost first = { begins };
}

impl CellRule<AreaView, u64> for WordArea {
    ghost use Rattle.std.specs.Prelude.{refl};
    ghost use Rattle.property_area.specs.Area.{with_cell as with_area_cell, noted as noted_area, Linked as LinkedArea, Settled as SettledArea};
    ghost use Rattle.property_area.specs.impl_laws.CellSteps.{area_backup, area_dirty, area_value};
    ghost use Rattle.property_area.specs.impl_laws.Accepting.{area_clean};
    ghost use Rattle.property_area.specs.impl_laws.CellLoads.{area_first, area_copied, area_last};
    ghost use Rattle.property_area.specs.impl_laws.Lists.{area_writer, area_lists};

    fn no_call(&self) {}

    ghost cell = { λ v. v.cell };

    ghost with_cell = { with_area_cell };

    ghost part = { record { cell_with = λ v c. refl; with_same = λ v. refl; with_with = λ v c d. refl } };

    ghost began = { λ v. v.began };

    ghost list = { λ v. v.list };

    ghost words = { λ v. v.words };

    ghost noted = { noted_area };

    ghost kept = { record { words_beside = λ v c. refl; words_noted = λ v r. refl } };

    ghost told = { record {
      cell_noted = λ v r. refl;
      list_noted = λ v r. (refl, refl);
      linked_noted = λ v r name place linked. linked;
    } };

    ghost Linked = { LinkedArea };

    ghost Settled = { SettledArea };

    ghost beside = { record {
      list_with = λ v c. (refl, refl);
      linked_with = λ v c name place linked. linked;
      settled_with = λ v name value place done settled. settled;
    } };

    ghost writer_there = { area_writer };

    ghost lists_stand = { area_lists };

    ghost backup_word = { area_backup };

    ghost dirty_serial = { area_dirty };

    ghost value_word = { area_value };

    ghost clean_serial = { area_clean };

    ghost first_serial = { area_first };

    ghost copied_word = { area_copied };

    ghost last_serial = { area_last };
}

impl TrieRule<AreaView, u64> for WordArea {
    ghost use Rattle.std.specs.Prelude.{refl};
    ghost use Rattle.property_area.specs.Area.{with_trie as with_area_trie};
    ghost use Rattle.property_area.specs.impl_laws.Walks.{area_followed, area_length, area_word, area_cell_link};
    ghost use Rattle.property_area.specs.impl_laws.Fresh.{area_fresh};
    ghost use Rattle.property_area.specs.impl_laws.Nodes.{area_node};
    ghost use Rattle.property_area.specs.impl_laws.Linking.{area_linked};

    ghost trie = { λ v. v.trie };

    ghost with_trie = { with_area_trie };

    fn no_trie_call(&self) {}

    ghost trie_with = { λ v t. refl };

    ghost trie_same = { λ v. refl };

    ghost trie_twice = { λ v t u. refl };

    ghost cell_beside = { λ v t. refl };

    ghost trie_beside = { λ v c. refl };

    ghost trie_noted = { λ v r. refl };

    ghost words_stay = { λ v t. refl };

    ghost list_beside = { λ v t. (refl, refl) };

    ghost known_linked = { λ v name place live there. there };

    ghost settled_beside = { λ v t live settled. settled };

    ghost followed_link = { area_followed };

    ghost node_length = { area_length };

    ghost node_word = { area_word };

    ghost cell_link = { area_cell_link };

    ghost fresh_word = { area_fresh };

    ghost interior_link = { area_node };

    ghost property_link = { area_linked };
}
