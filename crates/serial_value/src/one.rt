//! A table of one cell, whose one name is `a`. It shows that a rule can meet the laws of `CellRule`.

ghost use Rattle.std.specs.Prelude.{◌≡◌, ◌<◌, ◌≤◌, ◌+◌, [], length, IfOk, IsOkAnd};
ghost use Rattle.serial_value.specs.Words.{IsShortValue};
ghost use Rattle.serial_value.specs.Cell.{sets_of, HasShortCell, IsWriter};
ghost use Rattle.serial_value.specs.Steps.{IsSameSeat};
ghost use Rattle.serial_value.specs.One.{the_name, begins, new_reader, HasFirst};

use crate::layout::serial;
use crate::rule::CellRule;
use crate::view::{CellView, Set};
use crate::words::word_of;
use atomic_table::{Seat, Split, Table, TableRule};
use init_base::{NoMemory, PropValue, Text};
use init_machine::ClientItem;
use std::alloc::Global;
use std::collections::LinkedList;

/// What a seat at a table of one cell knows: its part of the cell, the sets that there were when the seat began, and what it
/// was told since. No value of it is made.
pub struct OneView {
    pub cell: CellView,
    pub began: LinkedList<Set>,
    pub list: LinkedList<ClientItem>,
}

/// The rule of that table. It is told the value of the first set.
pub struct OneCell;

impl TableRule<(), OneView, Text> for OneCell {
    ghost use Rattle.serial_value.specs.One.{OneHolds, begins};

    ghost holds = { λ key s. OneHolds s };

    ghost first = { begins };
}

impl CellRule<OneView, Text> for OneCell {
    ghost use Rattle.std.specs.Prelude.{refl};
    ghost use Rattle.serial_value.specs.One.{with_cell as with_one_cell, noted as noted_one, Linked as LinkedOne};
    ghost use Rattle.serial_value.specs.impl_laws.OneBackup.{one_backup};
    ghost use Rattle.serial_value.specs.impl_laws.OneDirty.{one_dirty};
    ghost use Rattle.serial_value.specs.impl_laws.OneValue.{one_value};
    ghost use Rattle.serial_value.specs.impl_laws.OneClean.{one_clean};
    ghost use Rattle.serial_value.specs.impl_laws.OneFirst.{one_first};
    ghost use Rattle.serial_value.specs.impl_laws.OneCopied.{one_copied};
    ghost use Rattle.serial_value.specs.impl_laws.OneLast.{one_last};
    ghost use Rattle.serial_value.specs.impl_laws.OneLists.{one_writer, one_lists};

    fn no_call(&self) {}

    ghost cell = { λ v. v.cell };

    ghost with_cell = { with_one_cell };

    ghost part = { record { cell_with = λ v c. refl; with_same = λ v. refl; with_with = λ v c d. refl } };

    ghost began = { λ v. v.began };

    ghost list = { λ v. v.list };

    ghost words = { λ v. 29 };

    ghost noted = { noted_one };

    ghost kept = { record { words_beside = λ v c. refl; words_noted = λ v r. refl } };

    ghost told = { record {
      cell_noted = λ v r. refl;
      list_noted = λ v r. (refl, refl);
      linked_noted = λ v r name place linked. linked;
    } };

    ghost Linked = { LinkedOne };

    ghost Settled = { λ v. Unit {0} };

    ghost beside = { record {
      list_with = λ v c. (refl, refl);
      linked_with = λ v c name place linked. linked;
      settled_with = λ v name value place done settled. settled;
    } };

    ghost writer_there = { one_writer };

    ghost lists_stand = { one_lists };

    ghost backup_word = { one_backup };

    ghost dirty_serial = { one_dirty };

    ghost value_word = { one_value };

    ghost clean_serial = { one_clean };

    ghost first_serial = { one_first };

    ghost copied_word = { one_copied };

    ghost last_serial = { one_last };
}

/// A table of one cell.
pub type OneTable = Table<(), OneView, Text, OneCell, Global>;

/// The writer's or a reader's seat at it.
pub type OneSeat = Seat<(), OneView>;

/// How a reader's seat is split off the writer's.
struct NewReader;

impl Split<OneView> for NewReader {
    ghost use Rattle.serial_value.specs.One.{new_reader};

    ghost left = { λ v. v };

    ghost right = { new_reader };
}

/// A reader's seat, whose number is the writer's count.
pub fn one_reader(table: &OneTable, seat: &mut OneSeat) -> Result<OneSeat, NoMemory>
    requires table { (seat.old.table_id ≡ table.now.shared.table_id) × (0 < table.now.shared.table_id.words) }
    requires writer { IsWriter seat.old.me.0.cell }
    ensures reader { IsOkAnd result (λ reader. (reader.table_id ≡ seat.old.table_id) × (reader.me ≡ (new_reader seat.old.me.0, []))) }
    ensures writer { IsSameSeat seat.old seat.new × (seat.new.me ≡ seat.old.me) }
{
    Ok(table.shared.split_seat::<NewReader>(seat))
}

/// The words of that table, where the cell has this value under number 1.
fn first_words(value: &[u8]) -> [u64; 29]
    requires { length value.now ≤ 91 }
    ensures words { HasFirst result value.now }
    ensures legal { IsShortValue value.now }
{
    let mut words = [0; 29];
    words[16] = serial(value.len() as u8, 1);
    for k in 0..12 {
        words[17 + k] = word_of(value, k);
    }
    words
}

/// A table whose cell `a` has this value of at most 91 bytes under number 1, and the writer's seat.
pub fn one_cell(alloc: Global, value: PropValue<'_>) -> Result<(OneTable, OneSeat), NoMemory>
    requires short { length value.bytes.now ≤ 91 }
    ensures table { IfOk result (λ made. (made.0.shared.table_id.words ≡ 29) × (made.1.table_id ≡ made.0.shared.table_id)) }
    ensures writer { IfOk result (λ made. made.1.me ≡ (begins value.entry.bytes.now, [])) }
    ensures short { IfOk result (λ made. HasShortCell (sets_of made.1.me.0.cell) the_name) }
{
    let text = Text::of(alloc, value.bytes)?;
    let words = first_words(value.bytes);
    Ok(Table::of_words(alloc, &words, &text)?)
}
