//! What a reader was told, for every rule that meets `CellRule`.

ghost use Rattle.std.specs.Prelude.{◌≡◌, ◌<◌};
ghost use Rattle.serial_value.specs.Steps.{IsSameSeat};
ghost use Rattle.serial_value.specs.History.{SomeHistory, FewRanks};

use crate::rule::CellRule;
use atomic_table::{Play, Seat, Table};
use std::alloc::Global;
use std::marker::PhantomData;

/// A load that tells what holds of a reader's list.
struct Told<K, R> {
    marker: PhantomData<(K, R)>,
}

impl<V, K, R: CellRule<V, K>> Play<(), V> for Told<K, R> {
    ghost use Rattle.std.specs.Prelude.{◌≡◌};
    ghost use Rattle.serial_value.specs.History.{SomeHistory, FewRanks};

    ghost then = { λ st m n after. (after ≡ m) × SomeHistory (R.cell m.0) (R.began m.0) (R.list m.0)
        × FewRanks (R.cell m.0) (R.began m.0) (R.list m.0) };
}

/// What a reader was told holds of one history, whose first sets are those that there were when the reader began: each
/// reading is true, they are in order, and the reads of one name met at most two writes for each set of the name since. By
/// the serials alone, they met no more writes than there are ranks from the last such set up to the last second serial. It
/// is one load of the first word, and changes nothing.
pub fn reader_history<V, K, R: CellRule<V, K>>(
    table: &Table<(), V, K, R, Global>,
    seat: &mut Seat<(), V>,
)
    requires table { (seat.old.table_id ≡ table.now.shared.table_id) × (0 < table.now.shared.table_id.words) }
    ensures seat { IsSameSeat seat.old seat.new × (seat.new.me ≡ seat.old.me) }
    ensures history { SomeHistory (R.cell seat.old.me.0) (R.began seat.old.me.0) (R.list seat.old.me.0) }
    ensures few { FewRanks (R.cell seat.old.me.0) (R.began seat.old.me.0) (R.list seat.old.me.0) }
{
    table.shared.load::<Told<K, R>>(seat, 0);
}
