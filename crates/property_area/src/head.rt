//! Word 0, the area serial: how many sets are accepted.

ghost use Rattle.std.specs.Prelude.{◌≡◌, [], length};
ghost use Rattle.serial_value.specs.Steps.{IsSameSeat};
ghost use Rattle.property_area.specs.Seats.{sets_in, settled_view, IsUnmaking, IsResting};
ghost use Rattle.property_area.specs.Readers.{caught};

use crate::area::Area;
use crate::view::AreaView;
use atomic_table::{Play, Seat};

/// The word of the area serial.
const SERIAL: usize = 0;

/// The store of the area serial.
struct SerialStored;

impl Play<(), AreaView> for SerialStored {
    ghost use Rattle.std.specs.Prelude.{◌≡◌};
    ghost use Rattle.property_area.specs.Seats.{settled_view};

    ghost then = { λ st m n after. after ≡ (settled_view m.0, m.1) };
}

/// Word 0 becomes the number of sets.
pub(crate) fn store_serial(area: &Area, seat: &mut Seat<(), AreaView>, number: u64)
    requires table { seat.old.table_id ≡ area.now }
    requires writer { IsUnmaking seat.old.me.0 × (number ≡ length (sets_in seat.old.me.0)) }
    ensures seat { IsSameSeat seat.old seat.new }
    ensures view { seat.new.me ≡ (settled_view seat.old.me.0, seat.old.me.1) }
{
    area.table
        .shared
        .store::<SerialStored>(seat, SERIAL, number);
}

/// The load of the area serial by a reader.
struct Caught;

impl Play<(), AreaView> for Caught {
    ghost use Rattle.std.specs.Prelude.{◌≡◌};
    ghost use Rattle.property_area.specs.Readers.{caught};

    ghost then = { λ st m n after. after ≡ (caught n m.0, m.1) };
}

/// A reader loads word 0.
pub(crate) fn load_serial(area: &Area, seat: &mut Seat<(), AreaView>) -> u64
    requires table { seat.old.table_id ≡ area.now }
    requires reader { IsResting seat.old.me.0 }
    ensures seat { IsSameSeat seat.old seat.new }
    ensures view { seat.new.me ≡ (caught result seat.old.me.0, seat.old.me.1) }
{
    area.table.shared.load::<Caught>(seat, SERIAL)
}
