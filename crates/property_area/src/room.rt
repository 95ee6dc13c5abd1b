//! Whether a set has room, by the words that it needs: 0 for a name that is there.

ghost use Rattle.std.specs.Prelude.{◌≡◌};
ghost use Rattle.std.specs.Result.{result_err};
ghost use Rattle.init_machine.specs.Room.{full_with};
ghost use Rattle.property_area.specs.Room.{some_need};

use init_machine::Full;

/// Whether there is room for so many words more, if any are needed, and for another number.
pub(crate) fn check_room(need: u64, used: u64, capacity: u64, last: u64) -> Result<(), Full>
    ensures { result_err result ≡ full_with (some_need need) used capacity last }
{
    let need = if need == 0 { None } else { Some(need) };
    init_machine::check_room(need, used, capacity, last)
}
