//! How readers are given back to the writer.

ghost use Rattle.std.specs.Prelude.{◌≡◌, ◌<◌, ◌^◌, ℕ, All, MatchOption, length, true, false};
ghost use Rattle.std.specs.List.{slice_index_or};
ghost use Rattle.property_service.specs.Ending.{HasPart, taking_all};
ghost use Rattle.property_service.specs.Service.{has_seat};

use init_base::{ClientId, List};
use property_area::{AreaWriter, Reader};

/// Takes readers in, the last one first, and notes that their clients have no seat any more.
pub(crate) fn take_in_all(
    writer: &mut AreaWriter<'_>,
    seats: &mut List<bool>,
    mut readers: List<Reader>,
)
    requires area { All (λ reader. reader.table ≡ writer.old.table) readers }
    requires seated { (who : ℕ) → slice_index_or seats.old who false ≡ has_seat writer.old.view who }
    ensures writer { (writer.new.table ≡ writer.old.table) × (writer.new.view ≡ taking_all writer.old.view readers) }
    ensures seated { (who : ℕ) → slice_index_or seats.new who false ≡ has_seat writer.new.view who }
    ensures wide { length seats.new ≡ length seats.old }
    ensures parts { All (HasPart writer.old.view) readers }
{
    while let Some(reader) = readers.pop() {
        let who = writer.take_in(reader);
        seats.set(who.0 as usize, false);
    }
}

/// The first client that has a seat.
pub(crate) fn first_seated(seats: &List<bool>) -> Option<ClientId>
    requires { length seats.now < 2 ^ 32 }
    ensures { MatchOption result ((who : ℕ) → slice_index_or seats.now who false ≡ false)
        (λ first. (slice_index_or seats.now first.0 false ≡ true)
        × ((who : ℕ) → who < first.0 → slice_index_or seats.now who false ≡ false)) }
{
    for (place, has_seat) in seats.items().iter().enumerate() {
        if *has_seat {
            return Some(ClientId(place as u32));
        }
    }
    None
}
