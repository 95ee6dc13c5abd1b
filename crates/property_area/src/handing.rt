//! The writer gives a client a reader's seat, takes one in, tells a client that has none how many sets there are, and records the
//! history that it serves.

ghost use Rattle.std.specs.Prelude.{◌≡◌, ℕ, [], IsTrue, None};
ghost use Rattle.init_machine.specs.declared.input.Input.TheVariants.{Boot};
ghost use Rattle.init_machine.specs.declared.report.Entry.{Entry};
ghost use Rattle.serial_value.specs.Steps.{IsSameSeat};
ghost use Rattle.property_area.specs.declared.view.LogOpening.{LogOpening};
ghost use Rattle.property_area.specs.Area.{ArrivalHolds};
ghost use Rattle.property_area.specs.Seats.{sets_in, IsUnmaking, IsStill, IsResting};
ghost use Rattle.property_area.specs.Readers.{IsIn, handing, handed, arriving, put_away, synced, recording, opening_of, opening_with, ComesNext, EachClientStands};

use crate::area::Area;
use crate::view::AreaView;
use atomic_table::{Join, Play, Seat, Split};
use init_base::ClientId;
use init_machine::{Config, PolicyView};
use std::marker::{Brand, PhantomData};

/// What such a step is about, for proofs alone: the client, its seat, and how many words the area has.
pub(crate) trait Handing {
    ghost who: { ℕ };

    ghost seat: { ℕ };

    ghost words: { ℕ };
}

impl Handing for Brand {
    ghost who = { 0 };

    ghost seat = { 0 };

    ghost words = { 0 };
}

/// A client's seat is split off the writer's.
struct HandedOut<Q> {
    marker: PhantomData<Q>,
}

impl<Q: Handing> Split<AreaView> for HandedOut<Q> {
    ghost use Rattle.property_area.specs.Readers.{handing, handed};

    ghost left = { handing Q.who };

    ghost right = { handed Q.who };
}

/// A client's seat comes in.
struct TakenIn<Q> {
    marker: PhantomData<Q>,
}

impl<Q: Handing> Join<AreaView> for TakenIn<Q> {
    ghost use Rattle.property_area.specs.Readers.{arriving, spent};

    ghost both = { arriving Q.seat };

    ghost spent = { spent Q.words };
}

/// A load with which a client is told the count.
struct Told<Q> {
    marker: PhantomData<Q>,
}

impl<Q: Handing> Play<(), AreaView> for Told<Q> {
    ghost use Rattle.std.specs.Prelude.{◌≡◌};
    ghost use Rattle.property_area.specs.Readers.{synced};

    ghost then = { λ st m n after. after ≡ (synced Q.who m.0, m.1) };
}

/// A load that puts the seat away that has come in, and tells what holds of it and of the lists of the clients that have no seat.
struct PutAway;

impl Play<(), AreaView> for PutAway {
    ghost use Rattle.std.specs.Prelude.{◌≡◌};
    ghost use Rattle.property_area.specs.Area.{ArrivalHolds};
    ghost use Rattle.property_area.specs.Seats.{sets_in};
    ghost use Rattle.property_area.specs.Readers.{put_away, EachClientStands};

    ghost then = { λ st m n after. (after ≡ (put_away m.0, m.1)) × EachClientStands (sets_in m.0) m.0.clients × ArrivalHolds m.0 };
}

/// The client's seat, split off the writer's. Which client it is, only the views say.
pub(crate) fn split_off<Q: Handing>(
    area: &Area,
    seat: &mut Seat<(), AreaView>,
    _who: ClientId,
) -> Seat<(), AreaView>
    requires asked { _who.0 ≡ Q.who }
    requires table { seat.old.table_id ≡ area.now }
    requires writer { IsUnmaking seat.old.me.0 × IsStill seat.old.me.0 × IsIn seat.old.me.0 Q.who }
    ensures writer { IsSameSeat seat.old seat.new × (seat.new.me ≡ (handing Q.who seat.old.me.0, seat.old.me.1)) }
    ensures reader { (result.table_id ≡ area.now) × (result.me ≡ (handed Q.who seat.old.me.0, [])) }
{
    area.table.shared.split_seat::<HandedOut<Q>>(seat)
}

/// The client's seat comes in to the writer's. Which seat it is, only the view says.
pub(crate) fn join_in<Q: Handing>(
    area: &Area,
    seat: &mut Seat<(), AreaView>,
    reader: Seat<(), AreaView>,
)
    requires table { (seat.old.table_id ≡ area.now) × (reader.table_id ≡ area.now) × (reader.me.1 ≡ []) }
    requires writer { IsUnmaking seat.old.me.0 × IsStill seat.old.me.0 × (seat.old.me.0.words ≡ Q.words) }
    requires reader { (reader.id ≡ Q.seat) × IsResting reader.me.0 × IsTrue reader.me.0.trie.live }
    ensures seat { IsSameSeat seat.old seat.new }
    ensures view { seat.new.me ≡ (arriving Q.seat seat.old.me.0 reader.me.0, seat.old.me.1) }
{
    area.table.shared.join_seat::<TakenIn<Q>>(seat, reader);
}

/// The client is told the count. Which client it is, only the view says.
pub(crate) fn tell_count<Q: Handing>(area: &Area, seat: &mut Seat<(), AreaView>, _who: ClientId)
    requires asked { _who.0 ≡ Q.who }
    requires table { seat.old.table_id ≡ area.now }
    requires writer { IsUnmaking seat.old.me.0 × IsStill seat.old.me.0 × IsIn seat.old.me.0 Q.who }
    ensures seat { IsSameSeat seat.old seat.new }
    ensures view { seat.new.me ≡ (synced Q.who seat.old.me.0, seat.old.me.1) }
{
    area.table.shared.load::<Told<Q>>(seat, 0);
}

/// The seat that has come in is put away. What it brought holds, and what the clients that have no seat were told stands.
pub(crate) fn put_in_place(area: &Area, seat: &mut Seat<(), AreaView>)
    requires table { seat.old.table_id ≡ area.now }
    requires writer { IsUnmaking seat.old.me.0 }
    ensures seat { IsSameSeat seat.old seat.new × (seat.new.me ≡ (put_away seat.old.me.0, seat.old.me.1)) }
    ensures stand { EachClientStands (sets_in seat.old.me.0) seat.old.me.0.clients }
    ensures arrival { ArrivalHolds seat.old.me.0 }
{
    area.table.shared.load::<PutAway>(seat, 0);
}

/// What a record is about, for proofs alone.
pub trait Recording {
    ghost entry: { Entry };
}

impl Recording for Brand {
    ghost entry = { record { input = Boot; outputs = [] } };
}

/// What a history is opened with, for proofs alone.
pub(crate) trait Opens {
    ghost opening: { LogOpening };
}

impl Opens for Brand {
    ghost use Rattle.property_area.specs.Readers.{no_opening};

    ghost opening = { no_opening };
}

/// A load with which an entry is recorded.
struct Noted<Q> {
    marker: PhantomData<Q>,
}

impl<Q: Recording> Play<(), AreaView> for Noted<Q> {
    ghost use Rattle.std.specs.Prelude.{◌≡◌};
    ghost use Rattle.property_area.specs.Readers.{recording};

    ghost then = { λ st m n after. after ≡ (recording m.0 Q.entry, m.1) };
}

/// A load with which a history is opened.
struct Opened<Q> {
    marker: PhantomData<Q>,
}

impl<Q: Opens> Play<(), AreaView> for Opened<Q> {
    ghost use Rattle.std.specs.Prelude.{◌≡◌};
    ghost use Rattle.property_area.specs.Readers.{opening_with};

    ghost then = { λ st m n after. after ≡ (opening_with Q.opening m.0, m.1) };
}

/// The entry is recorded. What it is, only the view says.
pub(crate) fn record_entry<Q: Recording>(area: &Area, seat: &mut Seat<(), AreaView>)
    requires table { seat.old.table_id ≡ area.now }
    requires writer { IsUnmaking seat.old.me.0 × IsStill seat.old.me.0 × ComesNext seat.old.me.0 Q.entry }
    ensures seat { IsSameSeat seat.old seat.new }
    ensures view { seat.new.me ≡ (recording seat.old.me.0 Q.entry, seat.old.me.1) }
{
    area.table.shared.load::<Noted<Q>>(seat, 0);
}

/// A history is opened. With what, only the view says.
pub(crate) fn open_log<P: PolicyView, Q: Opens>(
    area: &Area,
    seat: &mut Seat<(), AreaView>,
    _config: &Config,
    _policy: &P,
)
    requires asked { Q.opening ≡ opening_of _config.now (P.lines _policy.now) seat.old.me.0.words }
    requires table { seat.old.table_id ≡ area.now }
    requires writer { IsUnmaking seat.old.me.0 × IsStill seat.old.me.0 × (seat.old.me.0.out ≡ []) }
    ensures seat { IsSameSeat seat.old seat.new }
    ensures view { seat.new.me ≡ (opening_with Q.opening seat.old.me.0, seat.old.me.1) }
{
    area.table.shared.load::<Opened<Q>>(seat, 0);
}
