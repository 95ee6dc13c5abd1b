//! The writer of an area, which is a store of properties.

ghost use Rattle.std.specs.Prelude.{◌≡◌};

use crate::area::{Area, WriterSeat};
use crate::handing::{
    Recording, join_in, open_log, put_in_place, record_entry, split_off, tell_count,
};
use crate::index::Index;
use crate::reader::Reader;
use crate::room::check_room;
use crate::store::{look_up, number_of, set, words_needed};
use crate::view::AreaView;
use atomic_table::Seat;
use init_base::{ClientId, NoMemory, PropName, PropValue};
use init_machine::{Config, Full, Input, PolicyView, PropStore, check_numbers, has_room_for_any};
use std::alloc::Global;
use std::marker::{Brand, Model};

/// The writer of an area. Each of its sets is seen by the readers while it is made, and none fails for want of memory.
#[derive(Drop)]
pub struct AreaWriter<'a> {
    area: &'a Area,
    seat: Seat<(), AreaView>,
    index: Index,
    used: usize,
    count: u64,
}

impl<'a> Model for AreaWriter<'a> {
    ghost use Rattle.std.specs.Prelude.{◌≡◌, [], length};
    ghost use Rattle.property_trie.specs.Additions.{mark_of};
    ghost use Rattle.property_area.specs.Places.{IsIndex};
    ghost use Rattle.property_area.specs.Seats.{Seated, sets_in, IsWriterView};

    ghost Value = { Seated };

    ghost view = { λ s. record { table = s.seat.table_id; id = s.seat.id; view = s.seat.me.0 } };

    ghost invariant = { λ s. (s.seat.table_id ≡ s.area.now) × (s.seat.me.1 ≡ []) × IsWriterView s.seat.table_id s.seat.me.0
        × (s.used ≡ mark_of (sets_in s.seat.me.0)) × (s.count ≡ length (sets_in s.seat.me.0))
        × IsIndex s.area.now s.seat.me.0 s.index };
}

impl<'a> AreaWriter<'a> {
    /// The writer, with its seat.
    pub fn new(area: &'a Area, seat: WriterSeat) -> AreaWriter<'a>
        requires area { seat.table ≡ area.now }
        ensures { result ≡ seat }
    {
        let WriterSeat { seat, used, count } = seat;
        AreaWriter {
            area,
            seat,
            index: Index::of_sets(count),
            used,
            count,
        }
    }

    /// The seat, as it is.
    pub fn into_seat(self) -> WriterSeat
        ensures { result ≡ self.entry }
    {
        let AreaWriter {
            area: _,
            seat,
            index: _,
            used,
            count,
        } = self;
        WriterSeat { seat, used, count }
    }

    /// The number of words, which is the capacity of the store.
    pub fn words(&self) -> u64
        ensures { result ≡ self.now.view.words }
    {
        self.area.words() as u64
    }
}

impl<'a> AreaWriter<'a> {
    ghost use Rattle.std.specs.Prelude.{◌≡◌, [], IsOkAnd, length, suc};
    ghost use Rattle.property_area.specs.Area.{requests_in, requests_of, out_seat};
    ghost use Rattle.property_area.specs.Seats.{sets_in, IsSameSeated};
    ghost use Rattle.property_area.specs.Readers.{IsIn, handing, handed, taking, synced as with_synced, recording, opening_of, opening_with, ComesNext, IsAnswered, ClientStands, client_of};

    /// Gives a client a reader's seat. It begins with the sets that there are, and with the list that the client had when its
    /// last seat was taken in. It always succeeds.
    pub fn hand_out(&mut self, who: ClientId) -> Result<Reader, NoMemory>
        requires client { IsIn self.old.view who.0 }
        ensures reader { IsOkAnd result (λ reader. (reader.table ≡ self.old.table) × (reader.view ≡ handed who.0 self.old.view)) }
        ensures writer { IsSameSeated self.old self.new × (self.new.view ≡ handing who.0 self.old.view) }
    {
        let number = self.count;
        let seat = split_off::<Brand>(self.area, &mut self.seat, who);
        Ok(Reader { seat, who, number })
    }

    /// Takes a client's seat in, and answers which client it is. What the client was told stands in the sets, at most two of
    /// its reads of a name met a write for each set of the name since its list began, and it has seen no more sets than there
    /// are. The requests in its list are those of the record that are its own, the reader knows the recorded opening, and it
    /// was the one seat that the client had.
    pub fn take_in(&mut self, reader: Reader) -> ClientId
        requires area { reader.table ≡ self.old.table }
        ensures client { result.0 ≡ reader.view.who }
        ensures writer { IsSameSeated self.old self.new × (self.new.view ≡ taking self.old.view reader.view) }
        ensures stands { ClientStands (sets_in self.old.view) (client_of reader.view) }
        ensures requests { requests_in reader.view.list ≡ requests_of reader.view.who self.old.view.log }
        ensures opening { reader.view.opening ≡ self.old.view.opening }
        ensures only { out_seat self.old.view.out reader.view.who ≡ suc reader.id }
    {
        let Reader {
            seat,
            who,
            number: _,
        } = reader;
        join_in::<Brand>(self.area, &mut self.seat, seat);
        put_in_place(self.area, &mut self.seat);
        who
    }

    /// Opens the recorded history, while it is empty and no client has a seat.
    pub fn begin<P: PolicyView>(&mut self, config: &Config, policy: &P)
        requires empty { (self.old.view.log ≡ []) × (self.old.view.out ≡ []) }
        ensures writer { IsSameSeated self.old self.new
            × (self.new.view ≡ opening_with (opening_of config.now (P.lines policy.now) self.old.view.words) self.old.view) }
    {
        open_log::<P, Brand>(self.area, &mut self.seat, config, policy);
    }

    /// Records an entry of this input: the log gets it, and the list of its client gets it as a request, with its answer, its place,
    /// and the counts of sets before and after it. Its outputs are named for proofs alone.
    pub fn note<Q: Recording>(&mut self, _input: &Input)
        requires input { Q.entry.input ≡ _input.now }
        requires next { ComesNext self.old.view Q.entry × IsAnswered Q.entry }
        ensures writer { IsSameSeated self.old self.new × (self.new.view ≡ recording self.old.view Q.entry) }
    {
        record_entry::<Q>(self.area, &mut self.seat);
    }

    /// Tells a client that has no seat how many sets there are, and answers it.
    pub fn synced(&mut self, who: ClientId) -> u64
        requires client { IsIn self.old.view who.0 }
        ensures count { result ≡ length (sets_in self.old.view) }
        ensures writer { IsSameSeated self.old self.new × (self.new.view ≡ with_synced who.0 self.old.view) }
    {
        tell_count::<Brand>(self.area, &mut self.seat, who);
        self.count
    }
}

impl<'a> PropStore for AreaWriter<'a> {
    ghost use Rattle.std.specs.Prelude.{◌≡◌, ◌≤◌, Some, IsOk, OnOk};
    ghost use Rattle.property_area.specs.Seats.{sets_in, store_of, IsSameBeside};
    ghost use Rattle.property_area.specs.impl_laws.Stores.{same_itself, same_on};

    ghost meaning = { λ s. store_of s.view };

    ghost told = { λ s. Some (sets_in s.view) };

    ghost spare = { λ _. 1 };

    ghost Beside = { IsSameBeside };

    fn get(&mut self, name: PropName<'_>, out: &mut [u8]) -> Option<(usize, u64)> {
        look_up(self.area, &mut self.seat, &mut self.index.places, name, out)
    }

    fn number_of(&mut self, name: PropName<'_>) -> Option<u64> {
        number_of(self.area, &mut self.seat, &mut self.index.places, name)
    }

    fn count(&self) -> u64 {
        self.count
    }

    fn used(&self) -> u64 {
        self.used as u64
    }

    fn room(&mut self, name: PropName<'_>, len: usize) -> Result<(), Full> {
        let used = self.used as u64;
        let words = self.area.words() as u64;
        if has_room_for_any(used, len, words) {
            return check_numbers(self.count);
        }
        let need = words_needed(self.area, &mut self.seat, &mut self.index, name, len);
        check_room(need, used, words, self.count)
    }

    fn reserve(&mut self, alloc: Global) -> Result<(), NoMemory>
        ensures always { IsOk result }
        ensures spare { OnOk result (1 ≤ 1) }
        ensures same { store_of self.new.view ≡ store_of self.old.view }
        ensures told { Some (sets_in self.new.view) ≡ Some (sets_in self.old.view) }
        ensures beside { IsSameBeside self.old self.new }
    {
        self.index.prepare(alloc);
        Ok(())
    }

    fn put(&mut self, name: PropName<'_>, value: PropValue<'_>) -> u64 {
        let number = self.count + 1;
        let index = &mut self.index;
        self.used = set(
            self.area,
            &mut self.seat,
            index,
            name,
            number,
            value,
            self.used,
        );
        self.count = number;
        number
    }

    ghost reflexive = { same_itself };

    ghost transitive = { same_on };
}
