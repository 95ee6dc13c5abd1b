//! A client's seat at an area, which reads.

ghost use Rattle.std.specs.Prelude.{◌≡◌, ◌≤◌, [], max, length, None};
ghost use Rattle.init_base.specs.Value.{max_value_len};
ghost use Rattle.init_machine.specs.Orderly.{seen_again};
ghost use Rattle.serial_value.specs.Steps.{IsSameSeat};
ghost use Rattle.property_area.specs.Seats.{IsReaderView, KnowsStill};
ghost use Rattle.property_area.specs.Readers.{Reads, seen_in};

use crate::area::Area;
use crate::head::load_serial;
use crate::view::AreaView;
use atomic_table::Seat;
use init_base::{ClientId, PropName};
use property_trie::find;
use serial_value::{CellAnswer, parts, read_cell, reader_history};
use std::marker::Model;

/// What one attempt to read a property tells.
#[derive(Clone, Copy, Debug, PartialEq, Eq)]
pub enum ReadAnswer {
    /// The value has this length and stands at the front of the buffer; the property has it after so many sets.
    Found {
        len: u16,
        number: u64,
    },
    /// The property is absent after so many sets.
    Absent {
        number: u64,
    },
    /// The read met a write: the two serials that it loaded differ.
    Again {
        number: u64,
        first: u64,
        second: u64,
    },
}

/// A client's seat. It takes no lock and no memory, and waits for nothing.
#[derive(Drop)]
pub struct Reader {
    pub(crate) seat: Seat<(), AreaView>,
    pub(crate) who: ClientId,
    pub(crate) number: u64,
}

impl Model for Reader {
    ghost use Rattle.std.specs.Prelude.{◌≡◌, []};
    ghost use Rattle.property_area.specs.Seats.{Seated, IsReaderView};

    ghost Value = { Seated };

    ghost view = { λ r. record { table = r.seat.table_id; id = r.seat.id; view = r.seat.me.0 } };

    ghost invariant = { λ r. (r.seat.me.1 ≡ []) × IsReaderView r.seat.table_id r.seat.me.0 r.number × (r.who.0 ≡ r.seat.me.0.who) };
}

/// How many sets a client has seen that had seen `number`, and then met a write with this second serial.
fn seen_then(number: u64, second: u64) -> u64
    ensures { result ≡ seen_again number second }
{
    let (_, own, dirty) = parts(second);
    if dirty { number } else { number.max(own) }
}

/// One attempt to read a property, at a seat that has seen so many sets.
fn read_once(
    area: &Area,
    seat: &mut Seat<(), AreaView>,
    number: u64,
    name: PropName<'_>,
    out: &mut [u8],
) -> ReadAnswer
    requires wide { max_value_len name.bytes.now ≤ length out.old }
    requires reader { (seat.old.table_id ≡ area.now) × (seat.old.me.1 ≡ []) × IsReaderView seat.old.table_id seat.old.me.0 number }
    ensures seat { IsSameSeat seat.old seat.new × (seat.new.me.1 ≡ []) }
    ensures told { Reads seat.old.me.0 name.entry.bytes.now result out.old out.new seat.new.me.0
        × IsReaderView seat.old.table_id seat.new.me.0 (seen_in result) × KnowsStill seat.old.me.0 seat.new.me.0 }
{
    let Some(at) = find(&area.table, seat, name) else {
        return ReadAnswer::Absent { number };
    };
    match read_cell(&area.table, seat, at, name, out) {
        CellAnswer::Found { len, number: own } => ReadAnswer::Found {
            len,
            number: number.max(own),
        },
        CellAnswer::Again { first, second } => ReadAnswer::Again {
            number,
            first,
            second,
        },
    }
}

impl ReadAnswer {
    ghost use Rattle.std.specs.Prelude.{◌≡◌};
    ghost use Rattle.property_area.specs.Readers.{seen_in};

    /// How many sets the reader has seen then.
    fn seen(&self) -> u64
        ensures { result ≡ seen_in self.now }
    {
        match *self {
            ReadAnswer::Found { len: _, number } => number,
            ReadAnswer::Absent { number } => number,
            ReadAnswer::Again {
                number,
                first: _,
                second,
            } => seen_then(number, second),
        }
    }
}

impl Reader {
    ghost use Rattle.std.specs.Prelude.{◌≡◌, ◌≤◌, max, length};
    ghost use Rattle.init_base.specs.Value.{max_value_len};
    ghost use Rattle.serial_value.specs.History.{SomeHistory, FewRanks};
    ghost use Rattle.property_area.specs.Seats.{IsSameReader};
    ghost use Rattle.property_area.specs.Readers.{seen_by, Reads, Catches};

    /// One attempt to read a property. It adds one reading to the client's list, and answers that reading: the value, which
    /// stands at the front of `out` then, or that the property is absent, or that a write was met, exactly where the two
    /// serials that it loaded differ. The buffer has room for any value that is legal under the name.
    pub fn read(&mut self, area: &Area, name: PropName<'_>, out: &mut [u8]) -> ReadAnswer
        requires area { self.old.table ≡ area.now }
        requires wide { max_value_len name.bytes.now ≤ length out.old }
        ensures reader { IsSameReader self.old self.new }
        ensures told { Reads self.old.view name.entry.bytes.now result out.old out.new self.new.view }
    {
        let answer = read_once(area, &mut self.seat, self.number, name, out);
        self.number = answer.seen();
        answer
    }

    /// Loads the area serial, and answers how many sets the reader has seen then.
    pub fn catch_up(&mut self, area: &Area) -> u64
        requires area { self.old.table ≡ area.now }
        ensures reader { IsSameReader self.old self.new }
        ensures told { Catches self.old.view result self.new.view }
    {
        let count = load_serial(area, &mut self.seat);
        self.number = self.number.max(count);
        self.number
    }

    /// What the client was told holds of one history, whose first sets are those that there were when its list began, and its
    /// reads of a name met few writes (`reader_history`). It is one load, and changes nothing.
    pub fn told(&mut self, area: &Area)
        requires area { self.old.table ≡ area.now }
        ensures reader { self.new ≡ self.old }
        ensures history { SomeHistory self.old.view.cell self.old.view.began self.old.view.list }
        ensures few { FewRanks self.old.view.cell self.old.view.began self.old.view.list }
    {
        reader_history(&area.table, &mut self.seat);
    }

    /// How many sets the reader has seen.
    pub fn number(&self) -> u64
        ensures { result ≡ seen_by self.now.view.cell }
    {
        self.number
    }

    /// The client that it reads for.
    pub fn who(&self) -> ClientId
        ensures { result.0 ≡ self.now.view.who }
    {
        self.who
    }
}
