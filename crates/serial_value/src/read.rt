//! A read of a cell without a lock: the serial, the words of a short or of a long cell, and the serial again.

ghost use Rattle.std.specs.Prelude.{◌≡◌, ◌≢◌, ◌<◌, ◌≤◌, ◌+◌, ◌*◌, ◌/◌, ◌^◌, length, None};
ghost use Rattle.init_base.specs.Value.{max_value_len};
ghost use Rattle.init_machine.specs.Serial.{top_in};
ghost use Rattle.serial_value.specs.Words.{words_of_len};
ghost use Rattle.serial_value.specs.Cell.{words_place as place_of_words, making_of, HasBegun, ReadsFrom, Gathers, ReadsLong, Answers, Closes};
ghost use Rattle.serial_value.specs.Steps.{IsSameSeat, HasCell};

use crate::layout::{LONG, TOP_UNIT, parts};
use crate::rule::{Asked, CellRule};
use crate::steps::{copied_word, first_serial, last_serial};
use crate::words::{put_cut_word, put_word, unpack};
use atomic_table::{Seat, Table};
use init_base::PropName;
use std::alloc::Global;
use std::marker::Brand;

/// Where the backup's twelve words lie.
const BACKUP: usize = 4;

/// What one read answers.
#[derive(Clone, Copy, Debug, PartialEq, Eq)]
pub enum CellAnswer {
    /// Both serials were this one: the value's length, and the number of its set.
    Found { len: u16, number: u64 },
    /// The two serials that were loaded.
    Again { first: u64, second: u64 },
}

/// The first of the twelve words that a read of a short cell copies which loaded this first serial.
pub fn words_place(at: usize, first: u64) -> usize
    requires at { at < 2 ^ 32 }
    requires short { top_in first ≢ 255 }
    ensures { result ≡ place_of_words at first }
{
    if first % 2 == 1 { BACKUP } else { at + 1 }
}

/// Loads the twelve words of a read of a short cell that has begun into an array of the caller's, which isn't moved then.
pub(crate) fn load_words<V, K, R: CellRule<V, K>, Q: Asked>(
    table: &Table<(), V, K, R, Global>,
    seat: &mut Seat<(), V>,
    base: usize,
    words: &mut [u64; 12],
)
    requires table { seat.old.table_id ≡ table.now.shared.table_id }
    requires place { (base + 12 ≤ table.now.shared.table_id.words) × (base < 2 ^ 33) }
    requires linked { R.Linked seat.old.me.0 Q.name Q.place }
    requires reads { ReadsFrom (R.cell seat.old.me.0) Q.name Q.place base }
    ensures seat { IsSameSeat seat.old seat.new }
    ensures view { seat.new.me ≡ (R.with_cell seat.old.me.0 (R.cell seat.new.me.0), seat.old.me.1) }
    ensures wide { length words.new ≡ 12 }
    ensures words { Gathers (R.cell seat.old.me.0) Q.name 12 words.new (R.cell seat.new.me.0) }
{
    for k in 0..12 {
        words[k] = copied_word::<V, K, R, Brand>(table, seat, base + k, k);
    }
}

/// Copies the twelve words of a read of a short cell that has begun.
pub fn copy_words<V, K, R: CellRule<V, K>, Q: Asked>(
    table: &Table<(), V, K, R, Global>,
    seat: &mut Seat<(), V>,
    base: usize,
) -> [u64; 12]
    requires table { seat.old.table_id ≡ table.now.shared.table_id }
    requires place { (base + 12 ≤ table.now.shared.table_id.words) × (base < 2 ^ 33) }
    requires linked { R.Linked seat.old.me.0 Q.name Q.place }
    requires reads { ReadsFrom (R.cell seat.old.me.0) Q.name Q.place base }
    ensures seat { IsSameSeat seat.old seat.new }
    ensures view { seat.new.me ≡ (R.with_cell seat.old.me.0 (R.cell seat.new.me.0), seat.old.me.1) }
    ensures wide { length result ≡ 12 }
    ensures words { Gathers (R.cell seat.old.me.0) Q.name 12 result (R.cell seat.new.me.0) }
{
    let mut words = [0; 12];
    load_words::<V, K, R, Q>(table, seat, base, &mut words);
    words
}

/// What the serials of a short cell say: the value, which is whole, or that a write came between.
pub fn close(first: u64, last: u64, words: &[u64; 12], out: &mut [u8]) -> CellAnswer
    requires wide { 91 ≤ length out.old }
    ensures { Closes first last words.now result out.old out.new }
{
    if first != last {
        return CellAnswer::Again {
            first,
            second: last,
        };
    }
    unpack(words, out);
    let (len, number, _) = parts(last);
    CellAnswer::Found {
        len: len as u16,
        number,
    }
}

/// The rest of a read of a short cell: the twelve words, and the serial again.
fn read_short<V, K, R: CellRule<V, K>, Q: Asked>(
    table: &Table<(), V, K, R, Global>,
    seat: &mut Seat<(), V>,
    at: usize,
    first: u64,
    out: &mut [u8],
) -> CellAnswer
    requires asked { at ≡ Q.place }
    requires table { seat.old.table_id ≡ table.now.shared.table_id }
    requires place { HasCell table.now.shared.table_id at }
    requires linked { R.Linked seat.old.me.0 Q.name Q.place }
    requires begun { HasBegun (R.words seat.old.me.0) (R.cell seat.old.me.0) Q.name Q.place first }
    requires short { top_in first ≢ 255 }
    requires wide { 91 ≤ length out.old }
    ensures seat { IsSameSeat seat.old seat.new × (seat.new.me.1 ≡ seat.old.me.1) }
    ensures answer { Answers R.with_cell R.noted (R.cell seat.old.me.0) seat.old.me.0 Q.name result out.old out.new seat.new.me.0 }
{
    let mut words = [0; 12];
    load_words::<V, K, R, Q>(table, seat, words_place(at, first), &mut words);
    let last = last_serial::<V, K, R, Q>(table, seat, at);
    close(first, last, &words, out)
}

/// Copies those words of a long value that are full into the buffer, the first of which lies at `base`.
fn load_full_words<V, K, R: CellRule<V, K>, Q: Asked>(
    table: &Table<(), V, K, R, Global>,
    seat: &mut Seat<(), V>,
    base: usize,
    len: usize,
    out: &mut [u8],
)
    requires table { seat.old.table_id ≡ table.now.shared.table_id }
    requires place { (base ≡ Q.place + 2) × (base + words_of_len len ≤ table.now.shared.table_id.words) × (base < 2 ^ 33) }
    requires linked { R.Linked seat.old.me.0 Q.name Q.place }
    requires len { (len ≤ 8191) × (len ≤ length out.old) }
    requires reads { ReadsLong (R.cell seat.old.me.0) Q.name Q.place len 0 0 out.old (R.cell seat.old.me.0) }
    ensures seat { IsSameSeat seat.old seat.new }
    ensures view { seat.new.me ≡ (R.with_cell seat.old.me.0 (R.cell seat.new.me.0), seat.old.me.1) }
    ensures words { ReadsLong (R.cell seat.old.me.0) Q.name Q.place len (len / 8) (8 * (len / 8)) out.new (R.cell seat.new.me.0) }
{
    for k in 0..len / 8 {
        let word = copied_word::<V, K, R, Brand>(table, seat, base + k, k + 1);
        put_word(out, k, word);
    }
}

/// Copies the words of a long value into the buffer: the full ones, and what there is of one more.
fn load_value<V, K, R: CellRule<V, K>, Q: Asked>(
    table: &Table<(), V, K, R, Global>,
    seat: &mut Seat<(), V>,
    base: usize,
    len: usize,
    out: &mut [u8],
)
    requires table { seat.old.table_id ≡ table.now.shared.table_id }
    requires place { (base ≡ Q.place + 2) × (base + words_of_len len ≤ table.now.shared.table_id.words) × (base < 2 ^ 33) }
    requires linked { R.Linked seat.old.me.0 Q.name Q.place }
    requires len { (len ≤ 8191) × (len ≤ length out.old) }
    requires reads { ReadsLong (R.cell seat.old.me.0) Q.name Q.place len 0 0 out.old (R.cell seat.old.me.0) }
    ensures seat { IsSameSeat seat.old seat.new }
    ensures view { seat.new.me ≡ (R.with_cell seat.old.me.0 (R.cell seat.new.me.0), seat.old.me.1) }
    ensures words { ReadsLong (R.cell seat.old.me.0) Q.name Q.place len (words_of_len len) len out.new (R.cell seat.new.me.0) }
{
    load_full_words::<V, K, R, Q>(table, seat, base, len, out);
    let full = len / 8;
    if 8 * full == len {
        return;
    }
    let word = copied_word::<V, K, R, Brand>(table, seat, base + full, full + 1);
    put_cut_word(out, full, len - 8 * full, word);
}

/// The rest of a read of a long cell: the length, the words of the value, and the serial again, which is the first one.
fn read_long<V, K, R: CellRule<V, K>, Q: Asked>(
    table: &Table<(), V, K, R, Global>,
    seat: &mut Seat<(), V>,
    at: usize,
    first: u64,
    out: &mut [u8],
) -> CellAnswer
    requires asked { at ≡ Q.place }
    requires table { seat.old.table_id ≡ table.now.shared.table_id }
    requires words { R.words seat.old.me.0 ≡ table.now.shared.table_id.words }
    requires place { HasCell table.now.shared.table_id at }
    requires linked { R.Linked seat.old.me.0 Q.name Q.place }
    requires idle { making_of (R.cell seat.old.me.0) ≡ None }
    requires begun { HasBegun (R.words seat.old.me.0) (R.cell seat.old.me.0) Q.name Q.place first }
    requires long { top_in first ≡ 255 }
    requires wide { max_value_len Q.name ≤ length out.old }
    ensures seat { IsSameSeat seat.old seat.new × (seat.new.me.1 ≡ seat.old.me.1) }
    ensures answer { Answers R.with_cell R.noted (R.cell seat.old.me.0) seat.old.me.0 Q.name result out.old out.new seat.new.me.0 }
{
    let len = copied_word::<V, K, R, Brand>(table, seat, at + 1, 0);
    load_value::<V, K, R, Q>(table, seat, at + 2, len as usize, out);
    let last = last_serial::<V, K, R, Q>(table, seat, at);
    let (_, number, _) = parts(last);
    CellAnswer::Found {
        len: len as u16,
        number,
    }
}

fn read_as<V, K, R: CellRule<V, K>, Q: Asked>(
    table: &Table<(), V, K, R, Global>,
    seat: &mut Seat<(), V>,
    at: usize,
    name: &[u8],
    out: &mut [u8],
) -> CellAnswer
    requires asked { (name.now ≡ Q.name) × (at ≡ Q.place) }
    requires table { seat.old.table_id ≡ table.now.shared.table_id }
    requires words { R.words seat.old.me.0 ≡ table.now.shared.table_id.words }
    requires place { HasCell table.now.shared.table_id at }
    requires linked { R.Linked seat.old.me.0 Q.name Q.place }
    requires idle { making_of (R.cell seat.old.me.0) ≡ None }
    requires wide { max_value_len name.now ≤ length out.old }
    ensures seat { IsSameSeat seat.old seat.new × (seat.new.me.1 ≡ seat.old.me.1) }
    ensures answer { Answers R.with_cell R.noted (R.cell seat.old.me.0) seat.old.me.0 Q.name result out.old out.new seat.new.me.0 }
{
    let first = first_serial::<V, K, R, Q>(table, seat, at);
    if first / TOP_UNIT == LONG {
        read_long::<V, K, R, Q>(table, seat, at, first, out)
    } else {
        read_short::<V, K, R, Q>(table, seat, at, first, out)
    }
}

/// One attempt to read the cell of a name. It loads the serial, the words and the serial again: of a short cell the twelve
/// words of the value, or of the backup where the serial is dirty; of a long cell the length and the words of the value. It
/// takes no lock and waits for nothing. `Found` exactly where both serials are one, and then `out` begins with the value; else
/// `Again` with both, and `out` is as before. On a reader's seat it notes the one reading that it tells.
pub fn read_cell<V, K, R: CellRule<V, K>>(
    table: &Table<(), V, K, R, Global>,
    seat: &mut Seat<(), V>,
    at: usize,
    name: PropName<'_>,
    out: &mut [u8],
) -> CellAnswer
    requires table { seat.old.table_id ≡ table.now.shared.table_id }
    requires words { R.words seat.old.me.0 ≡ table.now.shared.table_id.words }
    requires place { HasCell table.now.shared.table_id at }
    requires linked { R.Linked seat.old.me.0 name.bytes.now at }
    requires idle { making_of (R.cell seat.old.me.0) ≡ None }
    requires wide { max_value_len name.bytes.now ≤ length out.old }
    ensures seat { IsSameSeat seat.old seat.new × (seat.new.me.1 ≡ seat.old.me.1) }
    ensures answer { Answers R.with_cell R.noted
        (R.cell seat.old.me.0) seat.old.me.0 name.entry.bytes.now result out.old out.new seat.new.me.0 }
    ensures linked { R.Linked seat.new.me.0 name.entry.bytes.now at }
    ensures idle { making_of (R.cell seat.new.me.0) ≡ None }
{
    read_as::<V, K, R, Brand>(table, seat, at, name.bytes, out)
}
