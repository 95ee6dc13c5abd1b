//! Whether a set has room, by the words in use and those that it needs: for stores. Why it hasn't is `full_with` of `specs/Room.antt`.

ghost use Rattle.std.specs.Prelude.{◌≡◌, ◌≤◌, ◌+◌, ◌^◌, nat_lt, not};
ghost use Rattle.std.specs.Result.{result_err};
ghost use Rattle.init_machine.specs.Room.{full_with, numbers_full};
ghost use Rattle.init_machine.specs.Words as spec;

use crate::store::Full;

/// The last number that a set can have.
const LAST_NUMBER: u64 = 36028797018963967;

/// The words that the nodes of any name need at most: a node of a part of 255 bytes for each of 256 prefixes.
const MOST_NODE_WORDS: u64 = 9472;

/// The words of a short cell: a serial and twelve value words.
const SHORT_CELL: u64 = 13;

/// The most bytes of a value in a short cell.
const MOST_SHORT: usize = 91;

/// The words of a long cell beside those of its value: a serial and the length.
const LONG_HEAD: u64 = 2;

/// The words of the cell of a value of so many bytes.
pub fn cell_words(len: usize) -> u64
    ensures words { result ≡ spec.cell_words len }
    ensures fits { result ≤ 2 ^ 61 + 2 }
{
    if len <= MOST_SHORT {
        SHORT_CELL
    } else {
        LONG_HEAD + (len as u64).div_ceil(8)
    }
}

/// Whether there are words left for any name with a value of so many bytes.
pub fn has_room_for_any(used: u64, len: usize, capacity: u64) -> bool
    ensures { result ≡ not (nat_lt capacity (used + (9472 + spec.cell_words len))) }
{
    !is_past(used, MOST_NODE_WORDS + cell_words(len), capacity)
}

/// Whether there is room for so many words more, if any are needed, and for another number.
pub fn check_room(need: Option<u64>, used: u64, capacity: u64, last: u64) -> Result<(), Full>
    ensures { result_err result ≡ full_with need used capacity last }
{
    match need {
        Some(need) if is_past(used, need, capacity) => Err(Full::Words { used, need }),
        _ => check_numbers(last),
    }
}

/// Whether the words in use and those that are needed together pass the capacity.
fn is_past(used: u64, need: u64, capacity: u64) -> bool
    ensures { result ≡ nat_lt capacity (used + need) }
{
    need > capacity || used > capacity - need
}

/// Whether there is a number for another set, where the last one had this number.
pub fn check_numbers(last: u64) -> Result<(), Full>
    ensures { result_err result ≡ numbers_full last }
{
    if last == LAST_NUMBER {
        Err(Full::Numbers { last })
    } else {
        Ok(())
    }
}
