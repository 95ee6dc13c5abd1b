//! Whether a reading is true, by the sets of a history.

ghost use Rattle.std.specs.Prelude.{◌≡◌, ◌↔◌, ◌≤◌, ◌<◌, ℕ, IsTrue, true, false};
ghost use Rattle.std.specs.Prelude.{Some, None, MatchOption, length, List as Items};
ghost use Rattle.std.specs.Option.{option_copied};
ghost use Rattle.init_machine.specs.Facts.{IsSerialOf, MetWrite, Stands};
ghost use Rattle.init_machine.specs.Serial as serial_spec;
ghost use Rattle.init_machine.specs.Sets.{LaterSet, NoneBetween, Numbered};
ghost use Rattle.init_machine.specs.Sets as sets_spec;
ghost use Rattle.trace_audit.specs.Lists.{SomeBetween};

use crate::same::Same;
use crate::serials::{is_dirty, number_in, rank, top_byte, top_in};
use crate::sets::Sets;
use init_base::Text;
use init_machine::Reading;

/// Whether a reading is true where no set is being made.
pub fn stands(sets: &Sets, reading: &Reading) -> bool
    ensures { IsTrue result ↔ Stands sets.now.pairs.items None reading.now }
{
    match reading {
        Reading::Found {
            name,
            number,
            value,
        } => is_found(sets, *number, name, value),
        Reading::Absent { name, number } => is_absent(sets, *number, name),
        Reading::Again {
            name,
            number,
            first,
            second,
        } => met_write(sets, *number, name, *first, *second),
        Reading::Synced { number } | Reading::Caught { number } => is_within(sets, *number),
    }
}

/// Whether there are so many sets.
fn is_within(sets: &Sets, number: u64) -> bool
    ensures { IsTrue result ↔ (number ≤ length sets.now.pairs.items) }
{
    number <= sets.pairs.len() as u64
}

/// The value that a name has after so many sets. None exactly where it has none.
fn value_at<'a>(sets: &'a Sets, number: usize, name: &Text) -> Option<&'a Text>
    requires { number ≤ length sets.now.pairs.items }
    ensures { option_copied result ≡ sets_spec.value_at sets.entry.now.pairs.items number name.now }
{
    let place = sets.last_before(name, number)?;
    let (_, value) = &sets.pairs[place];
    Some(value)
}

fn is_found(sets: &Sets, number: u64, name: &Text, value: &Text) -> bool
    ensures { IsTrue result ↔ ((number ≤ length sets.now.pairs.items)
        × (sets_spec.value_at sets.now.pairs.items number name.now ≡ Some value.now)) }
{
    if !is_within(sets, number) {
        return false;
    }
    match value_at(sets, number as usize, name) {
        Some(found) => found.same(value),
        None => false,
    }
}

fn is_absent(sets: &Sets, number: u64, name: &Text) -> bool
    ensures { IsTrue result ↔ ((number ≤ length sets.now.pairs.items)
        × (sets_spec.value_at sets.now.pairs.items number name.now ≡ None)) }
{
    is_within(sets, number) && value_at(sets, number as usize, name).is_none()
}

/// Whether some set with a number above `low` is of the name.
fn has_later(sets: &Sets, name: &Text, low: u64) -> bool
    ensures later { IsTrue result → LaterSet sets.now.pairs.items name.now low }
    ensures none { result ≡ false → LaterSet sets.now.pairs.items name.now low → ⊥ }
{
    is_within(sets, low) && has_between(sets, name, low as usize, sets.pairs.len())
}

/// Whether some set with a number above `low`, up to `high`, is of the name.
fn has_between(sets: &Sets, name: &Text, low: usize, high: usize) -> bool
    requires { high ≤ length sets.now.pairs.items }
    ensures none { result ≡ false → NoneBetween sets.now.pairs.items name.now low high }
    ensures some { IsTrue result → SomeBetween sets.now.pairs.items name.now low high }
{
    match sets.last_before(name, high) {
        Some(place) => low <= place,
        None => false,
    }
}

/// The value of the set with this number, where it is of the name.
fn numbered<'a>(sets: &'a Sets, number: u64, name: &Text) -> Option<&'a Text>
    ensures { MatchOption result ((value : Items ℕ) → ¬ Numbered sets.entry.now.pairs.items number name.now value)
        (λ value. Numbered sets.entry.now.pairs.items number name.now value.now) }
{
    if number == 0 {
        return None;
    }
    if !is_within(sets, number) {
        return None;
    }
    let (other, value) = &sets.pairs[number as usize - 1];
    if !other.same(name) {
        return None;
    }
    Some(value)
}

/// Whether the cell of a serial is clean, or a later set of the name is there.
fn is_settled(sets: &Sets, name: &Text, word: u64) -> bool
    ensures later { IsTrue result → serial_spec.is_dirty word ≡ true
        → LaterSet sets.now.pairs.items name.now (serial_spec.number_in word) }
    ensures none { result ≡ false
        → (serial_spec.is_dirty word ≡ true) × ¬ LaterSet sets.now.pairs.items name.now (serial_spec.number_in word) }
{
    if !is_dirty(word) {
        return true;
    }
    has_later(sets, name, number_in(word))
}

/// Whether a word is a serial of the name.
fn is_serial_of(sets: &Sets, name: &Text, word: u64) -> bool
    ensures serial { IsTrue result → IsSerialOf sets.now.pairs.items None name.now word }
    ensures none { result ≡ false → IsSerialOf sets.now.pairs.items None name.now word → ⊥ }
{
    let Some(value) = numbered(sets, number_in(word), name) else {
        return false;
    };
    if top_in(word) != top_byte(value) {
        return false;
    }
    is_settled(sets, name, word)
}

/// Whether of two serials of a name that a reader of so many sets met, the second one can be.
fn can_follow(sets: &Sets, number: u64, name: &Text, first: u64, second: u64) -> bool
    requires { number ≤ length sets.now.pairs.items }
    ensures rises { IsTrue result → serial_spec.rank first < serial_spec.rank second }
    ensures clean { IsTrue result → serial_spec.is_dirty second ≡ false → number < serial_spec.number_in second }
    ensures dirty { IsTrue result → serial_spec.is_dirty second ≡ true
        → NoneBetween sets.now.pairs.items name.now (serial_spec.number_in second) number }
    ensures none { result ≡ false → MetWrite sets.now.pairs.items None number name.now first second → ⊥ }
{
    if rank(first) >= rank(second) {
        return false;
    }
    if !is_dirty(second) {
        return number < number_in(second);
    }
    !has_between(sets, name, number_in(second) as usize, number as usize)
}

/// Whether a read that met a write is one that can be.
fn met_write(sets: &Sets, number: u64, name: &Text, first: u64, second: u64) -> bool
    ensures met { IsTrue result → MetWrite sets.now.pairs.items None number name.now first second }
    ensures none { result ≡ false → MetWrite sets.now.pairs.items None number name.now first second → ⊥ }
{
    if !is_within(sets, number) {
        return false;
    }
    if !is_serial_of(sets, name, first) {
        return false;
    }
    if !is_serial_of(sets, name, second) {
        return false;
    }
    can_follow(sets, number, name, first, second)
}
