//! The writer's looks at a name, and its sets, at its own seat.

ghost use Rattle.std.specs.Prelude.{◌≡◌, ◌<◌, ◌≤◌, ◌+◌, ◌^◌, [], ◌∷◌, length, false, None, Some, IfNone, IfSome};
ghost use Rattle.init_base.specs.Value.{LegalValue, max_value_len};
ghost use Rattle.init_machine.specs.Props.{is_absent, lookup_in, number_of as number_in, full_for, IsLookUp, MayBeSet};
ghost use Rattle.init_machine.specs.Words.{cell_words as cell_words_of, need_of};
ghost use Rattle.serial_value.specs.Cell.{HasShortCell};
ghost use Rattle.serial_value.specs.Steps.{IsSameSeat, HasCell};
ghost use Rattle.property_trie.specs.Additions.{mark_of, new_place, IsMissing};
ghost use Rattle.property_trie.specs.Levels.{AreLevels};
ghost use Rattle.property_trie.specs.Parts.{parts_of};
ghost use Rattle.property_trie.specs.Tree.{each_once, find as find_in};
ghost use Rattle.property_trie.specs.TrieSteps.{sizes_of, tree_of};
ghost use Rattle.property_area.specs.Area.{Linked};
ghost use Rattle.property_area.specs.Places.{AreNoted, IsIndex};
ghost use Rattle.property_area.specs.Seats.{sets_in, IsWriterView, IsBeside, IsSet, store_of};

use crate::area::Area;
use crate::head::store_serial;
use crate::index::Index;
use crate::places::Places;
use crate::rule::WordArea;
use crate::view::AreaView;
use atomic_table::Seat;
use init_base::{PropName, PropValue};
use init_machine::cell_words;
use property_trie::{Levels, Missing, add, find, need, search_missing, words_from};
use serial_value::{Asked, CellAnswer, first_serial, parts, read_cell, write_cell};
use std::marker::Brand;

/// The place of the name's cell, as it is noted, or else by a walk, and noted then. None exactly where the name is absent.
fn find_cell(
    area: &Area,
    seat: &mut Seat<(), AreaView>,
    places: &mut Places,
    name: PropName<'_>,
) -> Option<usize>
    requires writer { (seat.old.table_id ≡ area.now) × (seat.old.me.1 ≡ []) × IsWriterView seat.old.table_id seat.old.me.0 }
    requires noted { AreNoted area.now seat.old.me.0.trie.known (store_of seat.old.me.0).held places.old }
    ensures seat { IsSameSeat seat.old seat.new × (seat.new.me.1 ≡ []) × IsWriterView seat.new.table_id seat.new.me.0 }
    ensures view { IsBeside seat.old.me.0 seat.new.me.0 }
    ensures noted { AreNoted area.now seat.new.me.0.trie.known (store_of seat.new.me.0).held places.new }
    ensures cell { IfSome result (λ place. HasCell area.now place × Linked seat.new.me.0 name.entry.bytes.now place) }
    ensures held { IfSome result (λ place. is_absent (lookup_in (store_of seat.old.me.0).held name.entry.bytes.now) ≡ false) }
    ensures absent { IfNone result (lookup_in (store_of seat.old.me.0).held name.entry.bytes.now ≡ None) }
{
    if let Some(place) = places.find(name.bytes) {
        return Some(place);
    }
    if places.whole {
        return None;
    }
    let place = find(&area.table, seat, name)?;
    places.note(name.bytes, place);
    Some(place)
}

/// None exactly where the name is absent; else the length of its value, which stands at the front of `out`, and the number of
/// the set that gave it.
pub(crate) fn look_up(
    area: &Area,
    seat: &mut Seat<(), AreaView>,
    places: &mut Places,
    name: PropName<'_>,
    out: &mut [u8],
) -> Option<(usize, u64)>
    requires writer { (seat.old.table_id ≡ area.now) × (seat.old.me.1 ≡ []) × IsWriterView seat.old.table_id seat.old.me.0 }
    requires noted { AreNoted area.now seat.old.me.0.trie.known (store_of seat.old.me.0).held places.old }
    requires wide { max_value_len name.bytes.now ≤ length out.old }
    ensures seat { IsSameSeat seat.old seat.new × (seat.new.me.1 ≡ []) × IsWriterView seat.new.table_id seat.new.me.0 }
    ensures view { IsBeside seat.old.me.0 seat.new.me.0 }
    ensures noted { AreNoted area.now seat.new.me.0.trie.known (store_of seat.new.me.0).held places.new }
    ensures found { IsLookUp (lookup_in (store_of seat.old.me.0).held name.entry.bytes.now) result out.new }
{
    let at = find_cell(area, seat, places, name)?;
    match read_cell(&area.table, seat, at, name, out) {
        CellAnswer::Found { len, number } => Some((len as usize, number)),
        CellAnswer::Again { .. } => unreachable!(),
    }
}

/// The number of the set that the serial of a name's cell has.
fn number_at<Q: Asked>(area: &Area, seat: &mut Seat<(), AreaView>, at: usize, name: &[u8]) -> u64
    requires asked { (name.now ≡ Q.name) × (at ≡ Q.place) }
    requires writer { (seat.old.table_id ≡ area.now) × (seat.old.me.1 ≡ []) × IsWriterView seat.old.table_id seat.old.me.0 }
    requires cell { HasCell area.now at × Linked seat.old.me.0 name.now at }
    ensures seat { IsSameSeat seat.old seat.new × (seat.new.me ≡ seat.old.me) }
    ensures number { Some result ≡ number_in (lookup_in (store_of seat.old.me.0).held name.now) }
{
    let word = first_serial::<AreaView, u64, WordArea, Q>(&area.table, seat, at);
    let (_, number, _) = parts(word);
    number
}

/// None exactly where the name is absent; else the number of the set that gave its value.
pub(crate) fn number_of(
    area: &Area,
    seat: &mut Seat<(), AreaView>,
    places: &mut Places,
    name: PropName<'_>,
) -> Option<u64>
    requires writer { (seat.old.table_id ≡ area.now) × (seat.old.me.1 ≡ []) × IsWriterView seat.old.table_id seat.old.me.0 }
    requires noted { AreNoted area.now seat.old.me.0.trie.known (store_of seat.old.me.0).held places.old }
    ensures seat { IsSameSeat seat.old seat.new × (seat.new.me.1 ≡ []) × IsWriterView seat.new.table_id seat.new.me.0 }
    ensures view { IsBeside seat.old.me.0 seat.new.me.0 }
    ensures noted { AreNoted area.now seat.new.me.0.trie.known (store_of seat.new.me.0).held places.new }
    ensures number { result ≡ number_in (lookup_in (store_of seat.old.me.0).held name.entry.bytes.now) }
{
    let at = find_cell(area, seat, places, name)?;
    Some(number_at::<Brand>(area, seat, at, name.bytes))
}

/// The words that a set of the name by a value of so many bytes would add, 0 where the name is in a set: by what is noted, or else by
/// a walk.
pub(crate) fn words_needed(
    area: &Area,
    seat: &mut Seat<(), AreaView>,
    index: &mut Index,
    name: PropName<'_>,
    len: usize,
) -> u64
    requires writer { (seat.old.table_id ≡ area.now) × (seat.old.me.1 ≡ []) × IsWriterView seat.old.table_id seat.old.me.0 }
    requires index { IsIndex area.now seat.old.me.0 index.old }
    ensures seat { IsSameSeat seat.old seat.new × (seat.new.me.1 ≡ []) × IsWriterView seat.new.table_id seat.new.me.0 }
    ensures view { IsBeside seat.old.me.0 seat.new.me.0 }
    ensures index { IsIndex area.now seat.new.me.0 index.new }
    ensures need { result ≡ need_of (each_once (sizes_of (sets_in seat.old.me.0))) name.entry.bytes.now len }
{
    if find_cell(area, seat, &mut index.places, name).is_some() {
        return 0;
    }
    match index.levels.missing(name.bytes) {
        Some((_, from)) => words_from(name.bytes, from, len),
        None => need(&area.table, seat, name, len),
    }
}

/// Sets the property at its cell, and then stores the area serial.
fn set_at(
    area: &Area,
    seat: &mut Seat<(), AreaView>,
    at: usize,
    name: PropName<'_>,
    number: u64,
    value: PropValue<'_>,
)
    requires writer { (seat.old.table_id ≡ area.now) × (seat.old.me.1 ≡ []) × IsWriterView seat.old.table_id seat.old.me.0 }
    requires cell { HasCell area.now at × Linked seat.old.me.0 name.bytes.now at }
    requires short { HasShortCell (sets_in seat.old.me.0) name.bytes.now × (length value.bytes.now ≤ 91) }
    requires number { (number ≡ length (sets_in seat.old.me.0) + 1) × (number < 2 ^ 55) }
    ensures seat { IsSameSeat seat.old seat.new × (seat.new.me.1 ≡ []) × IsWriterView seat.new.table_id seat.new.me.0 }
    ensures view { IsSet seat.old.me.0 name.entry.bytes.now value.entry.bytes.now seat.new.me.0 }
    ensures trie { seat.new.me.0.trie ≡ seat.old.me.0.trie }
{
    write_cell(&area.table, seat, at, name, number, value);
    store_serial(area, seat, number);
}

/// What the name misses, which is in no set: by what is noted of its level, or else by a walk.
fn missing_of(
    area: &Area,
    seat: &mut Seat<(), AreaView>,
    levels: &Levels,
    name: PropName<'_>,
) -> Missing
    requires writer { (seat.old.table_id ≡ area.now) × (seat.old.me.1 ≡ []) × IsWriterView seat.old.table_id seat.old.me.0 }
    requires levels { AreLevels (sets_in seat.old.me.0) levels.now }
    requires absent { find_in (tree_of (sets_in seat.old.me.0)) (parts_of name.bytes.now) ≡ 0 }
    ensures seat { IsSameSeat seat.old seat.new × (seat.new.me ≡ seat.old.me) }
    ensures missing { IsMissing area.now.words (sets_in seat.old.me.0) name.entry.bytes.now result }
{
    match levels.missing(name.bytes) {
        Some((link, from)) if link < area.words() => Missing::Nodes { link, from },
        _ => search_missing(&area.table, seat, name),
    }
}

/// Adds the property, which is in no set, and then stores the area serial. It answers the place of its cell.
fn set_new(
    area: &Area,
    seat: &mut Seat<(), AreaView>,
    name: PropName<'_>,
    number: u64,
    value: PropValue<'_>,
    used: usize,
    missing: Missing,
) -> usize
    requires writer { (seat.old.table_id ≡ area.now) × (seat.old.me.1 ≡ []) × IsWriterView seat.old.table_id seat.old.me.0 }
    requires absent { find_in (tree_of (sets_in seat.old.me.0)) (parts_of name.bytes.now) ≡ 0 }
    requires legal { LegalValue name.bytes.now value.bytes.now }
    requires room { new_place (sets_in seat.old.me.0) name.bytes.now
        + cell_words_of (length value.bytes.now) ≤ area.now.words }
    requires number { (number ≡ length (sets_in seat.old.me.0) + 1) × (number < 2 ^ 55) }
    requires used { used ≡ mark_of (sets_in seat.old.me.0) }
    requires missing { IsMissing area.now.words (sets_in seat.old.me.0) name.bytes.now missing }
    ensures seat { IsSameSeat seat.old seat.new × (seat.new.me.1 ≡ []) × IsWriterView seat.new.table_id seat.new.me.0 }
    ensures view { IsSet seat.old.me.0 name.entry.bytes.now value.entry.bytes.now seat.new.me.0 }
    ensures known { seat.new.me.0.trie.known ≡ (name.entry.bytes.now, result) ∷ seat.old.me.0.trie.known }
    ensures place { result ≡ new_place (sets_in seat.old.me.0) name.entry.bytes.now }
    ensures cell { HasCell area.now result }
{
    let place = add(&area.table, seat, name, number, value, used, missing);
    store_serial(area, seat, number);
    place
}

/// Adds the property, which is in no set, and notes it. It answers the first free word.
fn add_property(
    area: &Area,
    seat: &mut Seat<(), AreaView>,
    index: &mut Index,
    name: PropName<'_>,
    number: u64,
    value: PropValue<'_>,
    used: usize,
) -> usize
    requires writer { (seat.old.table_id ≡ area.now) × (seat.old.me.1 ≡ []) × IsWriterView seat.old.table_id seat.old.me.0 }
    requires index { IsIndex area.now seat.old.me.0 index.old }
    requires absent { find_in (tree_of (sets_in seat.old.me.0)) (parts_of name.bytes.now) ≡ 0 }
    requires legal { LegalValue name.bytes.now value.bytes.now }
    requires room { new_place (sets_in seat.old.me.0) name.bytes.now
        + cell_words_of (length value.bytes.now) ≤ area.now.words }
    requires number { (number ≡ length (sets_in seat.old.me.0) + 1) × (number < 2 ^ 55) }
    requires used { used ≡ mark_of (sets_in seat.old.me.0) }
    ensures seat { IsSameSeat seat.old seat.new × (seat.new.me.1 ≡ []) × IsWriterView seat.new.table_id seat.new.me.0 }
    ensures view { IsSet seat.old.me.0 name.entry.bytes.now value.entry.bytes.now seat.new.me.0 }
    ensures index { IsIndex area.now seat.new.me.0 index.new }
    ensures used { result ≡ new_place (sets_in seat.old.me.0) name.entry.bytes.now + cell_words_of (length value.entry.bytes.now) }
{
    let missing = missing_of(area, seat, &index.levels, name);
    let place = set_new(area, seat, name, number, value, used, missing);
    index.places.note(name.bytes, place);
    match missing {
        Missing::Cell { link: _ } => {}
        Missing::Nodes { link: _, from } => index.levels.grow(name.bytes, from, used),
    }
    place + cell_words(value.bytes.len()) as usize
}

/// Sets the property, by an update of its cell or an addition, and then stores the area serial. It answers the first free
/// word.
pub(crate) fn set(
    area: &Area,
    seat: &mut Seat<(), AreaView>,
    index: &mut Index,
    name: PropName<'_>,
    number: u64,
    value: PropValue<'_>,
    used: usize,
) -> usize
    requires writer { (seat.old.table_id ≡ area.now) × (seat.old.me.1 ≡ []) × IsWriterView seat.old.table_id seat.old.me.0 }
    requires index { IsIndex area.now seat.old.me.0 index.old }
    requires legal { LegalValue name.bytes.now value.bytes.now }
    requires room { full_for (store_of seat.old.me.0) name.bytes.now (length value.bytes.now) ≡ None }
    requires once { MayBeSet (store_of seat.old.me.0) name.bytes.now }
    requires number { number ≡ length (sets_in seat.old.me.0) + 1 }
    requires used { used ≡ mark_of (sets_in seat.old.me.0) }
    ensures seat { IsSameSeat seat.old seat.new × (seat.new.me.1 ≡ []) × IsWriterView seat.new.table_id seat.new.me.0 }
    ensures view { IsSet seat.old.me.0 name.entry.bytes.now value.entry.bytes.now seat.new.me.0 }
    ensures index { IsIndex area.now seat.new.me.0 index.new }
    ensures used { result ≡ mark_of (sets_in seat.new.me.0) }
{
    match find_cell(area, seat, &mut index.places, name) {
        Some(at) => {
            set_at(area, seat, at, name, number, value);
            used
        }
        None => add_property(area, seat, index, name, number, value, used),
    }
}
