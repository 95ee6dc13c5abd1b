//! The order of one client's requests and readings.

ghost use Rattle.std.specs.Prelude.{◌≡◌, ◌∷◌, List as Items, IfSome, None};
ghost use Rattle.std.specs.List.{filter_map, list_any};
ghost use Rattle.std.specs.Option.{option_copied};
ghost use Rattle.init_machine.specs.Orderly as orderly_spec;
ghost use Rattle.init_machine.specs.Serial as serial_spec;
ghost use Rattle.script_lang.specs.Inputs as inputs_spec;
ghost use Rattle.script_lang.specs.declared.script.Ask.{Ask as Asked};
ghost use Rattle.trace_audit.specs.Audited.{answer_all};
ghost use Rattle.trace_audit.specs.Audited as audited_spec;
ghost use Rattle.trace_audit.specs.Lists.{ascending, bounds_list, rises};
ghost use Rattle.trace_audit.specs.Lists as lists_spec;

use crate::serials::{is_dirty, number_in, rank};
use crate::told::Bounds;
use init_base::Text;
use init_machine::Reading;
use script_lang::{Act, Ask};

/// The request of an act, where it is that of the client with this number.
fn ask_by(act: &Act, who: usize) -> Option<&Ask>
    ensures { option_copied result ≡ inputs_spec.ask_by who act.now }
{
    match act {
        Act::Ask { who: other, ask } if other.0 as usize == who => Some(ask),
        _ => None,
    }
}

/// Whether a reading answers a request.
fn is_answer(ask: &Ask, reading: &Reading) -> bool
    ensures { result ≡ audited_spec.is_answer ask.now reading.now }
{
    match (ask, reading) {
        (
            Ask::Read(name),
            Reading::Found { name: other, .. }
            | Reading::Absent { name: other, .. }
            | Reading::Again { name: other, .. },
        ) => other.is(name.bytes()),
        (Ask::Sync, Reading::Synced { .. }) | (Ask::Catch, Reading::Caught { .. }) => true,
        _ => false,
    }
}

/// Whether readings answer the requests of a client in order, each one but its sets.
pub fn are_answers(acts: &[Act], who: usize, readings: &[Reading]) -> bool
    ensures { result ≡ answer_all (filter_map (inputs_spec.ask_by who) acts.now) readings.now }
{
    let mut rest = readings;
    for act in acts {
        let Some(ask) = ask_by(act, who) else {
            continue;
        };
        if matches!(ask, Ask::Set(_)) {
            continue;
        }
        let Some((first, behind)) = rest.split_first() else {
            return false;
        };
        if !is_answer(ask, first) {
            return false;
        }
        rest = behind;
    }
    rest.is_empty()
}

/// Between which sets a reading stands.
fn bounds_of(reading: &Reading) -> Bounds
    ensures { result ≡ lists_spec.bounds_of reading.now }
{
    match reading {
        Reading::Found { number, .. }
        | Reading::Absent { number, .. }
        | Reading::Synced { number }
        | Reading::Caught { number } => Bounds {
            before: *number,
            after: *number,
        },
        Reading::Again { number, second, .. } => Bounds {
            before: *number,
            after: seen_again(*number, *second),
        },
    }
}

/// How many sets a client has seen that had seen so many, and then met a write with this second serial.
fn seen_again(number: u64, second: u64) -> u64
    ensures { result ≡ orderly_spec.seen_again number second }
{
    if is_dirty(second) {
        return number;
    }
    number.max(number_in(second))
}

/// Whether the list of a client is in order: each item is about no fewer sets than were seen before it.
pub fn is_in_order(acts: &[Act], who: usize, requests: &[Bounds], readings: &[Reading]) -> bool
    ensures { result ≡ ascending 0 (bounds_list (filter_map (inputs_spec.ask_by who) acts.now) requests.now readings.now) }
{
    let mut seen = 0;
    let (mut requests, mut readings) = (requests, readings);
    for act in acts {
        let Some(ask) = ask_by(act, who) else {
            continue;
        };
        let Some((bounds, left, behind)) = next_bounds(ask, requests, readings) else {
            continue;
        };
        if seen > bounds.before || bounds.before > bounds.after {
            return false;
        }
        seen = bounds.after;
        requests = left;
        readings = behind;
    }
    true
}

/// The bounds of a request's item in a client's list, and the set requests and readings behind it. None exactly where none
/// is left for it.
fn next_bounds<'a>(
    ask: &Ask,
    requests: &'a [Bounds],
    readings: &'a [Reading],
) -> Option<(Bounds, &'a [Bounds], &'a [Reading])>
    ensures none { result ≡ None → (asks : Items Asked)
        → bounds_list (ask.now ∷ asks) requests.entry.now readings.entry.now
        ≡ bounds_list asks requests.entry.now readings.entry.now }
    ensures some { IfSome result (λ next. (asks : Items Asked)
        → bounds_list (ask.now ∷ asks) requests.entry.now readings.entry.now ≡ next.0 ∷ bounds_list asks next.1.now next.2.now) }
{
    match ask {
        Ask::Set(_) => {
            let (first, behind) = requests.split_first()?;
            Some((*first, behind, readings))
        }
        Ask::Read(_) | Ask::Sync | Ask::Catch => {
            let (first, behind) = readings.split_first()?;
            Some((bounds_of(first), requests, behind))
        }
    }
}

/// Whether a read of this name met a write, and its second serial ranks no higher than this one.
fn is_no_higher(name: &Text, word: u64, reading: &Reading) -> bool
    ensures { result ≡ lists_spec.is_no_higher name.now word reading.now }
{
    match reading {
        Reading::Again {
            name: other,
            second,
            ..
        } => other.is(name.bytes()) && rank(*second) <= rank(word),
        _ => false,
    }
}

fn has_no_higher(readings: &[Reading], name: &Text, word: u64) -> bool
    ensures { result ≡ list_any (lists_spec.is_no_higher name.now word) readings.now }
{
    readings
        .iter()
        .any(|reading| is_no_higher(name, word, reading))
}

/// Whether of the second serials of one name, each later one ranks higher.
pub fn seconds_rise(readings: &[Reading]) -> bool
    ensures { result ≡ rises readings.now }
{
    for (place, reading) in readings.iter().enumerate() {
        let Reading::Again { name, second, .. } = reading else {
            continue;
        };
        if has_no_higher(&readings[place + 1..], name, *second) {
            return false;
        }
    }
    true
}
