//! What the clients of a history read.

ghost use Rattle.std.specs.Prelude.{◌≡◌, IsTrue, All, IfOk, Ok, MatchOption, None, true, false, List as Items};
ghost use Rattle.init_machine.specs.Facts.{Stands};
ghost use Rattle.init_machine.specs.History.{sets_of};
ghost use Rattle.init_machine.specs.declared.report.Entry.{Entry as Happened};
ghost use Rattle.trace_audit.specs.Audited.{EachHolds, FailsAt, ReadingsHold};
ghost use Rattle.trace_audit.specs.Lists.{all_requests};

use crate::facts::stands;
use crate::order::{are_answers, is_in_order, seconds_rise};
use crate::sets::Sets;
use crate::told::Told;
use init_base::NoMemory;
use init_machine::{ClientPart, Reading};
use script_lang::Script;
use std::alloc::Global;

/// Whether each of some readings is true.
fn all_stand(sets: &Sets, readings: &[Reading]) -> bool
    ensures stand { IsTrue result → All (Stands sets.now.pairs.items None) readings.now }
    ensures fail { result ≡ false → All (Stands sets.now.pairs.items None) readings.now → ⊥ }
{
    for reading in readings {
        if !stands(sets, reading) {
            return false;
        }
    }
    true
}

/// Whether the readings of the client with this number hold.
fn do_hold(
    alloc: Global,
    script: &Script,
    told: &Told,
    who: usize,
    readings: &[Reading],
) -> Result<bool, NoMemory>
    ensures hold { (history : Items Happened) → told.now.sets.pairs.items ≡ sets_of history
        → told.now.requests.items ≡ all_requests 0 history → result ≡ Ok true
        → ReadingsHold script.now history who readings.now }
    ensures fail { (history : Items Happened) → told.now.sets.pairs.items ≡ sets_of history
        → told.now.requests.items ≡ all_requests 0 history → result ≡ Ok false
        → ReadingsHold script.now history who readings.now → ⊥ }
{
    let acts = script.acts.items();
    if !are_answers(acts, who, readings) {
        return Ok(false);
    }
    if !all_stand(&told.sets, readings) {
        return Ok(false);
    }
    if !seconds_rise(readings) {
        return Ok(false);
    }
    let requests = told.bounds_of(alloc, who)?;
    Ok(is_in_order(acts, who, requests.as_slice(), readings))
}

/// The number of the first client whose readings don't hold. None exactly where each client's do.
pub fn readings_fault(
    alloc: Global,
    script: &Script,
    told: &Told,
    parts: &[ClientPart],
) -> Result<Option<u64>, NoMemory>
    ensures { (history : Items Happened) → told.now.sets.pairs.items ≡ sets_of history
        → told.now.requests.items ≡ all_requests 0 history
        → IfOk result (λ fault. MatchOption fault (EachHolds script.now history 1 parts.now) (FailsAt script.now history parts.now)) }
{
    for (index, part) in parts.iter().enumerate() {
        if !do_hold(alloc, script, told, index + 1, part.readings.items())? {
            return Ok(Some(index as u64 + 1));
        }
    }
    Ok(None)
}
