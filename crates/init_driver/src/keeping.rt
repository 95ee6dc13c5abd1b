//! The keeper of the persistent properties: it is given the text of the saved pairs wherever a property is stored.

ghost use Rattle.std.specs.Prelude.{◌≡◌, ◌≤◌, IsTrue, OnOk, false, length};
ghost use Rattle.init_base.specs.Faults.{Counted};
ghost use Rattle.init_driver.specs.Course.{Holds, Saves, before_of, entry_in, place_of};
ghost use Rattle.init_driver.specs.Keeper.{seen_by};
ghost use Rattle.init_driver.specs.Run.{keeper_failed, sink_failed};
ghost use Rattle.persist_file.specs.Store.{are_saved, are_typed, store_text};

use crate::machine::Machine;
use crate::refusal::DriveRefusal;
use crate::traced::Traced;
use init_base::{IoRefusal, Keeper, Sink};
use init_trace::Printer;
use property_service::AreaName;
use std::alloc::Global;

/// Where the entry that was told stores a property, writes all that waits before it, and then gives the keeper the text of the
/// saved pairs. So after the keeper's fault exactly the entries before that one are written.
pub fn save<N: AreaName, P: Keeper, K: Sink>(
    alloc: Global,
    traced: &mut Traced<'_, N>,
    keeper: &mut P,
    out: &mut K,
) -> Result<(), DriveRefusal>
    requires ready { traced.old.core.spent ≡ false }
    requires begun { traced.old.printer.begun ≤ length traced.old.printer.bytes }
    requires saved { IsTrue traced.old.printer.stores → IsTrue (are_saved traced.old.core.state.saved) }
    requires typed { IsTrue traced.old.printer.stores → IsTrue (are_typed traced.old.core.policy traced.old.core.state.saved) }
    ensures saves { let seen = seen_by P.held P.TellsCrash P.moment P.MayLeave in
        Saves traced.old.printer.stores (place_of (before_of traced.old) (K.taken out.old) (seen keeper.old))
        (place_of (before_of traced.new) (K.taken out.new) (seen keeper.new)) result }
    ensures entry { OnOk result (entry_in traced.new.printer ≡ entry_in traced.old.printer) }
    ensures core { traced.new.core ≡ traced.old.core }
    ensures keeper { Counted (keeper_failed result) (P.fault_count keeper.old) (P.fault_count keeper.new) }
    ensures sink { Counted (sink_failed result) (K.fault_count out.old) (K.fault_count out.new) }
{
    if !traced.printer.stores() {
        return Ok(());
    }
    traced.write_before(out)?;
    keep(alloc, &traced.core, keeper)
}

/// Gives the keeper the text of the pairs to be saved.
fn keep<N: AreaName, P: Keeper>(
    alloc: Global,
    core: &Machine<'_, N, Printer>,
    keeper: &mut P,
) -> Result<(), DriveRefusal>
    requires ready { core.now.spent ≡ false }
    requires saved { IsTrue (are_saved core.now.state.saved) }
    requires typed { IsTrue (are_typed core.now.policy core.now.state.saved) }
    ensures keeps { let seen = seen_by P.held P.TellsCrash P.moment P.MayLeave in
        Holds (seen keeper.old) (seen keeper.new) (store_text core.now.policy core.now.state.saved) result }
    ensures writes { sink_failed result ≡ false }
    ensures cause { Counted (keeper_failed result) (P.fault_count keeper.old) (P.fault_count keeper.new) }
{
    let text = persist_file::print(alloc, core.saved(), core.policy())?;
    match keeper.replace(alloc, text.bytes()) {
        Ok(()) => Ok(()),
        Err(IoRefusal::Failed) => Err(DriveRefusal::Keeper),
        Err(IoRefusal::NoMemory) => Err(DriveRefusal::NoMemory),
    }
}
