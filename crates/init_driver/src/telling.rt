//! What clients learn by their requests.

ghost use Rattle.std.specs.Prelude.{◌≡◌, ◌≤◌, length, OnOk};
ghost use Rattle.init_driver.specs.Course.{told_at};
ghost use Rattle.init_driver.specs.Machine.{StaysSo, told_to};
ghost use Rattle.init_driver.specs.Seat.{AreTold};
ghost use Rattle.script_lang.specs.Laws.{IsAskAmong};

use crate::machine::Machine;
use init_base::NoMemory;
use init_machine::ClientPart;
use outputs::Outputs;
use property_service::AreaName;
use script_lang::Act;
use std::alloc::Global;

/// Tells the client of an act what is so now, where the act is a request that tells something.
pub fn tell<N: AreaName, O: Outputs>(
    alloc: Global,
    core: &mut Machine<'_, N, O>,
    act: &Act,
    parts: &mut Vec<ClientPart>,
) -> Result<(), NoMemory>
    requires asked { IsAskAmong (length parts.old.items) act.now }
    requires domains { length parts.old.items ≤ length core.old.config.domains }
    requires heard { AreTold (told_to core.old.readers) 1 parts.old.items }
    ensures told { OnOk result (parts.new.items ≡ told_at core.old.state act.now 1 parts.old.items) }
    ensures heard { OnOk result (AreTold (told_to core.new.readers) 1 parts.new.items) }
    ensures same { OnOk result (StaysSo core.old core.new) }
{
    let Act::Ask { who, ask } = act else {
        return Ok(());
    };
    let Some(reading) = core.learn(alloc, *who, ask)? else {
        return Ok(());
    };
    let part = &mut parts[who.0 as usize - 1];
    part.readings.push(reading)
}
