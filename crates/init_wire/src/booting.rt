//! The boot, before the first message.

ghost use Rattle.std.specs.Prelude.{◌≡◌, [], IfOk, length};
ghost use Rattle.init_wire.specs.internal.Booted.{HasBooted};

use init_base::{ClientId, NoMemory};
use init_machine::Input;
use prop_wire::LastReply;
use property_area::Reader;
use property_service::{AreaName, Desk};

/// The client whose messages are served.
const CLIENT: ClientId = ClientId(1);

/// Takes the boot for the main actor. Returns the client's reader.
pub(crate) fn boot<N: AreaName>(desk: &mut Desk<'_, N, LastReply>) -> Result<Reader, NoMemory>
    requires begun { (desk.old.history ≡ []) × (desk.old.seat.out ≡ []) }
    requires domains { length desk.old.opening.config.domains ≡ 1 }
    ensures { IfOk result (HasBooted N.area desk.old.opening desk.new) }
{
    let main = desk.enter(ClientId(0))?;
    let (back, taken) = desk.take(main, &Input::Boot, &mut LastReply::new());
    drop(back);
    match taken {
        Ok(()) => desk.enter(CLIENT),
        Err(_) => Err(NoMemory),
    }
}
