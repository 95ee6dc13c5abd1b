//! What clients learn by their requests, of a desk and by their readers.

ghost use Rattle.std.specs.Prelude.{◌≡◌, IfOk, OnOk, Some, false};
ghost use Rattle.init_base.specs.Name.{LegalName};
ghost use Rattle.init_machine.specs.History.{sets_of};
ghost use Rattle.property_service.specs.Back.{ComesAgain};
ghost use Rattle.init_driver.specs.Learning.{Counts, HasSameHistory, Learns};
ghost use Rattle.script_lang.specs.Laws.{ReadsLegal};
ghost use Rattle.script_lang.specs.declared.script.Ask.TheVariants as ask;

use crate::reading::read;
use init_base::{NoMemory, Text};
use init_machine::Reading;
use outputs::Outputs;
use property_area::{Area, Reader};
use property_service::{AreaName, Desk};
use script_lang::Ask;
use std::alloc::Global;

/// The reader, with what a request of its client tells now. Before a look-up it is told the count of sets, and then it comes back to the
/// desk, so that what it was told stands in the sets that there are.
pub(crate) fn learn<N: AreaName, O: Outputs>(
    alloc: Global,
    desk: &mut Desk<'_, N, O>,
    area: &Area,
    reader: Reader,
    ask: &Ask,
) -> Result<(Reader, Option<Reading>), NoMemory>
    requires area { area.now ≡ N.area }
    requires reader { reader.table ≡ N.area }
    requires legal { ReadsLegal ask.now }
    ensures learned { IfOk result (λ told. Learns desk.old reader told.0 ask.now told.1) }
    ensures desk { OnOk result (HasSameHistory desk.old desk.new) }
{
    match ask {
        Ask::Set(_) => Ok((reader, None)),
        Ask::Read(name) => learn_value(alloc, desk, area, reader, name),
        Ask::Sync => learn_count(desk, reader),
        Ask::Catch => learn_serial(desk, area, reader),
    }
}

/// What a read of a property tells now.
fn learn_value<N: AreaName, O: Outputs>(
    alloc: Global,
    desk: &mut Desk<'_, N, O>,
    area: &Area,
    reader: Reader,
    name: &Text,
) -> Result<(Reader, Option<Reading>), NoMemory>
    requires area { area.now ≡ N.area }
    requires reader { reader.table ≡ N.area }
    requires legal { LegalName name.now }
    ensures learned { IfOk result (λ told. Learns desk.old reader told.0 (ask.Read name.now) told.1) }
    ensures desk { OnOk result (HasSameHistory desk.old desk.new) }
{
    let (mut reader, _) = count(desk, reader)?;
    let reading = read(alloc, area, &mut reader, name)?;
    let reader = renew(desk, reader)?;
    desk.agrees();
    Ok((reader, Some(reading)))
}

/// What the area serial tells now.
fn learn_serial<N: AreaName, O: Outputs>(
    desk: &mut Desk<'_, N, O>,
    area: &Area,
    reader: Reader,
) -> Result<(Reader, Option<Reading>), NoMemory>
    requires area { area.now ≡ N.area }
    requires reader { reader.table ≡ N.area }
    ensures learned { IfOk result (λ told. Learns desk.old reader told.0 ask.Catch told.1) }
    ensures desk { OnOk result (HasSameHistory desk.old desk.new) }
{
    let (mut reader, _) = count(desk, reader)?;
    let number = reader.catch_up(area);
    let reader = renew(desk, reader)?;
    desk.agrees();
    Ok((reader, Some(Reading::Caught { number })))
}

/// How many sets there are now.
fn learn_count<N: AreaName, O: Outputs>(
    desk: &mut Desk<'_, N, O>,
    reader: Reader,
) -> Result<(Reader, Option<Reading>), NoMemory>
    requires reader { reader.table ≡ N.area }
    ensures learned { IfOk result (λ told. Learns desk.old reader told.0 ask.Sync told.1) }
    ensures desk { OnOk result (HasSameHistory desk.old desk.new) }
{
    let (reader, number) = count(desk, reader)?;
    desk.agrees();
    Ok((reader, Some(Reading::Synced { number })))
}

/// Tells the reader's client how many sets there are.
fn count<N: AreaName, O: Outputs>(
    desk: &mut Desk<'_, N, O>,
    reader: Reader,
) -> Result<(Reader, u64), NoMemory>
    requires reader { reader.table ≡ N.area }
    ensures counted { IfOk result (λ counted. Counts desk.old reader counted.0 counted.1) }
    ensures desk { OnOk result (HasSameHistory desk.old desk.new) }
    ensures ready { OnOk result (desk.new.spent ≡ false) }
{
    let (back, count) = desk.sync(reader);
    let Ok(count) = count else {
        return Err(NoMemory);
    };
    Ok((back.ok_or(NoMemory)?, count))
}

/// Takes the reader in at the desk and hands it out again. Its client is told nothing.
fn renew<N: AreaName, O: Outputs>(
    desk: &mut Desk<'_, N, O>,
    reader: Reader,
) -> Result<Reader, NoMemory>
    requires area { reader.table ≡ N.area }
    ensures renewed { IfOk result (ComesAgain (sets_of desk.old.history) reader) }
    ensures desk { OnOk result (HasSameHistory desk.old desk.new) }
    ensures ready { OnOk result (desk.new.spent ≡ false) }
{
    let (back, renewed) = desk.renew(reader);
    let Ok(()) = renewed else {
        return Err(NoMemory);
    };
    Ok(back.ok_or(NoMemory)?)
}
