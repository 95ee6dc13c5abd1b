//! What a reader is told of a property.

ghost use Rattle.std.specs.Prelude.{◌≡◌, ◌≤◌, length, IfOk};
ghost use Rattle.init_base.specs.Name.{LegalName};
ghost use Rattle.init_base.specs.Value.{max_value_len};
ghost use Rattle.init_driver.specs.Told.{FitsIn, TellsRead, reading_of};
ghost use Rattle.property_area.specs.Seats.{IsSameReader};

use init_base::{NoMemory, PropName, Text, ValueBuffer};
use init_machine::Reading;
use property_area::{Area, ReadAnswer, Reader};
use std::alloc::Global;

/// One attempt to read a property with a client's reader. The answer is what the client was told.
pub fn read(
    alloc: Global,
    area: &Area,
    reader: &mut Reader,
    name: &Text,
) -> Result<Reading, NoMemory>
    requires name { LegalName name.now }
    requires area { reader.old.table ≡ area.now }
    ensures told { IfOk result (λ reading. TellsRead reader.old.view name.now reading reader.new.view) }
    ensures reader { IsSameReader reader.old reader.new }
{
    let legal = PropName {
        bytes: name.bytes(),
    };
    if legal.is_read_only() {
        read_into(alloc, area, reader, name, legal, ValueBuffer::new().bytes())
    } else {
        read_into(alloc, area, reader, name, legal, &mut [0; 91])
    }
}

/// The same over a buffer for the value, of a name that is known to be legal.
fn read_into(
    alloc: Global,
    area: &Area,
    reader: &mut Reader,
    name: &Text,
    legal: PropName<'_>,
    buffer: &mut [u8],
) -> Result<Reading, NoMemory>
    requires name { legal.bytes.now ≡ name.now }
    requires room { max_value_len legal.bytes.now ≤ length buffer.old }
    requires area { reader.old.table ≡ area.now }
    ensures told { IfOk result (λ reading. TellsRead reader.old.view name.now reading reader.new.view) }
    ensures reader { IsSameReader reader.old reader.new }
{
    let answer = reader.read(area, legal, buffer);
    told_by(alloc, name, answer, buffer)
}

/// The reading of an answer, whose value stands at the front of the buffer.
fn told_by(
    alloc: Global,
    name: &Text,
    answer: ReadAnswer,
    buffer: &[u8],
) -> Result<Reading, NoMemory>
    requires room { FitsIn answer buffer.now }
    ensures { IfOk result (λ reading. reading ≡ reading_of name.now answer buffer.now) }
{
    Ok(match answer {
        ReadAnswer::Found { len, number } => Reading::Found {
            name: name.share()?,
            number,
            value: Text::of(alloc, &buffer[..len as usize])?,
        },
        ReadAnswer::Absent { number } => Reading::Absent {
            name: name.share()?,
            number,
        },
        ReadAnswer::Again {
            number,
            first,
            second,
        } => Reading::Again {
            name: name.share()?,
            number,
            first,
            second,
        },
    })
}
