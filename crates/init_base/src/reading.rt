//! Reading a source to its end.

ghost use Rattle.std.specs.Prelude.{◌≤◌, length, IfOk};
ghost use Rattle.init_base.specs.Faults.{Counted, read_failed};
ghost use Rattle.init_base.specs.Reading.{ReadsAll};

use crate::outside::refusal::ReadRefusal;
use crate::outside::source::Source;
use crate::text::Text;
use std::alloc::Global;

/// How many bytes are read at once, at most.
const PIECE: usize = 4096;

/// Reads a source to its end. `TooLarge` exactly where more bytes are left than the limit says; it reads one byte past
/// the limit then. After an error the source may have lost bytes.
pub fn read_all<S: Source>(alloc: Global, source: &mut S, limit: usize) -> Result<Text, ReadRefusal>
    ensures bytes { ReadsAll (S.left source.old) (S.left source.new) limit result }
    ensures bound { IfOk result (λ text. length text ≤ limit) }
    ensures cause { Counted (read_failed result) (S.fault_count source.old) (S.fault_count source.new) }
{
    let mut bytes = Vec::new(alloc);
    let mut buffer = [0; PIECE];
    loop {
        let room = (limit - bytes.len()).min(PIECE - 1) + 1;
        let count = source.read(&mut buffer[..room])?;
        if count == 0 {
            return Ok(Text::from_vec(bytes)?);
        }
        if count > limit - bytes.len() {
            return Err(ReadRefusal::TooLarge);
        }
        bytes.extend_from_slice(&buffer[..count])?;
    }
}
