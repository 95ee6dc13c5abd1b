//! The lines of a text.

ghost use Rattle.std.specs.Prelude.{◌≡◌, IfOk};
ghost use Rattle.script_lang.specs.Lines.{lines_of};

use init_base::{List, NoMemory, Text};
use script_lang::first_line;
use std::alloc::Global;

/// The lines of a text, without the LF that ends them.
pub fn lines(alloc: Global, bytes: &[u8]) -> Result<List<Text>, NoMemory>
    ensures { IfOk result (λ lines. lines ≡ lines_of bytes.now) }
{
    let mut lines = List::new(alloc);
    let mut rest = bytes;
    while !rest.is_empty() {
        let (line, behind) = first_line(rest);
        lines.push(Text::of(alloc, line)?)?;
        rest = behind;
    }
    Ok(lines)
}
