//! The allow text.

ghost use Rattle.std.specs.Prelude.{◌≡◌, ◌≤◌, IfOk, IfErr, OnOk, length};
ghost use Rattle.prop_contexts.specs.Allows.{allow_of};
ghost use Rattle.prop_contexts.specs.Allowed.{AreAllowed, IsAllowRefusal, IsPairRefusal, TakesPair};

use crate::allow_line::read_line;
use crate::line::Reading;
use crate::refusal::PolicyRefusal;
use init_base::{List, first_line};
use init_machine::AllowLine;
use std::alloc::Global;

/// The pairs that the lines of a text give.
pub fn read_allows(alloc: Global, text: &[u8]) -> Result<List<AllowLine>, PolicyRefusal>
    requires { length text.now ≤ 1048576 }
    ensures read { IfOk result (AreAllowed text.now) }
    ensures refused { IfErr result (IsAllowRefusal text.now) }
{
    let mut allows = List::new(alloc);
    let mut number = 1;
    let mut rest = text;
    while !rest.is_empty() {
        let (line, behind) = first_line(rest);
        take_line(alloc, &mut allows, line, number)?;
        number += 1;
        rest = behind;
    }
    Ok(allows)
}

/// Takes a line with its number.
fn take_line(
    alloc: Global,
    allows: &mut List<AllowLine>,
    line: &[u8],
    number: u32,
) -> Result<(), PolicyRefusal>
    ensures taken { OnOk result (TakesPair allows.old (allow_of line.now) allows.new) }
    ensures refused { IfErr result (IsPairRefusal (allow_of line.now) number) }
{
    match read_line(alloc, line)? {
        Reading::Skipped => Ok(()),
        Reading::Bad => Err(PolicyRefusal::BadLine {
            allow: true,
            line: number,
        }),
        Reading::Read(allow) => Ok(allows.push(allow)?),
    }
}
