//! The end of a wait for a file.

ghost use Rattle.std.specs.Prelude.{◌≡◌, OnOk};
ghost use Rattle.init_machine.specs.Step as spec;
ghost use Rattle.machine_parts.specs.Parts.{Does, state_of};

use init_base::NoMemory;
use init_machine::{Output, PropStore, Waiting};
use machine_parts::Parts;
use outputs::Outputs;

/// A wait for a file ends where the file is there, and else where its time has come.
fn settle_by<S: PropStore, O: Outputs>(
    parts: &mut Parts<S, O>,
    is_there: bool,
    is_late: bool,
) -> Result<(), NoMemory>
    ensures done { OnOk result
        (Does S.meaning S.told O.Adds parts.old parts.new (spec.settle_by is_there is_late (state_of S.meaning parts.old))) }
    ensures beside { S.Beside parts.old.store parts.new.store }
{
    if is_there {
        parts.waits = None;
        return parts.outputs.push(Output::Released);
    }
    if is_late {
        parts.waits = None;
        return parts.outputs.push(Output::Timeout);
    }
    Ok(())
}

/// The end of an input that didn't end the machine.
#[tactic(auto, unfolding(init_machine::specs::Step::settle))]
pub fn settle<S: PropStore, O: Outputs>(parts: &mut Parts<S, O>) -> Result<(), NoMemory>
    ensures done { OnOk result (Does S.meaning S.told O.Adds parts.old parts.new (spec.settle (state_of S.meaning parts.old))) }
    ensures beside { S.Beside parts.old.store parts.new.store }
{
    let Some(Waiting::File { path, until }) = &parts.waits else {
        return Ok(());
    };
    let is_there = parts.tree.has(path.bytes());
    let is_late = until.0 <= parts.kernel.now().0;
    settle_by(parts, is_there, is_late)
}
