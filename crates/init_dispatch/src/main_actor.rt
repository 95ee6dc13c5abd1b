//! The main actor's part of a script, one input after another.

ghost use Rattle.std.specs.Prelude.{◌≡◌, ◌∷◌, [], IfSome, replicate};
ghost use Rattle.std.specs.List.{flat_map};
ghost use Rattle.init_dispatch.specs.internal.MainActor.{TakesInputs};
ghost use Rattle.property_service.specs.Service.{IsNoSet};
ghost use Rattle.script_lang.specs.Inputs.{main_inputs};

use init_machine::Input;
use property_area::Reader;
use property_service::{AreaName, Service};
use script_lang::Act;

/// The main actor's inputs among acts. None if memory ran out.
pub(crate) fn act_main<N: AreaName>(
    service: &mut Service<'_, N>,
    reader: Reader,
    acts: &[Act],
) -> Option<Reader>
    requires area { reader.table ≡ N.area }
    requires main { reader.view.who ≡ 0 }
    ensures { IfSome result (λ back. TakesInputs service.old service.new reader back (flat_map main_inputs acts.now)) }
{
    let mut reader = reader;
    for act in acts {
        reader = take_act(service, reader, act)?;
    }
    Some(reader)
}

/// The inputs of an act, if it is the main actor's.
fn take_act<N: AreaName>(service: &mut Service<'_, N>, reader: Reader, act: &Act) -> Option<Reader>
    requires area { reader.table ≡ N.area }
    requires main { reader.view.who ≡ 0 }
    ensures { IfSome result (λ back. TakesInputs service.old service.new reader back (main_inputs act.now)) }
{
    match act {
        Act::Step(count) => take_steps(service, reader, *count),
        Act::Tick(ms) => take_input(service, reader, Input::Tick { ms: *ms }),
        Act::Exit { name, status } => {
            let name = name.share().ok()?;
            let status = *status;
            take_input(service, reader, Input::Exit { name, status })
        }
        Act::File { path, content } => {
            let path = path.share().ok()?;
            let content = content.share().ok()?;
            take_input(service, reader, Input::File { path, content })
        }
        Act::Ask { .. } => Some(reader),
    }
}

/// So many times the next event or command.
fn take_steps<N: AreaName>(
    service: &mut Service<'_, N>,
    reader: Reader,
    count: u32,
) -> Option<Reader>
    requires area { reader.table ≡ N.area }
    requires main { reader.view.who ≡ 0 }
    ensures { IfSome result (λ back. TakesInputs service.old service.new reader back (replicate count Input.Next)) }
{
    let mut reader = reader;
    for _ in 0..count {
        reader = take_input(service, reader, Input::Next)?;
    }
    Some(reader)
}

/// An input of the main actor.
fn take_input<N: AreaName>(
    service: &mut Service<'_, N>,
    reader: Reader,
    input: Input,
) -> Option<Reader>
    requires area { reader.table ≡ N.area }
    requires main { (reader.view.who ≡ 0) × IsNoSet input }
    ensures { IfSome result (λ back. TakesInputs service.old service.new reader back (input ∷ [])) }
{
    let (reader, taken) = service.input(reader, input);
    match taken {
        Ok(()) => reader,
        Err(_) => None,
    }
}
