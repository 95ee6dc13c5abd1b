//! How the requests of sessions are answered.

ghost use Rattle.std.specs.Prelude.{◌≡◌, IfOk, true};
ghost use Rattle.prop_dispatch.specs.Relayed.{answer_in};
ghost use Rattle.property_service.specs.Back.{has_entry};

use init_base::NoMemory;
use init_machine::SetRefusal;
use property_service::Accepted;

/// How the machine answered a set of a session.
#[derive(Drop)]
pub enum Verdict {
    Accepted(Accepted),
    Refused(SetRefusal),
}

impl Verdict {
    /// The verdict of an answer. There is none if memory ran out, since the machine then didn't answer.
    pub(crate) fn of(answer: Result<Accepted, SetRefusal>) -> Result<Verdict, NoMemory>
        ensures { IfOk result (λ verdict. (answer_in verdict ≡ answer) × (has_entry answer ≡ true)) }
    {
        match answer {
            Ok(accepted) => Ok(Verdict::Accepted(accepted)),
            Err(SetRefusal::Spent | SetRefusal::NoMemory) => Err(NoMemory),
            Err(refusal) => Ok(Verdict::Refused(refusal)),
        }
    }
}
