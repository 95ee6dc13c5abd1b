//! What the worker has of a session.

ghost use Rattle.std.specs.Prelude.{IfSome, OnOk};
ghost use Rattle.prop_dispatch.specs.internal.Serving.{HasServed, MaySet};

use crate::verdict::Verdict;
use init_base::{List, NoMemory};
use init_machine::Pair;
use property_area::Reader;
use property_service::{AreaName, Service};

/// The reader of a session's client, and the verdicts so far. The reader is there unless memory ran out.
#[derive(Drop)]
pub(crate) struct Seat {
    pub reader: Option<Reader>,
    pub verdicts: List<Verdict>,
}

impl Seat {
    /// Serves a request of the session.
    pub fn serve<N: AreaName>(
        &mut self,
        service: &mut Service<'_, N>,
        request: &Pair,
    ) -> Result<(), NoMemory>
        requires reader { IfSome self.old.reader (MaySet N.area) }
        ensures served { OnOk result (HasServed service.old service.new self.old self.new request.now) }
    {
        let Some(reader) = self.reader.take() else {
            return Err(NoMemory);
        };
        let (name, value) = (request.name.bytes(), request.value.bytes());
        let (reader, answer) = service.set(reader, name, value);
        self.reader = reader;
        let verdict = Verdict::of(answer)?;
        self.verdicts.push(verdict)?;
        Ok(())
    }
}
