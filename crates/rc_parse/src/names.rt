//! The names of the services that were read so far, where the services aren't kept.

ghost use Rattle.std.specs.Prelude.{◌≡◌, [], ◌∷◌, ◌++◌, ◌||◌, ℕ, not, List as Items, IfOk, OnOk, map};
ghost use Rattle.std.specs.Str.{bytes_eq};
ghost use Rattle.init_machine.specs.declared.service.ServiceDef.{ServiceDef};
ghost use Rattle.rc_parse.specs.Kept.{agains_behind};
ghost use Rattle.rc_parse.specs.Names.{AreNamesOf, knows};
ghost use Rattle.rc_parse.specs.Skims.{mark_of};

use crate::parsed::diagnose;
use crate::skimmed::ServiceMark;
use collections::TextIndex;
use init_base::{List, NoMemory};
use init_machine::{DiagKind, Diagnostic};
use std::alloc::Global;

/// The names of the services that were read.
#[derive(Drop)]
pub struct Names {
    names: TextIndex,
}

impl Names {
    /// Of no services.
    pub fn new(alloc: Global) -> Names
        ensures { AreNamesOf result [] }
    {
        Names {
            names: TextIndex::new(alloc),
        }
    }

    /// Adds a name, and answers whether it is a new one.
    #[tactic(auto, using(crate::proofs::KnownNames::name_put, crate::proofs::KnownNames::is_longer))]
    fn put(&mut self, name: &[u8]) -> Result<bool, NoMemory>
        ensures added { IfOk result (λ is_new. is_new ≡ not (knows self.old.names name.now)) }
        ensures names { OnOk result
            ((other : Items ℕ) → knows self.new.names other ≡ (bytes_eq name.now other || knows self.old.names other)) }
    {
        let count = self.names.len();
        self.names.add(name)?;
        Ok(self.names.len() > count)
    }

    /// Adds the name of a service, or the diagnostic of a second one of its name without `override`.
    #[tactic(auto, using(crate::proofs::KnownNames::known_more))]
    fn add(
        &mut self,
        service: &ServiceMark,
        diagnostics: &mut List<Diagnostic>,
    ) -> Result<(), NoMemory>
        ensures names { OnOk result
            ((before : Items ServiceDef) (read : ServiceDef) → AreNamesOf self.old before → service.now ≡ mark_of read →
            AreNamesOf self.new (before ++ read ∷ [])) }
        ensures diagnostics { OnOk result
            ((before : Items ServiceDef) (read : ServiceDef) → AreNamesOf self.old before → service.now ≡ mark_of read →
            diagnostics.new ≡ diagnostics.old ++ agains_behind before (read ∷ [])) }
    {
        let is_new = self.put(service.name.bytes())?;
        if is_new || service.overrides {
            return Ok(());
        }
        diagnose(
            diagnostics,
            &service.file,
            service.line,
            DiagKind::ServiceAgain,
        )
    }

    /// Adds the names of services that were read behind these, and a diagnostic for each second service of a name without
    /// `override`, as `Merger::merge` does.
    pub fn add_all(
        &mut self,
        services: List<ServiceMark>,
        diagnostics: &mut List<Diagnostic>,
    ) -> Result<(), NoMemory>
        ensures names { OnOk result ((before read : Items ServiceDef) → AreNamesOf self.old before → services ≡ map mark_of read →
            AreNamesOf self.new (before ++ read)) }
        ensures diagnostics { OnOk result
            ((before read : Items ServiceDef) → AreNamesOf self.old before → services ≡ map mark_of read →
            diagnostics.new ≡ diagnostics.old ++ agains_behind before read) }
    {
        for service in services.into_vec() {
            self.add(&service, diagnostics)?;
        }
        Ok(())
    }
}
