//! Putting files together.

ghost use Rattle.std.specs.Prelude.{◌≡◌, [], ◌∷◌, ◌++◌, List as Items, IfOk};
ghost use Rattle.init_machine.specs.declared.service.ServiceDef.{ServiceDef as Service};
ghost use Rattle.rc_parse.specs.Kept.{Kept, agains_behind, kept, merged};

use crate::parsed::{Parsed, diagnose};
use crate::standing::Standing;
use init_base::{List, NoMemory};
use init_machine::{Action, Config, DiagKind, Diagnostic, ServiceDef};
use std::alloc::Global;

/// The actions and services of the files that were read so far.
#[derive(Drop)]
pub struct Merger {
    actions: List<Action>,
    services: Standing,
}

impl Merger {
    /// Of no files.
    pub fn new(alloc: Global) -> Merger
        ensures { result ≡ record { actions = []; services = [] } }
    {
        Merger {
            actions: List::new(alloc),
            services: Standing::new(alloc),
        }
    }

    /// Adds the actions and services of a file to those of the files before it, and answers a diagnostic for each
    /// second service of a name without `override`. It takes the time of this file, however many were read before.
    #[tactic(auto, using(crate::proofs::Together::all_kept, crate::proofs::Together::all_agains))]
    pub fn merge(
        self,
        alloc: Global,
        parsed: Parsed,
    ) -> Result<(Merger, List<Diagnostic>), NoMemory>
        ensures actions { IfOk result (λ next. next.0.actions ≡ self.actions ++ parsed.actions) }
        ensures services { IfOk result (λ next. next.0.services ≡ merged self.services parsed.services) }
        ensures diagnostics { IfOk result (λ next. next.1 ≡ agains_behind self.services parsed.services) }
        // Over all services that were read, file after file, those stay that `Kept` says, and the diagnostics are those
        // of the services of this file behind all before it.
        ensures kept { IfOk result
            (λ next. (read : Items Service) → self.services ≡ kept read → Kept (read ++ parsed.services) next.0.services) }
        ensures again { IfOk result
            (λ next. (read : Items Service) → self.services ≡ kept read → next.1 ≡ agains_behind read parsed.services) }
    {
        let Merger {
            mut actions,
            mut services,
        } = self;
        let mut diagnostics = List::new(alloc);
        actions.append(parsed.actions)?;
        for service in parsed.services.into_vec() {
            services = add_service(services, alloc, service, &mut diagnostics)?;
        }
        Ok((Merger { actions, services }, diagnostics))
    }

    /// The configuration of these actions and services, and of nothing else.
    pub fn into_config(self, alloc: Global) -> Result<Config, NoMemory>
        ensures { IfOk result (λ config. config
            ≡ record { actions = self.actions; services = self.services; pairs = []; saved = []; plans = []; domains = [] }) }
    {
        Ok(Config {
            actions: self.actions,
            services: self.services.into_list(alloc)?,
            pairs: List::new(alloc),
            saved: List::new(alloc),
            plans: List::new(alloc),
            domains: List::new(alloc),
        })
    }
}

/// Adds a service that was read behind these, or else its diagnostic.
#[tactic(auto, using(crate::proofs::Slots::again_alone, crate::proofs::Slots::told_again, crate::proofs::Slots::none_again))]
fn add_service(
    services: Standing,
    alloc: Global,
    service: ServiceDef,
    diagnostics: &mut List<Diagnostic>,
) -> Result<Standing, NoMemory>
    ensures services { IfOk result (λ next. next ≡ merged services (service ∷ [])) }
    ensures diagnostics { IfOk result (λ next. diagnostics.new ≡ diagnostics.old ++ agains_behind services (service ∷ [])) }
{
    if services.has_name(service.name.bytes()) && !service.overrides {
        diagnose(
            diagnostics,
            &service.file,
            service.line,
            DiagKind::ServiceAgain,
        )?;
        return Ok(services);
    }
    services.with(alloc, service)
}

/// Of all services of one name that were read one stays: the last one with `override`, or else the first.
#[tactic(auto, using(crate::proofs::Together::kept_is_kept))]
pub fn one_service_of_a_name()
    ensures { (read : Items Service) → Kept read (kept read) }
{}
