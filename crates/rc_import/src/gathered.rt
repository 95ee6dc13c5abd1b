//! What stays of the files that were read.

ghost use Rattle.std.specs.Prelude.{◌≡◌, ◌++◌, [], List as Items, IfOk, OnOk};
ghost use Rattle.init_machine.specs.WellFormed.{IsWellFormed};
ghost use Rattle.init_machine.specs.declared.service.ServiceDef.{ServiceDef};
ghost use Rattle.rc_parse.specs.Files.{Reads};
ghost use Rattle.rc_parse.specs.Kept.{Kept, agains_behind, kept};
ghost use Rattle.rc_import.specs.internal.Sound.{AreSound};

use crate::gathers::Gathers;
use init_base::{List, NoMemory, Text};
use init_machine::{Config, Diagnostic};
use rc_parse::{Import, Merger, Parsed, one_meaning, one_service_of_a_name, parse};
use rc_tokens::lines;
use std::alloc::Global;
use std::marker::Model;

/// The actions and services that stay of the files that were read. They are always well-formed.
#[derive(Drop)]
pub struct Gathered {
    merger: Merger,
}

impl Model for Gathered {
    ghost use Rattle.rc_parse.specs.declared.merging.Merger.{Merger};

    ghost Value = { Merger };

    ghost use Rattle.rc_import.specs.internal.Sound.{IsGathered};

    ghost view = { λ g. g.merger };

    ghost invariant = { λ g. IsGathered g.merger };
}

impl Gathered {
    /// Of no files.
    #[tactic(auto, using(crate::proofs::Sound::nothing_gathered))]
    pub fn new(alloc: Global) -> Gathered
        ensures { result ≡ record { actions = []; services = [] } }
    {
        Gathered {
            merger: Merger::new(alloc),
        }
    }

    /// Adds the actions and services of a file, and answers a diagnostic for each second service of a name.
    #[tactic(auto, using(crate::proofs::Sound::gathered_more))]
    pub fn with(
        self,
        alloc: Global,
        parsed: Parsed,
    ) -> Result<(Gathered, List<Diagnostic>), NoMemory>
        requires { AreSound parsed.actions parsed.services }
        ensures actions { IfOk result (λ next. next.0.actions ≡ self.actions ++ parsed.actions) }
        ensures kept { IfOk result
            (λ next. (read : Items ServiceDef) → self.services ≡ kept read → Kept (read ++ parsed.services) next.0.services) }
        ensures again { IfOk result
            (λ next. (read : Items ServiceDef) → self.services ≡ kept read → next.1 ≡ agains_behind read parsed.services) }
    {
        let (merger, agains) = self.merger.merge(alloc, parsed)?;
        Ok((Gathered { merger }, agains))
    }

    /// Adds a file of these sections, and answers its imports.
    fn with_file(
        self,
        alloc: Global,
        parsed: Parsed,
        diagnostics: &mut List<Diagnostic>,
    ) -> Result<(Gathered, List<Import>), NoMemory>
        requires { AreSound parsed.actions parsed.services }
        ensures actions { IfOk result (λ next. next.0.actions ≡ self.actions ++ parsed.actions) }
        ensures services { IfOk result (λ next. (read : Items ServiceDef) → self.services ≡ kept read
            → next.0.services ≡ kept (read ++ parsed.services)) }
        ensures imports { IfOk result (λ next. next.1 ≡ parsed.imports) }
        ensures diagnostics { OnOk result ((read : Items ServiceDef) → self.services ≡ kept read →
            diagnostics.new ≡ diagnostics.old ++ (parsed.diagnostics ++ agains_behind read parsed.services)) }
    {
        let Parsed {
            actions,
            services,
            imports,
            diagnostics: own,
        } = parsed;
        diagnostics.append(own)?;
        let sections = Parsed {
            actions,
            services,
            imports: List::new(alloc),
            diagnostics: List::new(alloc),
        };
        let (next, agains) = self.with(alloc, sections)?;
        diagnostics.append(agains)?;
        Ok((next, imports))
    }

    /// The configuration of these actions and services, and of nothing else.
    #[tactic(auto, using(crate::proofs::Sound::gathered_config))]
    pub fn into_config(self, alloc: Global) -> Result<Config, NoMemory>
        ensures config { IfOk result (λ config. config
            ≡ record { actions = self.actions; services = self.services; pairs = []; saved = []; plans = []; domains = [] }) }
        ensures well_formed { IfOk result IsWellFormed }
    {
        one_service_of_a_name();
        self.merger.into_config(alloc)
    }
}

impl Gathers for Gathered {
    ghost use Rattle.std.specs.Prelude.{◌≡◌};
    ghost use Rattle.rc_parse.specs.Kept.{kept};

    ghost holds = { λ g actions services. (g.actions ≡ actions) × (g.services ≡ kept services) };

    fn none(alloc: Global) -> Self {
        Gathered::new(alloc)
    }

    fn read(
        self,
        alloc: Global,
        path: &Text,
        content: &Text,
        diagnostics: &mut List<Diagnostic>,
    ) -> Result<(Self, List<Import>), NoMemory> {
        let parsed = sections_of(alloc, path, content)?;
        one_meaning();
        Ok(self.with_file(alloc, parsed, diagnostics)?)
    }
}

/// The sections of a file. Its bytes are within the limit of tokens too.
#[tactic(auto, using(crate::proofs::Sound::sections_sound))]
fn sections_of(alloc: Global, path: &Text, content: &Text) -> Result<Parsed, NoMemory>
    ensures reads { IfOk result (λ parsed. Reads path.now content.now parsed) }
    ensures sound { IfOk result (λ parsed. AreSound parsed.actions parsed.services) }
{
    let Ok(tokens) = lines(alloc, content.bytes()) else {
        return Err(NoMemory);
    };
    parse(alloc, path, &tokens)
}
