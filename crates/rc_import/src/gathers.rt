//! What a load gathers of the files that it reads.

ghost use Rattle.std.specs.Prelude.{◌≡◌, ◌≤◌, ◌++◌, [], List as Items, IfOk, OnOk, length};
ghost use Rattle.init_machine.specs.declared.action.Action.{Action};
ghost use Rattle.init_machine.specs.declared.service.ServiceDef.{ServiceDef};
ghost use Rattle.rc_parse.specs.Files.{Reads};
ghost use Rattle.rc_parse.specs.Kept.{agains_behind};
ghost use Rattle.rc_parse.specs.declared.parsed.Parsed.{Parsed};

use init_base::{List, NoMemory, Text};
use init_machine::Diagnostic;
use rc_parse::Import;
use std::alloc::Global;

/// What is gathered of files, one after another.
pub trait Gathers: Drop {
    // whether this is gathered of files with these actions and these services
    ghost holds: { Self → Items Action → Items ServiceDef → Type 0 };

    /// Of no files.
    fn none(alloc: Global) -> Self
        ensures { holds result [] [] };

    /// Reads one file more, of this content, and answers its imports. Its diagnostics are added, and then those of its
    /// services that are second ones of their names.
    fn read(
        self,
        alloc: Global,
        path: &Text,
        content: &Text,
        diagnostics: &mut List<Diagnostic>,
    ) -> Result<(Self, List<Import>), NoMemory>
        requires { length content.now ≤ 1048576 }
        ensures gathered { IfOk result (λ next. (actions : Items Action) (services : Items ServiceDef) (parsed : Parsed) →
            holds self actions services → Reads path.now content.now parsed
            → holds next.0 (actions ++ parsed.actions) (services ++ parsed.services)) }
        ensures imports { IfOk result (λ next. (parsed : Parsed) → Reads path.now content.now parsed → next.1 ≡ parsed.imports) }
        ensures diagnostics { OnOk result ((actions : Items Action) (services : Items ServiceDef) (parsed : Parsed) →
            holds self actions services → Reads path.now content.now parsed →
            diagnostics.new ≡ diagnostics.old ++ (parsed.diagnostics ++ agains_behind services parsed.services)) };
}
