//! The names of the services of the files that were read, where nothing else of them is kept.

ghost use Rattle.std.specs.Prelude.{◌≡◌, IfOk};
ghost use Rattle.rc_parse.specs.Files.{Reads};
ghost use Rattle.rc_parse.specs.Skims.{skim_of};
ghost use Rattle.rc_parse.specs.declared.parsed.Parsed.{Parsed};

use crate::gathers::Gathers;
use init_base::{List, NoMemory, Text};
use init_machine::Diagnostic;
use rc_parse::{Import, Names, Skimmed, skim};
use rc_tokens::span_lines;
use std::alloc::Global;

impl Gathers for Names {
    ghost use Rattle.rc_parse.specs.Names.{AreNamesOf};

    ghost holds = { λ names actions services. AreNamesOf names services };

    fn none(alloc: Global) -> Self {
        Names::new(alloc)
    }

    fn read(
        self,
        alloc: Global,
        path: &Text,
        content: &Text,
        diagnostics: &mut List<Diagnostic>,
    ) -> Result<(Self, List<Import>), NoMemory> {
        let mut names = self;
        let Skimmed {
            services,
            imports,
            diagnostics: own,
        } = skim_of_file(alloc, path, content)?;
        diagnostics.append(own)?;
        names.add_all(services, diagnostics)?;
        Ok((names, imports))
    }
}

/// What is told of a file without its actions and services. Its bytes are within the limit of tokens too.
fn skim_of_file(alloc: Global, path: &Text, content: &Text) -> Result<Skimmed, NoMemory>
    ensures { IfOk result (λ skimmed. (parsed : Parsed) → Reads path.now content.now parsed → skimmed ≡ skim_of parsed) }
{
    let Ok(tokens) = span_lines(alloc, content.bytes()) else {
        return Err(NoMemory);
    };
    skim(alloc, path, &tokens)
}
