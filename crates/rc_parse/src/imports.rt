//! Imports, and lines that belong to no section or were left out.

ghost use Rattle.std.specs.Prelude.{◌≡◌, ◌∷◌, ◌++◌, ◌==◌, [], OnOk, if◌then◌else◌, length};
ghost use Rattle.init_machine.specs.declared.diagnostic.DiagKind.TheVariants as kinds;
ghost use Rattle.rc_parse.specs.internal.Adding.{section_of};
ghost use Rattle.rc_parse.specs.Lines as spec;
ghost use Rattle.rc_parse.specs.Readings.{diagnostic};
ghost use Rattle.rc_parse.specs.Sections.{cut, import_diagnostics, import_with, orphan_diagnostics};

use crate::parsed::{Import, diagnose};
use crate::words::arguments;
use init_base::{List, NoMemory, Text};
use init_machine::{DiagKind, Diagnostic};
use rc_tokens::{Line, LineSlice};

/// Adds the diagnostics of lines that belong to no section.
pub fn add_orphans(
    diagnostics: &mut List<Diagnostic>,
    file: &Text,
    mut lines: LineSlice<'_>,
) -> Result<(), NoMemory>
    ensures { OnOk result (diagnostics.new ≡ diagnostics.old ++ orphan_diagnostics file.now lines.entry) }
{
    while let Some(line) = lines.pop() {
        diagnose(diagnostics, file, line.number(), DiagKind::Orphan)?;
    }
    Ok(())
}

/// Adds the import that these words behind `import` are, or its diagnostic.
pub fn add_path(
    imports: &mut List<Import>,
    diagnostics: &mut List<Diagnostic>,
    file: &Text,
    line: u32,
    words: &[Text],
) -> Result<(), NoMemory>
    ensures imports { OnOk result (imports.new ≡ imports.old ++ import_with line words.now) }
    ensures diagnostics { OnOk result (diagnostics.new ≡ diagnostics.old
        ++ (if length words.now == 1 then [] else diagnostic file.now line kinds.BadImport ∷ [])) }
{
    let [path] = words else {
        return diagnose(diagnostics, file, line, DiagKind::BadImport);
    };
    let path = path.share()?;
    imports.push(Import { path, line })
}

/// Adds what an `import` section with this header gives. The lines behind it belong to no section.
pub fn read_import(
    imports: &mut List<Import>,
    diagnostics: &mut List<Diagnostic>,
    file: &Text,
    header: &Line<'_>,
    lines: LineSlice<'_>,
) -> Result<(), NoMemory>
    ensures imports { OnOk result (imports.new ≡ imports.old ++ import_with header.now.number (spec.arguments header.now.words)) }
    ensures diagnostics { OnOk result
        (diagnostics.new ≡ diagnostics.old ++ import_diagnostics file.now (section_of header.now lines.entry)) }
{
    let words = arguments(header.words());
    add_path(imports, diagnostics, file, header.number(), words)?;
    add_orphans(diagnostics, file, lines)
}

/// Adds the line that was left out of a file.
pub fn add_cut(
    diagnostics: &mut List<Diagnostic>,
    file: &Text,
    dropped: Option<u32>,
) -> Result<(), NoMemory>
    ensures { OnOk result (diagnostics.new ≡ diagnostics.old ++ cut file.now dropped) }
{
    match dropped {
        Some(line) => diagnose(diagnostics, file, line, DiagKind::Cut),
        None => Ok(()),
    }
}
