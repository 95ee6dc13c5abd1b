//! What was read so far, and one file more. The limits are those of `specs/Limits.antt`.

ghost use Rattle.std.specs.Prelude.{◌≡◌, ◌≤◌, ◌<◌, ◌+◌, ℕ, List as Items, Option as Maybe, false, IfOk, length};
ghost use Rattle.init_base.specs.Faults.{Counted};
ghost use Rattle.rc_parse.specs.Files.{Reads};
ghost use Rattle.rc_import.specs.Answers.{HasItsNumber, is_read_fault};
ghost use Rattle.rc_import.specs.Limits.{SoFar, nothing, with_bytes};
ghost use Rattle.rc_import.specs.Limits as spec;
ghost use Rattle.rc_import.specs.Order.{fault};
ghost use Rattle.rc_import.specs.World.{IsWorld, World};
ghost use Rattle.rc_parse.specs.declared.parsed.Parsed.{Parsed};
ghost use Rattle.rc_import.specs.internal.Steps.{Follows, IsFile, IsShort, MeansFiles, ReachesImports, ReadsContent, Stands};

use crate::gathers::Gathers;
use crate::loaded::{LoadLimit, LoadRefusal};
use init_base::{Files, List, NoMemory, ReadRefusal, Text};
use init_machine::{DiagKind, Diagnostic};
use rc_parse::Import;
use std::alloc::Global;

/// The most files that are read, those that aren't there included.
const MOST_FILES: u64 = 1_024;

const ONE_FILE_MORE: u64 = 1_025;

/// The most bytes of a file.
const MOST_FILE_BYTES: usize = 1_048_576;

const ONE_BYTE_MORE: u64 = 1_048_577;

/// The most bytes of all files.
const MOST_BYTES: u64 = 33_554_432;

/// What was read so far: how many files were asked for, the sum of their bytes, what is gathered of them, and what is wrong in
/// them.
#[derive(Drop)]
pub struct Loading<G> {
    gathered: G,
    diagnostics: List<Diagnostic>,
    files: u64,
    bytes: u64,
}

impl<G: Gathers> Loading<G> {
    pub fn new(alloc: Global) -> Loading<G>
        ensures { Stands G.holds result nothing }
    {
        Loading {
            gathered: G::none(alloc),
            diagnostics: List::new(alloc),
            files: 0,
            bytes: 0,
        }
    }

    /// Adds the diagnostic of an import at a line of a file.
    pub fn with_fault(
        self,
        file: &Text,
        line: u32,
        kind: DiagKind,
    ) -> Result<Loading<G>, LoadRefusal>
        ensures order { (tree : Maybe (Items (Items ℕ × Items ℕ))) (look_up : Items ℕ → Maybe (Items ℕ)) →
            Follows G.holds tree look_up self result (λ _. fault file.now line kind) }
        ensures number { HasItsNumber result }
        ensures steady { is_read_fault result ≡ false }
    {
        let mut loading = self;
        loading.diagnostics.push(Diagnostic {
            file: file.share()?,
            line,
            kind,
        })?;
        Ok(loading)
    }

    /// Reads the file with this path, and answers its imports. None where it isn't there.
    pub fn read<F: Files>(
        self,
        alloc: Global,
        files: &mut F,
        path: &Text,
    ) -> Result<(Loading<G>, Option<List<Import>>), LoadRefusal>
        ensures read { (look_up : Items ℕ → Maybe (Items ℕ)) → IsFile G.holds (F.tree files.old) look_up self path.now result }
        ensures number { HasItsNumber result }
        ensures tree { F.tree files.new ≡ F.tree files.old }
        ensures cause { Counted (is_read_fault result) (F.fault_count files.old) (F.fault_count files.new) }
    {
        if self.files >= MOST_FILES {
            return Err(LoadRefusal::TooMany {
                path: path.share()?,
                number: ONE_FILE_MORE,
            });
        }
        match content_of(alloc, files, path)? {
            Some(content) => self.with_content(alloc, path, &content),
            None => Ok((self.with_nothing(), None)),
        }
    }
}

impl<G: Gathers> Loading<G> {
    /// Counts a file that isn't there.
    fn with_nothing(self) -> Loading<G>
        requires { self.files < 1024 }
        ensures { (sofar : SoFar) → Stands G.holds self sofar → Stands G.holds result (record sofar { files = sofar.files + 1 }) }
    {
        let mut loading = self;
        loading.files += 1;
        loading
    }

    /// Adds a file of this content, and answers its imports.
    fn with_content(
        self,
        alloc: Global,
        path: &Text,
        content: &Text,
    ) -> Result<(Loading<G>, Option<List<Import>>), LoadRefusal>
        requires few { self.files < 1024 }
        requires short { length content.now ≤ 1048576 }
        ensures read { (world : World) → MeansFiles world → (sofar : SoFar) → Stands G.holds self sofar →
            ReachesImports G.holds result (with_bytes world sofar path.now (Some content.now))
            (Some (world.means path.now content.now).imports) }
        ensures number { HasItsNumber result }
        ensures steady { is_read_fault result ≡ false }
    {
        let bytes = self.bytes.saturating_add(content.len() as u64);
        if bytes > MOST_BYTES {
            return Err(LoadRefusal::TooLarge {
                path: path.share()?,
                limit: LoadLimit::AllBytes,
                number: bytes,
            });
        }
        let (loading, imports) = self.with_file(alloc, bytes, path, content)?;
        Ok((loading, Some(imports)))
    }

    /// Adds a file of this content, behind which so many bytes were read, and answers its imports.
    fn with_file(
        self,
        alloc: Global,
        bytes: u64,
        path: &Text,
        content: &Text,
    ) -> Result<(Loading<G>, List<Import>), NoMemory>
        requires few { self.files < 1024 }
        requires short { length content.now ≤ 1048576 }
        ensures stands { IfOk result (λ next. (sofar : SoFar) (size : ℕ) (parsed : Parsed) → Stands G.holds self sofar
            → Reads path.now content.now parsed →
            bytes ≡ sofar.bytes + size → bytes ≤ 33554432 → Stands G.holds next.0 (spec.with_file sofar size parsed)) }
        ensures imports { IfOk result (λ next. (parsed : Parsed) → Reads path.now content.now parsed → next.1 ≡ parsed.imports) }
    {
        let Loading {
            gathered,
            mut diagnostics,
            files,
            ..
        } = self;
        let (gathered, imports) = gathered.read(alloc, path, content, &mut diagnostics)?;
        let loading = Loading {
            gathered,
            diagnostics,
            files: files + 1,
            bytes,
        };
        Ok((loading, imports))
    }

    /// What was gathered, and the diagnostics.
    pub fn into_parts(self) -> (G, List<Diagnostic>)
        ensures gathered { result.0 ≡ self.gathered }
        ensures diagnostics { result.1 ≡ self.diagnostics }
    {
        (self.gathered, self.diagnostics)
    }
}

/// The content of the file with this path. None where it isn't there.
fn content_of<F: Files>(
    alloc: Global,
    files: &mut F,
    path: &Text,
) -> Result<Option<Text>, LoadRefusal>
    ensures content { ReadsContent (F.tree files.old) path.now result }
    ensures short { IsShort result }
    ensures number { HasItsNumber result }
    ensures tree { F.tree files.new ≡ F.tree files.old }
    ensures cause { Counted (is_read_fault result) (F.fault_count files.old) (F.fault_count files.new) }
{
    match files.read(alloc, path.bytes(), MOST_FILE_BYTES) {
        Ok(content) => Ok(content),
        Err(ReadRefusal::TooLarge) => Err(LoadRefusal::TooLarge {
            path: path.share()?,
            limit: LoadLimit::FileBytes,
            number: ONE_BYTE_MORE,
        }),
        Err(ReadRefusal::Failed) => Err(LoadRefusal::ReadFault),
        Err(ReadRefusal::NoMemory) => Err(LoadRefusal::NoMemory),
    }
}
