//! The lines of the files that have diagnostics.

ghost use Rattle.std.specs.Prelude.{◌≡◌, ◌<◌, ◌&&◌, ℕ, List as Items, [], Some, IfErr, IfOk, IfSome, nat_eq, length, slice_get};
ghost use Rattle.std.specs.List.{list_any};
ghost use Rattle.init_base.specs.Faults.{Counted};
ghost use Rattle.init_machine.specs.declared.diagnostic.Diagnostic.{Diagnostic as AnyDiagnostic};
ghost use Rattle.rc_import.specs.Answers.{is_read_fault};
ghost use Rattle.lint_sources.specs.Sources.{AreSourcesOf, HasSourceAt, IsLater, IsSourceOf};
ghost use Rattle.lint_sources.specs.Excused as excused_spec;
ghost use Rattle.lint_sources.specs.Told.{IsTold, Told, lines_at};
ghost use Rattle.lint_sources.specs.Told as told_spec;

use crate::excuse::{Part, taken_elsewhere};
use collections::TextIndex;
use init_base::{Files, List, NoMemory, ReadRefusal, Text};
use init_machine::{DiagKind, Diagnostic};
use rc_import::LoadRefusal;
use rc_parse::{is_header, is_on, is_service};
use rc_tokens::{Line, LineSlice, TokenRefusal, Tokens, lines};
use std::alloc::Global;
use std::collections::HashSet;

/// The most bytes of a file.
const MOST_BYTES: usize = 1_048_576;

/// A header of a file, and what the lines below it stand in: none where it is an import.
#[derive(Clone, Copy)]
pub struct Header {
    pub line: u32,
    pub part: Option<Part>,
}

/// A file that has diagnostics.
#[derive(Drop)]
pub struct Source {
    pub file: Text,
    pub tokens: Tokens,
    /// Its headers, in order.
    pub headers: List<Header>,
    /// The numbers of the lines that another init takes.
    pub taken: HashSet<u32>,
}

impl Source {
    /// The words of the line with this number, and what it stands in: none where it is in no section, or in an import.
    pub fn words_at(&self, number: u32) -> (&[Text], Option<Part>) {
        let lines = self.tokens.lines();
        match lines.at(place_of_line(&lines, number)) {
            Some(line) if line.number() == number => (line.words(), self.part_at(number)),
            _ => (&[], None),
        }
    }

    /// What a line stands in.
    fn part_at(&self, number: u32) -> Option<Part> {
        let headers = self.headers.items();
        let behind = headers.partition_point(|header| header.line <= number);
        headers[..behind].last()?.part
    }
}

/// The place of the first line with this number or a greater one.
fn place_of_line(lines: &LineSlice<'_>, number: u32) -> usize {
    let mut least = 0;
    let mut most = lines.len();
    while least < most {
        let middle = least + (most - least) / 2;
        match lines.at(middle) {
            Some(line) if line.number() < number => least = middle + 1,
            _ => most = middle,
        }
    }
    least
}

/// Whether a diagnostic of this kind can be excused.
fn is_excusable(kind: DiagKind) -> bool
    ensures { result ≡ excused_spec.is_excusable kind }
{
    matches!(kind, DiagKind::BadWord | DiagKind::BadTrigger)
}

impl Source {
    /// Whether a diagnostic of the file is excused.
    pub fn is_excused(&self, diagnostic: &Diagnostic) -> bool
        ensures { result ≡ (excused_spec.is_excusable diagnostic.now.kind && list_any (nat_eq diagnostic.now.line) self.now.taken.keys) }
    {
        is_excusable(diagnostic.kind) && self.taken.contains(&diagnostic.line)
    }
}

/// The lines that some bytes spell. None where they are past the limit of files.
fn tokens_of(alloc: Global, bytes: &[u8]) -> Result<Tokens, NoMemory>
    ensures { (told : Told) (tree : Items (Items ℕ × Items ℕ)) → IsTold (Some tree) told
        → IfOk result (λ tokens. tokens.lines ≡ told_spec.lines_of told (Some bytes.now)) }
{
    match lines(alloc, bytes) {
        Ok(tokens) => Ok(tokens),
        Err(TokenRefusal::TooLarge) => Ok(Tokens::new(alloc)),
        Err(TokenRefusal::NoMemory) => Err(NoMemory),
    }
}

/// The lines of a file. None where it isn't there.
fn read_tokens<F: Files>(alloc: Global, files: &mut F, path: &Text) -> Result<Tokens, LoadRefusal>
    ensures told { (told : Told) → IsTold (F.tree files.old) told → IfOk result (λ tokens. tokens.lines ≡ lines_at told path.now) }
    ensures kind { IfErr result IsLater }
    ensures tree { F.tree files.new ≡ F.tree files.old }
    ensures cause { Counted (is_read_fault result) (F.fault_count files.old) (F.fault_count files.new) }
{
    match files.read(alloc, path.bytes(), MOST_BYTES) {
        Ok(Some(text)) => Ok(tokens_of(alloc, text.bytes())?),
        Ok(None) | Err(ReadRefusal::TooLarge) => Ok(Tokens::new(alloc)),
        Err(ReadRefusal::Failed) => Err(LoadRefusal::ReadFault),
        Err(ReadRefusal::NoMemory) => Err(LoadRefusal::NoMemory),
    }
}

/// The headers among these lines.
fn headers_of(alloc: Global, mut lines: LineSlice<'_>) -> Result<List<Header>, NoMemory> {
    let mut headers = List::new(alloc);
    while let Some(line) = lines.pop() {
        if is_header(&line) {
            headers.push(Header {
                line: line.number(),
                part: part_below(&line),
            })?;
        }
    }
    Ok(headers)
}

/// What the lines below a header stand in.
fn part_below(header: &Line<'_>) -> Option<Part> {
    if is_on(header) {
        Some(Part::Action)
    } else if is_service(header) {
        Some(Part::Service)
    } else {
        None
    }
}

fn read_source<F: Files>(
    alloc: Global,
    files: &mut F,
    allowed: &List<Text>,
    file: &Text,
) -> Result<Source, LoadRefusal>
    ensures file { IfOk result (λ source. source.file ≡ file.now) }
    ensures told { (told : Told) → IsTold (F.tree files.old) told → IfOk result (IsSourceOf allowed.now told) }
    ensures kind { IfErr result IsLater }
    ensures tree { F.tree files.new ≡ F.tree files.old }
    ensures cause { Counted (is_read_fault result) (F.fault_count files.old) (F.fault_count files.new) }
{
    let tokens = read_tokens(alloc, files, file)?;
    let taken = taken_elsewhere(alloc, allowed, &tokens.lines())?;
    let headers = headers_of(alloc, tokens.lines())?;
    Ok(Source {
        file: file.share()?,
        tokens,
        headers,
        taken,
    })
}

/// The files that have diagnostics, each once, as they are asked for.
#[derive(Drop)]
pub struct Sources {
    index: TextIndex,
    pub sources: List<Source>,
}

impl Sources {
    pub fn new(alloc: Global) -> Sources
        ensures { result.sources ≡ [] }
    {
        Sources {
            index: TextIndex::new(alloc),
            sources: List::new(alloc),
        }
    }

    /// The place of a file, where it was read.
    #[tactic(auto, using(crate::proofs::Placed::has_source))]
    fn place(&self, file: &Text) -> Option<usize>
        ensures { IfSome result (HasSourceAt self.now.sources file.now) }
    {
        let place = self.index.place(file.bytes())?;
        let source = self.sources.at(place)?;
        if source.file.is(file.bytes()) {
            Some(place)
        } else {
            None
        }
    }

    /// The place of a file, which is read where it wasn't yet.
    pub fn place_of<F: Files>(
        &mut self,
        alloc: Global,
        files: &mut F,
        allowed: &List<Text>,
        file: &Text,
    ) -> Result<usize, LoadRefusal>
        ensures place { IfOk result (HasSourceAt self.new.sources file.now) }
        ensures told { (told : Told) → IsTold (F.tree files.old) told → AreSourcesOf allowed.now told self.old.sources
            → IfOk result (λ _. AreSourcesOf allowed.now told self.new.sources) }
        ensures kind { IfErr result IsLater }
        ensures tree { F.tree files.new ≡ F.tree files.old }
        ensures cause { Counted (is_read_fault result) (F.fault_count files.old) (F.fault_count files.new) }
    {
        if let Some(place) = self.place(file) {
            return Ok(place);
        }
        let source = read_source(alloc, files, allowed, file)?;
        self.index.add(file.bytes())?;
        let place = self.sources.len();
        self.sources.push(source)?;
        Ok(place)
    }
}
