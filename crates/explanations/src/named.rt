//! What the words of the command line name, to be read once more.

ghost use Rattle.std.specs.Prelude.{◌≡◌, ◌≤◌, IfSome, length};

use init_base::{Files, Keeper, List, NoMemory, Source, Text, both, read_all};
use persist_disk::{Disk, LateKeeper};
use std::alloc::Global;

const MOST_FILE_BYTES: usize = 1_048_576;

const MOST_SCRIPT_BYTES: usize = 16_777_216;

const MOST_TRACE_BYTES: usize = 67_108_864;

/// The words, and what they name.
#[derive(Drop)]
pub struct Named<'a, F, S, T, D: Disk, P: Keeper> {
    pub words: &'a List<Text>,
    pub files: F,
    /// The script, if it is a plain file: another can't be read twice.
    pub script: Option<S>,
    /// The trace, likewise.
    pub trace: Option<T>,
    pub store: LateKeeper<D, P>,
}

/// A file of the tree that was read: its path as the machine has it, and its bytes.
#[derive(Drop)]
pub struct TreeText {
    pub path: Text,
    pub text: Text,
}

/// Whether the first of the words is this one.
pub fn is_form(words: &List<Text>, form: &[u8]) -> bool {
    match words.at(0) {
        Some(word) => word.is(form),
        None => false,
    }
}

/// The word ROOT.
pub fn root_of(words: &List<Text>) -> Option<&Text> {
    words.at(1)
}

/// The word SCRIPT.
pub fn script_of(words: &List<Text>) -> Option<&Text> {
    words.at(2)
}

/// The word TRACE.
pub fn trace_of(words: &List<Text>) -> Option<&Text> {
    words.at(3)
}

/// All bytes of the script.
pub fn script_text<S: Source>(alloc: Global, script: &mut Option<S>) -> Option<Text> {
    whole_text(alloc, script, MOST_SCRIPT_BYTES)
}

/// All bytes of the trace.
pub fn trace_text<T: Source>(alloc: Global, trace: &mut Option<T>) -> Option<Text> {
    whole_text(alloc, trace, MOST_TRACE_BYTES)
}

fn whole_text<S: Source>(alloc: Global, source: &mut Option<S>, most: usize) -> Option<Text> {
    match source {
        Some(source) => read_all(alloc, source, most).ok(),
        None => None,
    }
}

/// The bytes of a file of the tree, or other ones if it is absent.
pub fn text_or<F: Files>(alloc: Global, files: &mut F, path: &[u8], absent: &[u8]) -> Option<Text>
    requires { length absent.now ≤ 1048576 }
    ensures { IfSome result (λ text. length text ≤ 1048576) }
{
    match files.read(alloc, path, MOST_FILE_BYTES) {
        Ok(Some(text)) => Some(text),
        Ok(None) => Text::of(alloc, absent).ok(),
        Err(_) => None,
    }
}

/// The same with its path below a root.
pub fn file_or<F: Files>(
    alloc: Global,
    root: &Text,
    files: &mut F,
    path: &[u8],
    absent: &[u8],
) -> Option<TreeText>
    requires { length absent.now ≤ 1048576 }
    ensures { IfSome result (λ file. length file.text ≤ 1048576) }
{
    let text = text_or(alloc, files, path, absent)?;
    with_path(text, joined(alloc, root, path))
}

/// A text, and the path at which it was read.
pub fn with_path(text: Text, path: Result<Text, NoMemory>) -> Option<TreeText>
    ensures { IfSome result (λ file. file.text ≡ text) }
{
    let (text, path) = both(text, path).ok()?;
    Some(TreeText { path, text })
}

/// The path of a file of the tree, as the machine has it.
pub fn joined(alloc: Global, root: &Text, path: &[u8]) -> Result<Text, NoMemory> {
    let mut joined = Vec::from_slice(alloc, root.bytes())?;
    joined.extend_from_slice(path)?;
    Text::of(alloc, &joined)
}
