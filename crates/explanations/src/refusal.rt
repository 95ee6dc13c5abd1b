//! After a refusal: which line of which file is bad and why, or which limit is exceeded where.

ghost use Rattle.std.specs.Prelude.{◌≤◌, length};

use crate::limits::too_large;
use crate::line::{cause_of, file_line};
use crate::named::{
    Named, file_or, is_form, joined, root_of, script_of, script_text, text_or, trace_of, with_path,
};
use crate::verdict::{bad_trace, bad_verdict};
use init_base::{Files, Keeper, Source, Text};
use job_reader::Status;
use persist_disk::{Disk, LateKeeper, OpenRefusal};
use refusal_causes::{ContextCause, allow_cause, context_cause, script_cause, store_cause};
use std::alloc::Global;
use std::fmt;
use tree_store::{IMAGE, TEXT};

const MOST_STORE_BYTES: usize = 33_554_432;

const MOST_SLOT_BYTES: u64 = 33_554_432;

/// Where the contexts are, below the root.
pub const CONTEXTS: &[u8] = b"/property_contexts";

/// Where the allow text is, below the root.
pub const ALLOW: &[u8] = b"/property_allow";

/// What an absent contexts file counts as.
const DEFAULT_CONTEXTS: &[u8] = b"* default_prop";

/// Why the image of the store is no store.
#[derive(Clone, Copy)]
struct BadSlot {
    slot: u8,
    len: u64,
}

impl fmt::Display for BadSlot {
    fn fmt<W: fmt::Write>(&self, f: &mut fmt::Formatter<W>) -> fmt::Result {
        let BadSlot { slot, len } = *self;
        if len > MOST_SLOT_BYTES {
            write!(
                f,
                "the length in slot {slot} is {len}, and a slot holds {MOST_SLOT_BYTES} bytes"
            )?;
        } else {
            write!(
                f,
                "the text in slot {slot} has {len} bytes by its length, and the file ends before"
            )?;
        }
        f.write_str("; tools/store looks into it")
    }
}

/// What is wrong with the image of the store, if it is no store.
pub fn image_line<F, S, T, D: Disk, P: Keeper>(
    alloc: Global,
    named: &mut Named<'_, F, S, T, D, P>,
) -> Option<String> {
    let root = root_of(named.words)?;
    let bad = bad_slot_of(&mut named.store)?;
    let path = joined(alloc, root, IMAGE).ok()?;
    let line = file_line(alloc, &path, &bad);
    drop(path);
    line
}

fn bad_slot_of<D: Disk, P: Keeper>(store: &mut LateKeeper<D, P>) -> Option<BadSlot> {
    match store.look() {
        Err(OpenRefusal::BadSlot { slot, len }) => Some(BadSlot { slot, len }),
        _ => None,
    }
}

/// What is wrong if the status is a refusal of what was read, or if the verdict that was written isn't yes.
pub fn cause_line<F: Files, S: Source, T: Source, D: Disk, P: Keeper>(
    alloc: Global,
    named: &mut Named<'_, F, S, T, D, P>,
    status: Status,
    wrote: &[u8],
) -> Option<String> {
    let words = named.words;
    match status {
        Status::Done if is_form(words, b"audit") => bad_verdict(alloc, named, wrote),
        Status::BadTrace => bad_trace(alloc, trace_of(words)?, &mut named.trace),
        Status::BadScript { line } => {
            bad_script(alloc, script_of(words)?, &mut named.script, line)
        }
        Status::BadPolicy { allow: false, line } => {
            bad_contexts(alloc, root_of(words)?, &mut named.files, line)
        }
        Status::BadPolicy { allow: true, line } => {
            bad_allow(alloc, root_of(words)?, &mut named.files, line)
        }
        Status::BadStore { line, .. } => {
            bad_store(alloc, root_of(words)?, &mut named.store, line)
        }
        Status::TooLarge { limit, number } => {
            too_large(alloc, words, &mut named.files, limit, number)
        }
        _ => None,
    }
}

fn bad_script<S: Source>(
    alloc: Global,
    path: &Text,
    script: &mut Option<S>,
    line: u32,
) -> Option<String> {
    let text = script_text(alloc, script)?;
    let cause = script_cause(alloc, text.bytes(), line);
    drop(text);
    cause_of(alloc, path, line, cause)
}

fn bad_contexts<F: Files>(alloc: Global, root: &Text, files: &mut F, line: u32) -> Option<String> {
    let file = file_or(alloc, root, files, CONTEXTS, DEFAULT_CONTEXTS)?;
    let cause = context_cause(alloc, file.text.bytes(), line);
    let said = contexts_line(alloc, &file.path, line, cause);
    drop(file);
    said
}

/// The cause of a bad line of the contexts. That the default is missing is said of the whole file.
fn contexts_line<E: Drop>(
    alloc: Global,
    path: &Text,
    line: u32,
    cause: Result<Option<ContextCause>, E>,
) -> Option<String> {
    match cause {
        Ok(Some(ContextCause::NoDefault)) => file_line(alloc, path, &ContextCause::NoDefault),
        cause => cause_of(alloc, path, line, cause),
    }
}

fn bad_allow<F: Files>(alloc: Global, root: &Text, files: &mut F, line: u32) -> Option<String> {
    let contexts = text_or(alloc, files, CONTEXTS, DEFAULT_CONTEXTS)?;
    let said = allow_line(alloc, root, files, contexts.bytes(), line);
    drop(contexts);
    said
}

/// The cause of a bad line of the allow text, beside these contexts.
fn allow_line<F: Files>(
    alloc: Global,
    root: &Text,
    files: &mut F,
    contexts: &[u8],
    line: u32,
) -> Option<String>
    requires { length contexts.now ≤ 1048576 }
{
    let file = file_or(alloc, root, files, ALLOW, b"")?;
    let cause = allow_cause(alloc, contexts, file.text.bytes(), line);
    let said = cause_of(alloc, &file.path, line, cause);
    drop(file);
    said
}

fn bad_store<D: Disk, P: Keeper>(
    alloc: Global,
    root: &Text,
    store: &mut LateKeeper<D, P>,
    line: u32,
) -> Option<String> {
    let text = store.load(alloc, MOST_STORE_BYTES).ok()?;
    let path = if store.store().is_open() { IMAGE } else { TEXT };
    let file = with_path(text, joined(alloc, root, path))?;
    let cause = store_cause(alloc, file.text.bytes(), line);
    let said = cause_of(alloc, &file.path, line, cause);
    drop(file);
    said
}
