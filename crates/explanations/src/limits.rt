//! Which limit is exceeded, and where.

use crate::line::file_has;
use crate::named::{is_form, joined, root_of, script_of, trace_of};
use crate::refusal::{ALLOW, CONTEXTS};
use init_base::{Files, List, ReadRefusal, Text};
use init_machine::{Limit, PropStore};
use job_reader::read_build_files;
use list_store::ListStore;
use prop_rules::boot_view;
use rc_import::{LoadRefusal, diagnose};
use refusal_causes::ShownPath;
use std::alloc::Global;
use tree_store::TEXT;

const MOST_FILE_BYTES: usize = 1_048_576;

const SYSTEM_BUILD: &[u8] = b"/system/build.prop";

const VENDOR_BUILD: &[u8] = b"/vendor/build.prop";

/// The most bytes of a file of the tree.
const FILE_BYTES: &str = "1048576 bytes";

/// Which limit is exceeded, and where.
pub fn too_large<F: Files>(
    alloc: Global,
    words: &List<Text>,
    files: &mut F,
    limit: Limit,
    number: u64,
) -> Option<String> {
    match limit {
        Limit::ScriptBytes => file_has(alloc, script_of(words)?, "16777216 bytes"),
        Limit::ScriptLines => file_has(alloc, script_of(words)?, "100000 lines"),
        Limit::Steps => file_has(alloc, script_of(words)?, "1000000 steps"),
        Limit::StoreBytes => tree_file_has(alloc, root_of(words)?, TEXT, "33554432 bytes"),
        Limit::FileBytes => long_file(alloc, words, files, number),
        Limit::Files | Limit::Names | Limit::RcBytes => {
            rc_files(alloc, root_of(words)?, files, limit, number)
        }
        Limit::TraceBytes => file_has(alloc, trace_of(words)?, "67108864 bytes"),
    }
}

fn tree_file_has(alloc: Global, root: &Text, path: &[u8], what: &str) -> Option<String> {
    let path = joined(alloc, root, path).ok()?;
    let line = file_has(alloc, &path, what);
    drop(path);
    line
}

/// The file of the tree that has too many bytes: the first in the order in which they are read.
fn long_file<F: Files>(
    alloc: Global,
    words: &List<Text>,
    files: &mut F,
    number: u64,
) -> Option<String> {
    let root = root_of(words)?;
    let reads_policy = !is_form(words, b"check");
    if reads_policy && is_long(alloc, files, CONTEXTS) {
        tree_file_has(alloc, root, CONTEXTS, FILE_BYTES)
    } else if reads_policy && is_long(alloc, files, ALLOW) {
        tree_file_has(alloc, root, ALLOW, FILE_BYTES)
    } else if is_long(alloc, files, SYSTEM_BUILD) {
        tree_file_has(alloc, root, SYSTEM_BUILD, FILE_BYTES)
    } else if is_long(alloc, files, VENDOR_BUILD) {
        tree_file_has(alloc, root, VENDOR_BUILD, FILE_BYTES)
    } else {
        rc_files(alloc, root, files, Limit::FileBytes, number)
    }
}

/// Whether a file has more bytes than it may.
fn is_long<F: Files>(alloc: Global, files: &mut F, path: &[u8]) -> bool {
    let read = files.read(alloc, path, MOST_FILE_BYTES);
    matches!(read, Err(ReadRefusal::TooLarge))
}

/// What the rc files exceed, by loading them once more.
fn rc_files<F: Files>(
    alloc: Global,
    root: &Text,
    files: &mut F,
    limit: Limit,
    number: u64,
) -> Option<String> {
    let view = boot_props(alloc, files)?;
    let refusal = load_refusal(alloc, files, view)?;
    let line = match path_in(&refusal, number) {
        Some(path) => rc_line(alloc, root, path, limit, number),
        None => None,
    };
    drop(refusal);
    line
}

/// The properties that the build files set, by which imports are expanded.
fn boot_props<F: Files>(alloc: Global, files: &mut F) -> Option<ListStore> {
    let props = read_build_files(alloc, files).ok()?;
    let view = boot_view(alloc, &props.pairs).ok();
    drop(props);
    view
}

/// Why the rc files can't be loaded, if so.
fn load_refusal<F: Files, S: PropStore + Drop>(
    alloc: Global,
    files: &mut F,
    mut view: S,
) -> Option<LoadRefusal> {
    diagnose(alloc, files, &mut view).err()
}

/// The path at which a limit is exceeded, if this number is found there.
fn path_in(refusal: &LoadRefusal, wanted: u64) -> Option<&[u8]> {
    match refusal {
        LoadRefusal::TooLarge { path, number, .. } | LoadRefusal::TooMany { path, number } => {
            if *number == wanted {
                Some(path.bytes())
            } else {
                None
            }
        }
        _ => None,
    }
}

fn rc_line(alloc: Global, root: &Text, path: &[u8], limit: Limit, number: u64) -> Option<String> {
    let path = joined(alloc, root, path).ok()?;
    let line = passed_line(alloc, &path, limit, number);
    drop(path);
    line
}

/// What is exceeded at the path of an rc file or a directory of them.
fn passed_line(alloc: Global, path: &Text, limit: Limit, number: u64) -> Option<String> {
    let last = ShownPath(path.bytes());
    match limit {
        Limit::FileBytes => file_has(alloc, path, FILE_BYTES),
        Limit::Names => file_has(alloc, path, "1024 names"),
        Limit::Files => format!(in alloc; "{number} rc files are read, the last {last}").ok(),
        _ => format!(in alloc; "the rc files have more than 33554432 bytes, the last {last}").ok(),
    }
}
