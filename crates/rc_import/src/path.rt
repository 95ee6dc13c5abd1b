//! The paths to which imports lead. The rules are in `specs/Paths.antt`.

ghost use Rattle.std.specs.Prelude.{◌≡◌, ◌∷◌, ◌++◌, ◌≤◌, IfOk, length};
ghost use Rattle.init_machine.specs.Expand as expand_spec;
ghost use Rattle.init_machine.specs.Props.{value_in};
ghost use Rattle.rc_import.specs.internal.Steps.{IsExpanded};
ghost use Rattle.rc_import.specs.Stores.{IsKept};
ghost use Rattle.rc_import.specs.Paths as paths_spec;

use init_base::{NoMemory, Text};
use init_machine::PropStore;
use prop_rules::{ExpandRefusal, expand};
use std::alloc::Global;

/// The path with its properties expanded. None where that fails.
pub fn expanded<S: PropStore>(
    alloc: Global,
    props: &mut S,
    path: &Text,
) -> Result<Option<Text>, NoMemory>
    ensures answer { IsExpanded result (expand_spec.expand (value_in (S.meaning props.old)) path.now) }
    ensures store { IsKept S.meaning S.told S.spare S.Beside props.old props.new }
{
    match expand(alloc, path, props) {
        Ok(path) => Ok(Some(path)),
        Err(ExpandRefusal::NoMemory) => Err(NoMemory),
        Err(_) => Ok(None),
    }
}

pub fn is_absolute(path: &[u8]) -> bool
    ensures { result ≡ paths_spec.is_absolute path.now }
{
    matches!(path, [b'/', ..])
}

/// The path without the slashes at its end; its first byte stays.
pub fn bare(path: &Text) -> Result<Text, NoMemory>
    ensures { IfOk result (λ kept. kept ≡ paths_spec.bare path.now) }
{
    let [_, rest @ ..] = path.bytes() else {
        return path.share();
    };
    let kept = without_last_slashes(rest).len();
    path.slice(0, kept + 1)
}

fn without_last_slashes(text: &[u8]) -> &[u8]
    ensures value { result.now ≡ paths_spec.without_last_slashes text.entry.now }
    ensures shorter { length result.now ≤ length text.entry.now }
{
    let mut rest = text;
    while let [before @ .., last] = rest {
        if *last != b'/' {
            break;
        }
        rest = before;
    }
    rest
}

/// The path of a file in a directory.
pub fn file_in(alloc: Global, dir: &Text, name: Text) -> Result<Text, NoMemory>
    ensures { IfOk result (λ path. path ≡ paths_spec.file_in dir.now name) }
{
    let mut path = Vec::from_slice(alloc, dir.bytes())?;
    if !dir.bytes().ends_with(b"/") {
        path.push(b'/')?;
    }
    path.extend_from_slice(name.bytes())?;
    Text::from_vec(path)
}
