//! Look-ups in a tree of files that is given as entries of path and bytes. The rules are those of `specs/Tree.antt`.

ghost use Rattle.std.specs.Prelude.{◌≡◌, ◌==◌, false, not, IfOk, OnOk, Some};
ghost use Rattle.std.specs.List.{list_all};
ghost use Rattle.std.specs.Option.{option_copied};
ghost use Rattle.init_base.specs.Faults.{read_failed};
ghost use Rattle.init_base.specs.Outside.{ListsFew, ListsNames, ReadsFile, ReadsWithin};
ghost use Rattle.init_base.specs.Tree.{file_at, names_in, with_name};
ghost use Rattle.init_base.specs.Tree as spec;

use crate::list::List;
use crate::memory::NoMemory;
use crate::outside::refusal::ReadRefusal;
use crate::text::Text;
use std::alloc::Global;

/// The most names that a directory may list.
const MAX_NAMES: usize = 1_024;

/// Another text with the bytes of the file, if there is one of at most `limit` bytes.
pub(crate) fn read(
    alloc: Global,
    entries: &[(Text, Text)],
    path: &[u8],
    limit: usize,
) -> Result<Option<Text>, ReadRefusal>
    ensures bytes { ReadsFile (Some entries.now) path.now limit result }
    ensures bound { ReadsWithin limit result }
    ensures steady { read_failed result ≡ false }
{
    let Some(file) = find(entries, path) else {
        return Ok(None);
    };
    if file.len() > limit {
        return Err(ReadRefusal::TooLarge);
    }
    Ok(Some(file.share()?))
}

/// The file with the path.
fn find<'a>(entries: &'a [(Text, Text)], path: &[u8]) -> Option<&'a Text>
    ensures { option_copied result ≡ file_at entries.entry.now path.now }
{
    for entry in entries {
        if entry.0.is(path) {
            return Some(&entry.1);
        }
    }
    None
}

/// The names of the files directly in the directory, each once.
pub(crate) fn list(
    alloc: Global,
    entries: &[(Text, Text)],
    dir: &[u8],
) -> Result<Option<List<Text>>, ReadRefusal>
    ensures names { ListsNames (Some entries.now) dir.now result }
    ensures bound { ListsFew result }
    ensures steady { read_failed result ≡ false }
{
    if !is_dir(entries, dir) {
        return Ok(None);
    }
    let names = names(alloc, entries, dir)?;
    if names.len() > MAX_NAMES {
        return Err(ReadRefusal::TooLarge);
    }
    Ok(Some(names))
}

fn is_dir(entries: &[(Text, Text)], dir: &[u8]) -> bool
    ensures { result ≡ spec.is_dir entries.now dir.now }
{
    entries
        .iter()
        .any(|entry| !behind_dir(dir, entry.0.bytes()).is_empty())
}

fn names(alloc: Global, entries: &[(Text, Text)], dir: &[u8]) -> Result<List<Text>, NoMemory>
    ensures { IfOk result (λ names. names ≡ names_in entries.now dir.now) }
{
    let mut names = List::new(alloc);
    for entry in entries {
        add_name(alloc, &mut names, behind_dir(dir, entry.0.bytes()))?;
    }
    Ok(names)
}

/// Adds the name of a file that isn't among the names yet.
fn add_name(alloc: Global, names: &mut List<Text>, name: &[u8]) -> Result<(), NoMemory>
    ensures { OnOk result (names.new ≡ with_name names.old name.now) }
{
    if is_file_name(name) && !has_name(names.items(), name) {
        names.push(Text::of(alloc, name)?)?;
    }
    Ok(())
}

fn has_name(names: &[Text], name: &[u8]) -> bool
    ensures { result ≡ spec.has_name names.now name.now }
{
    names.iter().any(|other| other.is(name))
}

fn is_file_name(name: &[u8]) -> bool
    ensures { result ≡ spec.is_file_name name.now }
{
    !name.is_empty() && has_no_slash(name)
}

fn has_no_slash(name: &[u8]) -> bool
    ensures { result ≡ list_all (λ byte. not (byte == 47)) name.now }
{
    name.iter().all(|byte| *byte != b'/')
}

/// What stands in the path behind the directory's path and a slash.
fn behind_dir<'a>(dir: &[u8], path: &'a [u8]) -> &'a [u8]
    ensures { result.now ≡ spec.behind_dir dir.now path.entry.now }
{
    if !path.starts_with(dir) {
        return &[];
    }
    let rest = &path[dir.len()..];
    if dir.ends_with(b"/") {
        rest
    } else {
        behind_slash(rest)
    }
}

fn behind_slash(path: &[u8]) -> &[u8]
    ensures { result.now ≡ spec.behind_slash path.entry.now }
{
    match path {
        [b'/', rest @ ..] => rest,
        _ => &[],
    }
}
