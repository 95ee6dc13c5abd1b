//! Files over a folder of the machine.

ghost use Rattle.std.specs.Prelude.{◌≡◌, ◌≤◌, None, true, ℕ, List, IfOk, length};
ghost use Rattle.init_base.specs.Resolve.{is_below_root};

use super::count::{count, has_read_failed};
use super::fault::{Fault, fault_at};
use super::machine::{MachineRefusal, is_absent, join, parted, path_of};
use super::machine_links::{
    MachineLinks, Unread, folder_path, no_way, plain_file, read_plain, resolve_path,
};
use super::resolve::{End, resolve};
use crate::list::List;
use crate::memory::NoMemory;
use crate::outside::files::Files;
use crate::outside::refusal::{Found, ReadRefusal};
use crate::text::Text;
use std::alloc::Global;
use std::fs;
use std::fs::ReadDir;
use std::io::{Error, ErrorKind};
use std::marker::Model;

/// The most names that a directory may list.
const MAX_NAMES: usize = 1_024;

/// The files below a folder of the machine, its root. A path of the tree is resolved as on a device whose root directory
/// that folder is: no link and no `..` leads out of it.
#[derive(Drop)]
pub struct StdFiles<'a, R: fs::Files + AllocGlobal + Clone + Drop> {
    rt: &'a R,
    root: Text,
    /// The path of the folder in which the last file was read, with no link on its way. Empty where none was.
    folder: Text,
    faults: u64,
    last_fault: Option<Fault>,
}

impl<'a, R: fs::Files + AllocGlobal + Clone + Drop> Model for StdFiles<'a, R> {
    ghost use Rattle.std.specs.Prelude.{ℕ};

    ghost Value = { ℕ };

    ghost view = { λ f. f.faults };
}

impl<'a, R: fs::Files + AllocGlobal + Clone + Drop> StdFiles<'a, R> {
    /// The files below the folder with this path of the machine.
    pub fn at(rt: &'a R, _alloc: Global, root: &Text) -> Result<StdFiles<'a, R>, NoMemory>
        ensures { IfOk result (λ files. files ≡ 0) }
    {
        Ok(StdFiles {
            rt,
            root: root.share()?,
            folder: Text::empty(),
            faults: 0,
            last_fault: None,
        })
    }

    /// What the system said at the last call that found nothing at its path, or failed.
    pub fn last_fault(&self) -> Option<&Fault> {
        self.last_fault.as_ref()
    }

    /// The tree of the files. The folder in which the last file was read isn't looked at again.
    fn tree(&self) -> MachineLinks<'_, R> {
        MachineLinks {
            rt: self.rt,
            root: &self.root,
            seen: self.folder.bytes(),
        }
    }

    /// The bytes of the plain file to which a path leads.
    fn read_path(&mut self, alloc: Global, path: &[u8], limit: usize) -> Result<Text, Unread>
        ensures bound { IfOk result (λ text. length text ≤ limit) }
        ensures count { self.new ≡ self.old }
    {
        let tree = self.tree();
        let file = plain_file(&tree, alloc, path)?;
        let text = read_plain(&tree, alloc, &file, limit)?;
        self.enter(&file)?;
        Ok(text)
    }

    /// Keeps the path of the folder of a file.
    fn enter(&mut self, file: &Text) -> Result<(), NoMemory>
        ensures { self.new ≡ self.old }
    {
        if let Some((folder, _)) = parted(file.bytes())
            && !self.folder.is(folder)
        {
            self.folder = file.slice(0, folder.len())?;
        }
        Ok(())
    }

    /// What a call on a path answers where the machine gave nothing: None where nothing has the path. Keeps what the
    /// system said.
    fn refused<T>(&mut self, alloc: Global, path: &[u8], refusal: MachineRefusal) -> Found<T>
        ensures none { IfOk result (λ found. found ≡ None) }
        ensures count { self.new ≡ self.old }
    {
        let error = match refusal {
            MachineRefusal::System(error) => error,
            MachineRefusal::TooLarge => return Err(ReadRefusal::TooLarge),
            MachineRefusal::NoMemory => return Err(ReadRefusal::NoMemory),
        };
        self.last_fault = fault_at(join(alloc, self.root.bytes(), path), error);
        if is_absent(&error) {
            Ok(None)
        } else {
            Err(ReadRefusal::Failed)
        }
    }
}

impl<R: fs::Files + AllocGlobal + Clone + Drop> Files for StdFiles<'_, R> {
    ghost tree = { λ _. None };

    ghost fault_count = { λ f. f };

    fn faults(&self) -> u64 {
        self.faults
    }

    fn list(&mut self, alloc: Global, dir: &[u8]) -> Found<List<Text>> {
        let outcome = match list_folder(&self.tree(), alloc, dir) {
            Ok(names) => Ok(Some(names)),
            Err(refusal) => self.refused(alloc, dir, refusal),
        };
        self.faults = count(self.faults, has_read_failed(&outcome));
        outcome
    }

    fn read(&mut self, alloc: Global, path: &[u8], limit: usize) -> Found<Text> {
        let outcome = match self.read_path(alloc, path, limit) {
            Ok(text) => Ok(Some(text)),
            Err(unread) => self.refused(alloc, path, refusal_of(unread)),
        };
        self.faults = count(self.faults, has_read_failed(&outcome));
        outcome
    }
}

/// Why a file wasn't read. What isn't a plain file isn't there.
fn refusal_of(unread: Unread) -> MachineRefusal {
    match unread {
        Unread::Refused(refusal) => refusal,
        Unread::NoFile(End::Directory | End::Other) => {
            MachineRefusal::System(Error::new(ErrorKind::NotFound, "not a plain file"))
        }
        Unread::NoFile(end) => no_way(end),
    }
}

/// The names of the plain files of a folder.
fn list_folder<R: fs::Files + AllocGlobal + Clone + Drop>(
    tree: &MachineLinks<'_, R>,
    alloc: Global,
    dir: &[u8],
) -> Result<List<Text>, MachineRefusal>
    ensures { IfOk result (λ names. length names ≤ 1024) }
{
    let lead = resolve_path(tree, alloc, dir)?;
    if !matches!(lead.end, End::Directory) {
        return Err(no_way(lead.end));
    }
    let path = folder_path(tree, alloc, &lead.place)?;
    let entries = fs::read_dir(tree.rt, path_of(&path)?)?;
    let names = plain_names(tree, alloc, &lead.place, entries)?;
    if names.len() > MAX_NAMES {
        return Err(MachineRefusal::TooLarge);
    }
    Ok(names)
}

/// The names of the plain files among the entries of a folder, as seen through links; at most one more than may be
/// listed.
fn plain_names<R: fs::Files + AllocGlobal + Clone + Drop>(
    tree: &MachineLinks<'_, R>,
    alloc: Global,
    folder: &List<Text>,
    entries: ReadDir<R, Global>,
) -> Result<List<Text>, MachineRefusal>
    requires { is_below_root folder.now ≡ true }
{
    let mut names = List::new(alloc);
    for entry in entries {
        let entry = entry?;
        let name = entry.file_name().as_bytes();
        if is_listed(tree, alloc, folder, name)? {
            names.push(Text::of(alloc, name)?)?;
        }
        if names.len() > MAX_NAMES {
            break;
        }
    }
    Ok(names)
}

/// Whether an entry of a folder leads to a plain file. One that is gone, as a link to nothing or in a circle, leads to
/// none.
fn is_listed<R: fs::Files>(
    tree: &MachineLinks<'_, R>,
    alloc: Global,
    folder: &List<Text>,
    name: &[u8],
) -> Result<bool, MachineRefusal>
    requires { is_below_root folder.now ≡ true }
{
    match resolve(tree, alloc, folder, name) {
        Ok(lead) => Ok(matches!(lead.end, End::PlainFile)),
        Err(MachineRefusal::System(error)) if is_absent(&error) => Ok(false),
        Err(refusal) => Err(refusal),
    }
}
