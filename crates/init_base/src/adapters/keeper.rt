//! A keeper over a file of the machine.

ghost use Rattle.std.specs.Prelude.{◌≡◌, ◌≤◌, None, ℕ, List, IfOk, length};

use super::count::{count, has_read_failed, has_write_failed};
use super::fault::{Fault, fault_at};
use super::folders::{make_folders, sync_folder};
use super::machine::{MachineRefusal, is_absent, join, parted, path_of};
use super::machine_links::{MachineLinks, Unread, folder_path, no_way, read_path};
use super::resolve::End;
use crate::memory::NoMemory;
use crate::outside::keeper::Keeper;
use crate::outside::refusal::{IoRefusal, ReadRefusal};
use crate::text::Text;
use std::alloc::Global;
use std::fs;
use std::fs::{File, OpenFile};
use std::io::{Error, ErrorKind, Write};
use std::marker::Model;

/// What stands behind the path of the file that is written before it takes the place of the old one.
const NEW: &[u8] = b".new";

/// The text of a file below a folder of the machine, its root; an absent file is the empty text. The file's path is
/// resolved as on a device whose root directory that folder is: no link and no `..` leads out of it.
///
/// A new text is written into a new file beside the old one, whose name ends in `.new`, and reaches the disk before that
/// file takes the place of the old one, or of a link; then the folder reaches the disk. Folders that lack on the way are
/// made. It tells nothing of a crash.
#[derive(Drop)]
pub struct StdKeeper<'a, R: fs::Files> {
    rt: &'a R,
    root: Text,
    path: Text,
    faults: u64,
    last_fault: Option<Fault>,
}

impl<'a, R: fs::Files> Model for StdKeeper<'a, R> {
    ghost use Rattle.std.specs.Prelude.{ℕ};

    ghost Value = { ℕ };

    ghost view = { λ k. k.faults };
}

impl<'a, R: fs::Files> StdKeeper<'a, R> {
    /// The file with this path of the machine, below its folder.
    pub fn at(rt: &'a R, alloc: Global, path: &Text) -> Result<StdKeeper<'a, R>, NoMemory>
        ensures { IfOk result (λ keeper. keeper ≡ 0) }
    {
        match parted(path.bytes()) {
            Some((folder, name)) => {
                let name = join(alloc, b"/", name)?;
                StdKeeper::below(rt, &Text::of(alloc, folder)?, &name)
            }
            None => {
                let name = join(alloc, b"/", path.bytes())?;
                StdKeeper::below(rt, &Text::of(alloc, b".")?, &name)
            }
        }
    }

    /// The file with this path of the tree below a folder of the machine.
    pub fn below(rt: &'a R, root: &Text, path: &Text) -> Result<StdKeeper<'a, R>, NoMemory>
        ensures { IfOk result (λ keeper. keeper ≡ 0) }
    {
        Ok(StdKeeper {
            rt,
            root: root.share()?,
            path: path.share()?,
            faults: 0,
            last_fault: None,
        })
    }

    /// What the system said at the last call that failed.
    pub fn last_fault(&self) -> Option<&Fault> {
        self.last_fault.as_ref()
    }

    /// Loads without counting a fault.
    fn try_load(&mut self, alloc: Global, limit: usize) -> Result<Text, ReadRefusal>
        ensures bound { IfOk result (λ text. length text ≤ limit) }
        ensures count { self.new ≡ self.old }
    {
        let tree = MachineLinks::of(self.rt, &self.root);
        match read_path(&tree, alloc, self.path.bytes(), limit).map_err(refusal_of) {
            Ok(text) => Ok(text),
            Err(MachineRefusal::System(error)) if is_absent(&error) => Ok(Text::empty()),
            Err(MachineRefusal::System(error)) => {
                self.keep_fault(alloc, error);
                Err(ReadRefusal::Failed)
            }
            Err(MachineRefusal::TooLarge) => Err(ReadRefusal::TooLarge),
            Err(MachineRefusal::NoMemory) => Err(ReadRefusal::NoMemory),
        }
    }

    /// Replaces without counting a fault.
    fn try_replace(&mut self, alloc: Global, content: &[u8]) -> Result<(), IoRefusal>
        ensures { self.new ≡ self.old }
    {
        let tree = MachineLinks::of(self.rt, &self.root);
        match replace_file(&tree, alloc, self.path.bytes(), content) {
            Ok(()) => Ok(()),
            Err(MachineRefusal::NoMemory) => Err(IoRefusal::NoMemory),
            Err(MachineRefusal::System(error)) => {
                self.keep_fault(alloc, error);
                Err(IoRefusal::Failed)
            }
            // no text is read
            Err(MachineRefusal::TooLarge) => Err(IoRefusal::Failed),
        }
    }

    /// Keeps what the system said.
    fn keep_fault(&mut self, alloc: Global, error: Error)
        ensures { self.new ≡ self.old }
    {
        self.last_fault = fault_at(join(alloc, self.root.bytes(), self.path.bytes()), error);
    }
}

impl<R: fs::Files> Keeper for StdKeeper<'_, R> {
    ghost held = { λ _. None };

    ghost fault_count = { λ k. k };

    ghost TellsCrash = { λ _. ⊥ };

    ghost moment = { λ _. 0 };

    ghost MayLeave = { λ _ _ _. ⊥ };

    fn faults(&self) -> u64 {
        self.faults
    }

    fn load(&mut self, alloc: Global, limit: usize) -> Result<Text, ReadRefusal> {
        let outcome = self.try_load(alloc, limit);
        self.faults = count(self.faults, has_read_failed(&outcome));
        outcome
    }

    fn replace(&mut self, alloc: Global, content: &[u8]) -> Result<(), IoRefusal> {
        let outcome = self.try_replace(alloc, content);
        self.faults = count(self.faults, has_write_failed(&outcome));
        outcome
    }

    ghost earlier = { λ _ _ _ _ _ left. left };
}

/// Why the file wasn't read.
fn refusal_of(unread: Unread) -> MachineRefusal {
    match unread {
        Unread::Refused(refusal) => refusal,
        Unread::NoFile(End::Other) => {
            MachineRefusal::System(Error::new(ErrorKind::InvalidInput, "not a plain file"))
        }
        Unread::NoFile(end) => no_way(end),
    }
}

/// Makes the folders that lack, writes the content into a new file, and moves that to the path.
fn replace_file<R: fs::Files>(
    tree: &MachineLinks<'_, R>,
    alloc: Global,
    path: &[u8],
    content: &[u8],
) -> Result<(), MachineRefusal> {
    let Some((folder, name)) = parted(path) else {
        return Err(MachineRefusal::System(Error::from(ErrorKind::NotFound)));
    };
    let folder = folder_path(tree, alloc, &make_folders(tree, alloc, folder)?)?;
    let file = join(alloc, folder.bytes(), name)?;
    let new = join(alloc, file.bytes(), NEW)?;
    put_file(tree.rt, path_of(&new)?, path_of(&file)?, content)?;
    sync_folder(tree.rt, path_of(&folder)?)?;
    Ok(())
}

/// Writes a new file, and moves it to its path. Where one of the two fails, the new file goes again.
fn put_file<R: fs::Files>(rt: &R, new: &str, file: &str, content: &[u8]) -> Result<(), Error> {
    let mut opened = make_new(rt, new)?;
    let put = match write_synced(&mut opened, content) {
        Ok(()) => fs::rename(rt, new, file),
        Err(error) => Err(error),
    };
    if put.is_err() {
        match fs::remove_file(rt, new) {
            Ok(()) | Err(_) => {}
        }
    }
    put
}

/// Makes a new file, in place of what an earlier run may have left. A link isn't followed.
fn make_new<R: fs::Files>(rt: &R, path: &str) -> Result<R::File, Error> {
    match fs::remove_file(rt, path) {
        Err(error) if error.kind() == ErrorKind::NotFound => {}
        outcome => outcome?,
    }
    File::create_new(rt, path)
}

/// Writes the content, and waits until it reaches the disk.
fn write_synced<F: OpenFile + Write>(file: &mut F, content: &[u8]) -> Result<(), Error> {
    file.write_all(content)?;
    file.sync_all()
}
