//! The file of the machine to which a path of a tree leads.

use init_base::{IoRefusal, Keeper, NoMemory, ReadRefusal, StdKeeper, Text};
use std::alloc::{Allocator, Global};
use std::cell::Cell;
use std::fs;
use std::fs::{Metadata, OpenFile, OpenOptions};
use std::io::{Error, ErrorKind};
use std::path::PathBuf;

/// The files of the machine, of which the one that was opened last is kept.
#[derive(Drop)]
struct Watched<'a, R: fs::Files> {
    rt: &'a R,
    /// Whether a file is opened to be written too.
    is_written: bool,
    opened: Cell<Option<R::File>>,
}

impl<R: fs::Files> fs::Files for Watched<'_, R> {
    type File = R::File;

    type Dir = R::Dir;

    fn open_file(&self, how: &OpenOptions, path: &str) -> Result<R::File, Error> {
        let file = if self.is_written {
            OpenOptions::new()
                .read(true)
                .write(true)
                .open(self.rt, path)?
        } else {
            self.rt.open_file(how, path)?
        };
        let lent = file.try_clone()?;
        self.opened.set(Some(file));
        Ok(lent)
    }

    fn open_dir(&self, path: &str) -> Result<R::Dir, Error> {
        self.rt.open_dir(path)
    }

    fn metadata(&self, path: &str) -> Result<Metadata, Error> {
        self.rt.metadata(path)
    }

    fn symlink_metadata(&self, path: &str) -> Result<Metadata, Error> {
        self.rt.symlink_metadata(path)
    }

    fn read_link<B: Allocator>(&self, alloc: B, path: &str) -> Result<PathBuf<B>, Error> {
        self.rt.read_link(alloc, path)
    }

    fn copy(&self, from: &str, to: &str) -> Result<u64, Error> {
        self.rt.copy(from, to)
    }

    fn rename(&self, from: &str, to: &str) -> Result<(), Error> {
        self.rt.rename(from, to)
    }

    fn remove_file(&self, path: &str) -> Result<(), Error> {
        self.rt.remove_file(path)
    }

    fn create_dir(&self, path: &str) -> Result<(), Error> {
        self.rt.create_dir(path)
    }

    fn remove_dir(&self, path: &str) -> Result<(), Error> {
        self.rt.remove_dir(path)
    }

    fn remove_dir_all<B: Allocator>(&self, alloc: B, path: &str) -> Result<(), Error> {
        self.rt.remove_dir_all(alloc, path)
    }
}

/// The open file to which a path of the tree below a folder leads, if there is one. It is found as a `StdKeeper` finds its text,
/// so that both go the same way through links.
pub(crate) fn open_found<R: fs::Files>(
    rt: &R,
    alloc: Global,
    root: &Text,
    path: &Text,
    is_written: bool,
) -> Result<Option<R::File>, Error> {
    let watched = Watched {
        rt,
        is_written,
        opened: Cell::new(None),
    };
    let mut finder = keeper_of(&watched, root, path)?;
    match finder.load(alloc, 0) {
        Ok(_) | Err(ReadRefusal::TooLarge) => Ok(watched.opened.replace(None)),
        Err(ReadRefusal::Failed) => Err(said_of(&finder)),
        Err(ReadRefusal::NoMemory) => Err(Error::from(ErrorKind::OutOfMemory)),
    }
}

/// Makes a file with this content at a path of the tree below a folder, and the folders that lack on the way to it. It appears
/// whole, and is safe.
pub(crate) fn make_whole<R: fs::Files>(
    rt: &R,
    alloc: Global,
    root: &Text,
    path: &Text,
    content: &[u8],
) -> Result<(), Error> {
    let mut maker = keeper_of(rt, root, path)?;
    match maker.replace(alloc, content) {
        Ok(()) => Ok(()),
        Err(IoRefusal::Failed) => Err(said_of(&maker)),
        Err(IoRefusal::NoMemory) => Err(Error::from(ErrorKind::OutOfMemory)),
    }
}

/// The keeper of the text at a path of the tree below a folder.
fn keeper_of<'a, R: fs::Files>(
    rt: &'a R,
    root: &Text,
    path: &Text,
) -> Result<StdKeeper<'a, R>, Error> {
    match StdKeeper::below(rt, root, path) {
        Ok(keeper) => Ok(keeper),
        Err(NoMemory) => Err(Error::from(ErrorKind::OutOfMemory)),
    }
}

/// What the system said at the last call that failed.
fn said_of<R: fs::Files>(keeper: &StdKeeper<'_, R>) -> Error {
    match keeper.last_fault() {
        Some(fault) => fault.error,
        None => Error::from(ErrorKind::Other),
    }
}
