//! A disk over a file of the machine.

ghost use Rattle.std.specs.Prelude.{◌≡◌, ◌≤◌, true, None, ℕ, List, IfOk, length};
ghost use Rattle.std.specs.Io.{ReadsAtMost};
ghost use Rattle.init_base.specs.Faults.{Counted, write_failed};

use crate::disk::{Disk, joined};
use crate::finding::{make_whole, open_found};
use init_base::{Failed, Fault, IoRefusal, NoMemory, Text, read_some};
use std::alloc::Global;
use std::fs;
use std::fs::OpenFile;
use std::io::{Error, ErrorKind, Read, Seek, SeekFrom, Write};
use std::marker::Model;

/// How many bytes of a second part are written together with the first one, at most.
const TOGETHER: usize = 4096;

/// The bytes of a file below a folder of the machine, its root. The file's path is resolved as on a device whose root directory
/// that folder is: no link and no `..` leads out of it. It is opened at the first call, and to be written at the first write.
///
/// An absent file has no bytes. The first write makes it, with the folders that lack on the way to it: it appears with what was
/// written, whole and safe. It tells nothing of what it holds, nor of a crash.
#[derive(Drop)]
pub struct StdDisk<'a, R: fs::Files> {
    rt: &'a R,
    alloc: Global,
    root: Text,
    path: Text,
    file: Option<R::File>,
    /// Whether the file was opened to be written.
    is_written: bool,
    /// Whether there was no file when it was looked for last, which the next sync does anew.
    is_absent: bool,
    faults: u64,
    last_fault: Option<Fault>,
}

impl<'a, R: fs::Files> Model for StdDisk<'a, R> {
    ghost use Rattle.std.specs.Prelude.{ℕ};

    ghost Value = { ℕ };

    ghost view = { λ d. d.faults };
}

impl<'a, R: fs::Files> StdDisk<'a, R> {
    /// The file with this path of the machine, below its folder.
    pub fn at(rt: &'a R, alloc: Global, path: &Text) -> Result<StdDisk<'a, R>, NoMemory>
        ensures { IfOk result (λ disk. disk ≡ 0) }
    {
        let bytes = path.bytes();
        match bytes.iter().rposition(|byte| *byte == b'/') {
            Some(at) => {
                let folder = Text::of(alloc, &bytes[..at])?;
                StdDisk::below(rt, alloc, &folder, &Text::of(alloc, &bytes[at..])?)
            }
            None => StdDisk::below(
                rt,
                alloc,
                &Text::of(alloc, b".")?,
                &joined_text(alloc, b"/", bytes)?,
            ),
        }
    }

    /// The file with this path of the tree below a folder of the machine.
    pub fn below(
        rt: &'a R,
        alloc: Global,
        root: &Text,
        path: &Text,
    ) -> Result<StdDisk<'a, R>, NoMemory>
        ensures { IfOk result (λ disk. disk ≡ 0) }
    {
        Ok(StdDisk {
            rt,
            alloc,
            root: root.share()?,
            path: path.share()?,
            file: None,
            is_written: false,
            is_absent: false,
            faults: 0,
            last_fault: None,
        })
    }

    /// What the system said at the last call that failed.
    pub fn last_fault(&self) -> Option<&Fault> {
        self.last_fault.as_ref()
    }

    /// The open file, which is taken out of its place. None where there is none.
    fn take_file(&mut self) -> Result<Option<R::File>, Error>
        ensures { self.new ≡ self.old }
    {
        match self.file.take() {
            Some(file) => Ok(Some(file)),
            None if self.is_absent => Ok(None),
            None => self.find(),
        }
    }

    /// Looks for the file, and opens it to be read.
    fn find(&mut self) -> Result<Option<R::File>, Error>
        ensures { self.new ≡ self.old }
    {
        let found = open_found(self.rt, self.alloc, &self.root, &self.path, false)?;
        self.is_written = false;
        self.is_absent = found.is_none();
        Ok(found)
    }

    /// The file, opened to be written. None where there is none.
    fn take_written(&mut self) -> Result<Option<R::File>, Error>
        ensures { self.new ≡ self.old }
    {
        match self.file.take() {
            Some(file) if self.is_written => Ok(Some(file)),
            _ => open_found(self.rt, self.alloc, &self.root, &self.path, true),
        }
    }

    /// Reads without counting a fault.
    fn try_read(&mut self, at: u64, buf: &mut [u8]) -> Result<usize, Error>
        ensures bound { ReadsAtMost result buf.new }
        ensures count { self.new ≡ self.old }
    {
        let Some(mut file) = self.take_file()? else {
            return Ok(0);
        };
        file.seek(SeekFrom::Start(at))?;
        let count = fill(&mut file, buf)?;
        self.file = Some(file);
        Ok(count)
    }

    /// Writes without counting a fault.
    fn try_write(&mut self, at: u64, front: &[u8], behind: &[u8]) -> Result<(), Error>
        ensures { self.new ≡ self.old }
    {
        let Some(mut file) = self.take_written()? else {
            return self.make(at, front, behind);
        };
        file.seek(SeekFrom::Start(at))?;
        write_both(self.alloc, &mut file, front, behind)?;
        self.is_written = true;
        self.file = Some(file);
        Ok(())
    }

    /// Makes the file with two parts at a place, one behind the other. Zeros lead up to it.
    fn make(&mut self, at: u64, front: &[u8], behind: &[u8]) -> Result<(), Error>
        ensures { self.new ≡ self.old }
    {
        let mut content = Vec::from_elem(self.alloc, 0, at as usize)?;
        content.extend_from_slice(front)?;
        content.extend_from_slice(behind)?;
        self.is_absent = false;
        make_whole(self.rt, self.alloc, &self.root, &self.path, &content)
    }

    /// Syncs without counting a fault.
    fn try_sync(&mut self) -> Result<(), Error>
        ensures { self.new ≡ self.old }
    {
        self.is_absent = false;
        let Some(file) = self.take_file()? else {
            return Ok(());
        };
        file.sync_all()?;
        self.file = Some(file);
        Ok(())
    }

    /// What a write or a sync answers. Want of memory is no fault.
    fn answer(&mut self, outcome: Result<(), Error>) -> Result<(), IoRefusal>
        ensures { Counted (write_failed result) self.old self.new }
    {
        match outcome {
            Ok(()) => Ok(()),
            Err(error) if error.kind() == ErrorKind::OutOfMemory => Err(IoRefusal::NoMemory),
            Err(error) => {
                self.note(error);
                Err(IoRefusal::Failed)
            }
        }
    }

    /// Counts a fault, and keeps what the system said.
    fn note(&mut self, error: Error)
        ensures { Counted true self.old self.new }
    {
        self.faults = self.faults.saturating_add(1);
        self.last_fault = match joined_text(self.alloc, self.root.bytes(), self.path.bytes()) {
            Ok(path) => Some(Fault { path, error }),
            Err(NoMemory) => None,
        };
    }
}

impl<R: fs::Files> Disk for StdDisk<'_, R> {
    ghost content = { λ _. None };

    ghost fault_count = { λ d. d };

    ghost TellsCrash = { λ _. ⊥ };

    ghost moment = { λ _. 0 };

    ghost MayLeave = { λ _ _ _. ⊥ };

    fn faults(&self) -> u64 {
        self.faults
    }

    fn read_at(&mut self, at: u64, buf: &mut [u8]) -> Result<usize, Failed> {
        match self.try_read(at, buf) {
            Ok(count) => Ok(count),
            Err(error) => {
                self.note(error);
                Err(Failed)
            }
        }
    }

    fn write_at(&mut self, at: u64, bytes: &[u8]) -> Result<(), IoRefusal> {
        let outcome = self.try_write(at, &[], bytes);
        self.answer(outcome)
    }

    fn write_parts(
        &mut self,
        _alloc: Global,
        at: u64,
        front: &[u8],
        behind: &[u8],
    ) -> Result<(), IoRefusal> {
        let outcome = self.try_write(at, front, behind);
        self.answer(outcome)
    }

    fn sync(&mut self) -> Result<(), IoRefusal> {
        let outcome = self.try_sync();
        self.answer(outcome)
    }

    ghost earlier = { λ _ _ _ _ _ left. left };

    ghost given = { λ _ tells. tells };
}

/// Two paths, one behind the other.
fn joined_text(alloc: Global, front: &[u8], behind: &[u8]) -> Result<Text, NoMemory> {
    Text::from_vec(joined(alloc, front, behind)?)
}

/// Writes two parts, one behind the other. The first bytes of both are written together, and the others where they stand.
fn write_both<W: Write>(
    alloc: Global,
    file: &mut W,
    front: &[u8],
    behind: &[u8],
) -> Result<(), Error> {
    if front.is_empty() {
        return file.write_all(behind);
    }
    let near = behind.len().min(TOGETHER);
    let Ok(first) = joined(alloc, front, &behind[..near]) else {
        return Err(Error::from(ErrorKind::OutOfMemory));
    };
    file.write_all(&first)?;
    file.write_all(&behind[near..])
}

/// Reads until the buffer is full or nothing is left.
fn fill<F: Read>(file: &mut F, buf: &mut [u8]) -> Result<usize, Error>
    ensures { ReadsAtMost result buf.new }
{
    let mut filled = 0;
    while filled < buf.len() {
        let count = read_some(file, &mut buf[filled..])?;
        if count == 0 {
            break;
        }
        filled += count;
    }
    Ok(filled)
}
