//! Reading and writing on the machine, with the errors of the traits.

ghost use Rattle.std.specs.Prelude.{◌≡◌, ◌≤◌, ◌+◌, IfOk, IfSome, length, vec_len};
ghost use Rattle.std.specs.Io.{ReadsAtMost};

use crate::memory::NoMemory;
use crate::text::Text;
use std::alloc::{AllocError, Global};
use std::fs;
use std::io::{Error, ErrorKind, Print, Read};

/// How often a call is tried again that a signal interrupted.
const MAX_TRIES: usize = 64;

/// How many bytes of a file are read at once, at most.
const PIECE: usize = 16384;

/// Why the machine gave nothing.
pub(crate) enum MachineRefusal {
    /// What the system said, or would say.
    System(Error),
    TooLarge,
    NoMemory,
}

impl From<Error> for MachineRefusal {
    fn from(error: Error) -> Self {
        if error.kind() == ErrorKind::OutOfMemory {
            MachineRefusal::NoMemory
        } else {
            MachineRefusal::System(error)
        }
    }
}

impl From<NoMemory> for MachineRefusal {
    fn from(_: NoMemory) -> Self {
        MachineRefusal::NoMemory
    }
}

impl From<AllocError> for MachineRefusal {
    fn from(_: AllocError) -> Self {
        MachineRefusal::NoMemory
    }
}

/// Reads some bytes. A read that a signal interrupts is tried again.
pub fn read_some<F: Read>(file: &mut F, buf: &mut [u8]) -> Result<usize, Error>
    ensures { ReadsAtMost result buf.new }
{
    for _ in 0..MAX_TRIES {
        match file.read(buf) {
            Ok(count) => return Ok(count),
            Err(error) if error.kind() == ErrorKind::Interrupted => {}
            Err(error) => return Err(error),
        }
    }
    Err(Error::from(ErrorKind::Interrupted))
}

/// Writes some bytes to standard output. A write that a signal interrupts is tried again.
pub(crate) fn print_some<R: Print>(rt: &R, piece: &[u8]) -> Result<usize, Error>
    ensures { IfOk result (λ count. count ≤ length piece.now) }
{
    for _ in 0..MAX_TRIES {
        match rt.write_some(piece) {
            Ok(count) => return Ok(count),
            Err(error) if error.kind() == ErrorKind::Interrupted => {}
            Err(error) => return Err(error),
        }
    }
    Err(Error::from(ErrorKind::Interrupted))
}

/// The bytes of a file, if there are at most `limit`.
pub(crate) fn read_file<F: Read + Drop>(
    alloc: Global,
    mut file: F,
    limit: usize,
) -> Result<Text, MachineRefusal>
    ensures { IfOk result (λ text. length text ≤ limit) }
{
    let mut bytes = Vec::new(alloc);
    let mut piece = [0; PIECE];
    loop {
        let room = (limit - bytes.len()).min(PIECE - 1) + 1;
        let count = read_some(&mut file, &mut piece[..room])?;
        if count == 0 {
            return Ok(Text::from_vec(bytes)?);
        }
        if count > limit - bytes.len() {
            return Err(MachineRefusal::TooLarge);
        }
        bytes.extend_from_slice(&piece[..count])?;
    }
}

/// Opens a file of the machine. A path that isn't UTF-8 names none.
pub(crate) fn open<R: fs::Files>(rt: &R, path: &Text) -> Result<R::File, Error> {
    fs::open(rt, path_of(path)?)
}

/// A path, as the machine takes it.
pub(crate) fn path_of(path: &Text) -> Result<&str, Error> {
    match std::str::from_utf8(path.bytes()) {
        Ok(path) => Ok(path),
        Err(_) => Err(Error::from(ErrorKind::InvalidInput)),
    }
}

/// Two paths, one behind the other.
pub(crate) fn join(alloc: Global, front: &[u8], behind: &[u8]) -> Result<Text, NoMemory> {
    let mut bytes = Vec::from_slice(alloc, front)?;
    bytes.extend_from_slice(behind)?;
    Text::from_vec(bytes)
}

/// The folder and the name of a path. None where it has no folder.
pub(crate) fn parted(path: &[u8]) -> Option<(&[u8], &[u8])>
    ensures { IfSome result (λ parts. length parts.0.now ≤ length path.now) }
{
    let at = path.iter().rposition(|byte| *byte == b'/')?;
    Some((&path[..at], &path[at + 1..]))
}

/// Whether the error says that nothing has the path.
pub(crate) fn is_absent(error: &Error) -> bool {
    matches!(error.kind(), ErrorKind::NotFound | ErrorKind::NotADirectory)
}
