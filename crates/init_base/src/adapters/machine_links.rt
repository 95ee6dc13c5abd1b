//! The links of a tree of files on the machine. No call on the machine follows one.

ghost use Rattle.std.specs.Prelude.{◌≡◌, ◌≤◌, None, true, ℕ, List, IfOk, length};
ghost use Rattle.init_base.specs.Resolve.{is_below_root};

use super::links::{LinkTree, Standing};
use super::machine::{MachineRefusal, join, open, path_of, read_file};
use super::resolve::{End, Lead, path_to, resolve};
use crate::list::List;
use crate::memory::NoMemory;
use crate::text::Text;
use std::alloc::Global;
use std::fs;
use std::fs::FileType;
use std::io::{Error, ErrorKind};

/// The system's numbers of errors (Linux, errno(3)), whose words are told where a walk doesn't end as it was to.
const NO_SUCH_FILE: i32 = 2;

const NOT_A_DIRECTORY: i32 = 20;

const IS_A_DIRECTORY: i32 = 21;

const NAME_TOO_LONG: i32 = 36;

const TOO_MANY_LINKS: i32 = 40;

/// The most bytes of a path that the system takes.
const MAX_PATH: usize = 4_095;

/// The tree below a folder of the machine.
#[derive(Drop)]
pub(crate) struct MachineLinks<'a, R: fs::Files> {
    pub(crate) rt: &'a R,
    pub(crate) root: &'a Text,
    /// The path of a folder to which directories alone were seen to lead: they aren't looked at again. Empty where there is none.
    pub(crate) seen: &'a [u8],
}

impl<'a, R: fs::Files> MachineLinks<'a, R> {
    /// The tree below a folder with this path of the machine.
    pub(crate) fn of(rt: &'a R, root: &'a Text) -> MachineLinks<'a, R> {
        MachineLinks {
            rt,
            root,
            seen: b"",
        }
    }
}

impl<R: fs::Files> LinkTree for MachineLinks<'_, R> {
    ghost standing = { λ _. None };

    fn look_up(&self, alloc: Global, path: &[u8]) -> Result<Standing, MachineRefusal> {
        if is_on_way(path, self.seen) {
            return Ok(Standing::Directory);
        }
        let path = join(alloc, self.root.bytes(), path)?;
        let path = path_of(&path)?;
        let kind = match self.rt.symlink_metadata(path) {
            Ok(metadata) => metadata.file_type(),
            Err(error) if error.kind() == ErrorKind::NotFound => return Ok(Standing::Nothing),
            Err(error) => return Err(MachineRefusal::from(error)),
        };
        if kind.is_symlink() {
            return link_at(self.rt, alloc, path);
        }
        Ok(standing_of(kind))
    }
}

/// Whether a path is that of a folder or of one above it.
fn is_on_way(path: &[u8], folder: &[u8]) -> bool {
    match folder.strip_prefix(path) {
        Some(behind) => behind.is_empty() || behind.starts_with(b"/"),
        None => false,
    }
}

/// A link of the machine. One whose target isn't UTF-8 leads nowhere, as no file has such a path.
fn link_at<R: fs::Files>(rt: &R, alloc: Global, path: &str) -> Result<Standing, MachineRefusal> {
    match rt.read_link(alloc, path) {
        Ok(target) => Ok(Standing::Link(Text::of(alloc, target.as_str().as_bytes())?)),
        Err(error) if error.kind() == ErrorKind::InvalidFilename => Ok(Standing::Nothing),
        Err(error) => Err(MachineRefusal::from(error)),
    }
}

/// What stands where no link does.
fn standing_of(kind: FileType) -> Standing {
    if kind.is_dir() {
        Standing::Directory
    } else if kind.is_file() {
        Standing::PlainFile
    } else {
        Standing::Other
    }
}

/// Where a path of the tree leads, if it is the path of a file: it is absolute, and UTF-8 with no NUL.
pub(crate) fn resolve_path<R: fs::Files>(
    tree: &MachineLinks<'_, R>,
    alloc: Global,
    path: &[u8],
) -> Result<Lead, MachineRefusal>
    ensures { IfOk result (λ lead. is_below_root lead.place ≡ true) }
{
    let can_be = path.starts_with(b"/") && !path.contains(&0) && std::str::from_utf8(path).is_ok();
    if !can_be {
        return Err(MachineRefusal::System(Error::from(ErrorKind::NotFound)));
    }
    if path.len() > MAX_PATH {
        return Err(said(NAME_TOO_LONG));
    }
    resolve(tree, alloc, &List::new(alloc), path)
}

/// Why no bytes were read at a path.
pub(crate) enum Unread {
    /// It leads to this, and not to a plain file.
    NoFile(End),
    Refused(MachineRefusal),
}

impl From<MachineRefusal> for Unread {
    fn from(refusal: MachineRefusal) -> Self {
        Unread::Refused(refusal)
    }
}

impl From<NoMemory> for Unread {
    fn from(_: NoMemory) -> Self {
        Unread::Refused(MachineRefusal::NoMemory)
    }
}

/// The bytes of the plain file to which a path leads.
pub(crate) fn read_path<R: fs::Files>(
    tree: &MachineLinks<'_, R>,
    alloc: Global,
    path: &[u8],
    limit: usize,
) -> Result<Text, Unread>
    ensures { IfOk result (λ text. length text ≤ limit) }
{
    let file = plain_file(tree, alloc, path)?;
    Ok(read_plain(tree, alloc, &file, limit)?)
}

/// The path of the plain file to which a path leads, with no link on its way.
pub(crate) fn plain_file<R: fs::Files>(
    tree: &MachineLinks<'_, R>,
    alloc: Global,
    path: &[u8],
) -> Result<Text, Unread> {
    let lead = resolve_path(tree, alloc, path)?;
    match lead.end {
        End::PlainFile => Ok(path_to(alloc, &lead.place)?),
        end => Err(Unread::NoFile(end)),
    }
}

/// The bytes of the plain file at a path that has no link on its way.
pub(crate) fn read_plain<R: fs::Files>(
    tree: &MachineLinks<'_, R>,
    alloc: Global,
    path: &Text,
    limit: usize,
) -> Result<Text, MachineRefusal>
    ensures { IfOk result (λ text. length text ≤ limit) }
{
    let path = join(alloc, tree.root.bytes(), path.bytes())?;
    read_file(alloc, open(tree.rt, &path)?, limit)
}

/// The path of the machine of the folder at a place, with a slash at its end.
pub(crate) fn folder_path<R: fs::Files>(
    tree: &MachineLinks<'_, R>,
    alloc: Global,
    place: &List<Text>,
) -> Result<Text, NoMemory> {
    let path = join(alloc, tree.root.bytes(), path_to(alloc, place)?.bytes())?;
    join(alloc, path.bytes(), b"/")
}

/// What the system says of a walk that didn't end as it was to.
pub(crate) fn no_way(end: End) -> MachineRefusal {
    match end {
        End::Directory => said(IS_A_DIRECTORY),
        End::PlainFile | End::Other | End::NotDirectory => said(NOT_A_DIRECTORY),
        End::Nothing => said(NO_SUCH_FILE),
        End::TooManyLinks => said(TOO_MANY_LINKS),
    }
}

/// What the system says by this number.
fn said(number: i32) -> MachineRefusal {
    MachineRefusal::System(Error::from_raw_os_error(number))
}
