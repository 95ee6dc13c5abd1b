//! Making folders on the machine.

ghost use Rattle.std.specs.Prelude.{◌≡◌, true, IfOk};
ghost use Rattle.init_base.specs.Resolve.{is_below_root};

use super::machine::{MachineRefusal, join, path_of};
use super::machine_links::{MachineLinks, folder_path, no_way};
use super::resolve::{End, Lead, parts_of, resolve};
use crate::list::List;
use crate::text::Text;
use std::alloc::Global;
use std::fs;
use std::fs::{DirBuilder, OpenFile, Permissions};
use std::io::{Error, ErrorKind};
use std::os::unix::fs::{DirBuilderExt, PermissionsExt};

/// The modes of the folders that are made, as those of `/data` and of `/data/property` on a device (AOSP, init.rc).
const OUTER_MODE: u32 = 0o771;

const LAST_MODE: u32 = 0o700;

/// Where a folder of the tree is. It and those on the way to it are made where they lack.
pub(crate) fn make_folders<R: fs::Files>(
    tree: &MachineLinks<'_, R>,
    alloc: Global,
    folder: &[u8],
) -> Result<List<Text>, MachineRefusal>
    ensures { IfOk result (λ place. is_below_root place ≡ true) }
{
    let parts = parts_of(alloc, folder)?;
    let mut place = List::new(alloc);
    for (at, part) in parts.items().iter().enumerate() {
        let is_last = at + 1 == parts.len();
        let mode = if is_last { LAST_MODE } else { OUTER_MODE };
        place = enter_or_make(tree, alloc, &place, part.bytes(), mode)?;
    }
    Ok(place)
}

/// Where a part of a path leads from a folder, which is made where nothing stands there.
fn enter_or_make<R: fs::Files>(
    tree: &MachineLinks<'_, R>,
    alloc: Global,
    folder: &List<Text>,
    part: &[u8],
    mode: u32,
) -> Result<List<Text>, MachineRefusal>
    requires { is_below_root folder.now ≡ true }
    ensures { IfOk result (λ place. is_below_root place ≡ true) }
{
    let lead = resolve(tree, alloc, folder, part)?;
    if !matches!(lead.end, End::Nothing) {
        return folder_of(lead);
    }
    make_folder(tree, alloc, folder, part, mode)?;
    folder_of(resolve(tree, alloc, folder, part)?)
}

/// The place of the folder to which a path leads.
fn folder_of(lead: Lead) -> Result<List<Text>, MachineRefusal>
    requires { is_below_root lead.place ≡ true }
    ensures { IfOk result (λ place. is_below_root place ≡ true) }
{
    match lead.end {
        End::Directory => Ok(lead.place),
        _ => Err(no_way(lead.end)),
    }
}

/// Makes a folder with exactly this mode, and waits until the folder around it reaches the disk. Leaves what stands there
/// already, as a link that leads nowhere.
fn make_folder<R: fs::Files>(
    tree: &MachineLinks<'_, R>,
    alloc: Global,
    around: &List<Text>,
    name: &[u8],
    mode: u32,
) -> Result<(), MachineRefusal> {
    let around = folder_path(tree, alloc, around)?;
    let path = join(alloc, around.bytes(), name)?;
    match create(tree.rt, path_of(&path)?, mode) {
        Err(error) if error.kind() == ErrorKind::AlreadyExists => Ok(()),
        outcome => {
            outcome?;
            Ok(sync_folder(tree.rt, path_of(&around)?)?)
        }
    }
}

/// Makes a folder with this mode, whatever the process leaves out of the modes of new files.
fn create<R: fs::Files>(rt: &R, path: &str, mode: u32) -> Result<(), Error> {
    DirBuilder::new().mode(mode).create(rt, path)?;
    fs::set_permissions(rt, path, Permissions::from_mode(mode))
}

/// Waits until the names in a folder reach the disk.
pub(crate) fn sync_folder<R: fs::Files>(rt: &R, path: &str) -> Result<(), Error> {
    fs::open(rt, path)?.sync_all()
}
