//! A store on a disk that a crash at any moment leaves whole.
#![tactic(auto)]

mod disk;
mod finding;
mod keeper;
mod late;
mod laws;
mod layout;
mod mem_disk;
mod refusal;
mod reopening;
mod slots;
mod std_disk;

pub use disk::Disk;
pub use keeper::DiskKeeper;
pub use late::LateKeeper;
pub use laws::each_disk_opens_to_one_text;
pub use mem_disk::{DiskStep, MemDisk};
pub use refusal::{OpenRefusal, ReopenRefusal};
pub use reopening::reopen;
pub use std_disk::StdDisk;
