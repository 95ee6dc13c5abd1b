//! Standard handles that are closed when the program begins, as `2>&-` leaves one.

use std::fs::{self, File};
use std::os::fd::AsRawFd;

/// The null device (POSIX).
const NULL: &str = "/dev/null";

/// The highest number of a standard handle (POSIX).
const LAST: i32 = 2;

/// What holds the numbers of standard handles that were closed.
#[derive(Drop)]
pub struct Held {
    first: Option<File>,
    second: Option<File>,
    third: Option<File>,
}

/// Holds the numbers of the standard handles that are closed. So no file that is opened later gets one, and no line that is meant for
/// a standard handle is written into it. What holds them was opened for reading, so that a write fails as it does at a closed handle.
pub fn hold_closed(rt: &HostRuntime) -> Held {
    Held {
        first: closed(rt),
        second: closed(rt),
        third: closed(rt),
    }
}

/// The null device at the lowest number that is free, if that is a standard handle's.
fn closed(rt: &HostRuntime) -> Option<File> {
    let file = fs::open(rt, NULL).ok()?;
    if file.as_raw_fd() > LAST {
        return None;
    }
    Some(file)
}
