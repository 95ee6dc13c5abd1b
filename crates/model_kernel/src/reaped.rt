//! Processes that have ended.

use init_base::{Pid, Text};
use init_machine::How;

/// A process that has left the kernel.
#[derive(Debug, Drop)]
pub struct Reaped {
    pub pid: Pid,
    pub name: Text,
    pub how: How,
}
