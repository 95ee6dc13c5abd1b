//! What the machine said where an adapter gave nothing.

use crate::memory::NoMemory;
use crate::text::Text;
use std::alloc::Global;
use std::fmt;
use std::io::Error;

/// The path of the machine that was meant, and what the system said. It prints as `PATH: what the system said`.
#[derive(Debug, Drop)]
pub struct Fault {
    pub path: Text,
    pub error: Error,
}

impl fmt::Display for Fault {
    fn fmt<W: fmt::Write>(&self, f: &mut fmt::Formatter<W>) -> fmt::Result {
        let path = std::str::from_utf8(self.path.bytes()).unwrap_or("a path that isn't UTF-8");
        write!(f, "{path}: {}", self.error)
    }
}

/// The fault at a path, if there is memory for it.
pub(crate) fn fault_at(path: Result<Text, NoMemory>, error: Error) -> Option<Fault> {
    match path {
        Ok(path) => Some(Fault { path, error }),
        Err(NoMemory) => None,
    }
}
