//! Statuses: how a run of the program ends.

ghost use Rattle.std.specs.Prelude.{◌≡◌};
ghost use Rattle.job_reader.specs.Status.{code_of};

use init_machine::Limit;
use persist_file::StoreCause;

/// How a run of the program ended.
#[derive(Clone, Copy, Debug, PartialEq, Eq)]
pub enum Status {
    /// The defined text is written whole.
    Done,
    /// The words of the command line have no form.
    Usage,
    /// A file, the script, the store or the trace couldn't be read, or the store couldn't be replaced.
    ReadFault,
    /// The text couldn't be written. A front of it is written.
    WriteFault,
    /// Memory ran out.
    NoMemory,
    /// A line of the script is bad: the first one, from 1.
    BadScript { line: u32 },
    /// The tree has no root file.
    NoInit,
    /// A limit is passed. The number of the bytes of one file, script, store or trace is the limit and one more.
    TooLarge { limit: Limit, number: u64 },
    /// A line of the allow text, or else of the contexts text, is bad: the first one, from 1.
    BadPolicy { allow: bool, line: u32 },
    /// A line of the persistent store is bad: the first one, from 1, and why.
    BadStore { line: u32, cause: StoreCause },
    /// The stream of messages has something else after its last whole message. So many bytes are before it.
    BadWire { at: u64 },
    /// The trace is no report's text.
    BadTrace,
}

impl Status {
    /// The exit status of the process.
    pub fn code(&self) -> u8
        ensures { result ≡ code_of self.now }
    {
        match self {
            Status::Done => 0,
            Status::Usage => 1,
            Status::ReadFault => 2,
            Status::WriteFault => 3,
            Status::NoMemory => 4,
            Status::BadScript { .. } => 5,
            Status::NoInit => 6,
            Status::TooLarge { .. } => 7,
            Status::BadPolicy { .. } => 8,
            Status::BadStore { .. } => 9,
            Status::BadWire { .. } => 11,
            Status::BadTrace => 12,
        }
    }
}
