//! Statuses: how a run of the program ends.

ghost use Rattle.std.specs.Prelude.{◌≡◌};
ghost use Rattle.rc_lint.specs.Status.{code_of};

use rc_import::LoadRefusal;

/// How a run of the program ended.
#[derive(Drop)]
pub enum Status {
    /// The report is written, and has no error.
    Clean,
    /// The report is written, and has an error.
    Faulty,
    /// The report couldn't be written. A front of it is written.
    WriteFault,
    /// The tree isn't read.
    Refused(LoadRefusal),
}

impl Status {
    /// The exit status of the process.
    pub fn code(&self) -> u8
        ensures { result ≡ code_of self.now }
    {
        match self {
            Status::Clean => 0,
            Status::Faulty => 1,
            Status::WriteFault | Status::Refused(_) => 2,
        }
    }
}
