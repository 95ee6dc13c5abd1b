//! Why nothing is run, checked or judged.

ghost use Rattle.std.specs.Prelude.{◌≡◌, ◌<◌, ◌^◌};
ghost use Rattle.job_reader.specs.Stops.{reading_stop, status_of};
ghost use Rattle.job_reader.specs.Tree as spec;

use crate::status::Status;
use init_base::{NoMemory, ReadRefusal};
use init_machine::Limit;
use persist_file::{StoreCause, StoreRefusal};
use prop_contexts::PolicyRefusal;
use rc_import::{LoadLimit, LoadRefusal};
use script_lang::ScriptRefusal;
use trace_reader::Fault;

/// The limit on what is read of a tree, among all limits.
fn limit_of(limit: LoadLimit) -> Limit
    ensures { result ≡ spec.limit_of limit }
{
    match limit {
        LoadLimit::FileBytes => Limit::FileBytes,
        LoadLimit::Names => Limit::Names,
        LoadLimit::AllBytes => Limit::RcBytes,
    }
}

/// Why nothing is run, checked or judged. The lines count from 1.
#[derive(Clone, Copy, Debug, PartialEq, Eq)]
pub enum Stop {
    ReadFault,
    NoMemory,
    /// The first bad line of the script.
    BadScript { line: u32 },
    /// The tree has no root file.
    NoInit,
    TooLarge { limit: Limit, number: u64 },
    /// The first bad line of the allow text, or else of the contexts text.
    BadPolicy { allow: bool, line: u32 },
    /// The first bad line of the persistent store, and why it is bad.
    BadStore { line: u32, cause: StoreCause },
    /// The trace is no report's text.
    BadTrace,
}

impl Stop {
    /// The status of a run that is stopped so.
    pub fn status(self) -> Status
        ensures { result ≡ status_of self }
    {
        match self {
            Stop::ReadFault => Status::ReadFault,
            Stop::NoMemory => Status::NoMemory,
            Stop::BadScript { line } => Status::BadScript { line },
            Stop::NoInit => Status::NoInit,
            Stop::TooLarge { limit, number } => Status::TooLarge { limit, number },
            Stop::BadPolicy { allow, line } => Status::BadPolicy { allow, line },
            Stop::BadStore { line, cause } => Status::BadStore { line, cause },
            Stop::BadTrace => Status::BadTrace,
        }
    }

    /// A text of the outside wasn't read that may have so many bytes.
    pub fn of_reading(refusal: ReadRefusal, limit: Limit, most: usize) -> Stop
        requires { most < 2 ^ 32 }
        ensures { result ≡ reading_stop limit most refusal }
    {
        match refusal {
            ReadRefusal::Failed => Stop::ReadFault,
            ReadRefusal::TooLarge => Stop::TooLarge {
                limit,
                number: most as u64 + 1,
            },
            ReadRefusal::NoMemory => Stop::NoMemory,
        }
    }
}

impl From<NoMemory> for Stop {
    ghost use Rattle.std.specs.Prelude.{◌≡◌, ◌<◌, ◌^◌};
    ghost use Rattle.job_reader.specs.declared.stop.Stop.TheVariants.{NoMemory as stop_no_memory};

    ghost from_gives = { λ _ stop. stop ≡ stop_no_memory };

    fn from(_: NoMemory) -> Self {
        Stop::NoMemory
    }
}

impl From<ScriptRefusal> for Stop {
    ghost use Rattle.std.specs.Prelude.{◌≡◌, ◌<◌, ◌^◌};
    ghost use Rattle.job_reader.specs.Stops.{script_stop};

    ghost from_gives = { λ refusal stop. stop ≡ script_stop refusal };

    fn from(refusal: ScriptRefusal) -> Self {
        match refusal {
            ScriptRefusal::TooLarge { limit, number } => Stop::TooLarge { limit, number },
            ScriptRefusal::BadLine { line } => Stop::BadScript { line },
            ScriptRefusal::NoMemory => Stop::NoMemory,
        }
    }
}

impl From<PolicyRefusal> for Stop {
    ghost use Rattle.std.specs.Prelude.{◌≡◌, ◌<◌, ◌^◌};
    ghost use Rattle.job_reader.specs.Stops.{policy_stop};

    ghost from_gives = { λ refusal stop. stop ≡ policy_stop refusal };

    fn from(refusal: PolicyRefusal) -> Self {
        match refusal {
            PolicyRefusal::BadLine { allow, line } => Stop::BadPolicy { allow, line },
            PolicyRefusal::Twice { line } | PolicyRefusal::NoDefault { line } => {
                Stop::BadPolicy { allow: false, line }
            }
            PolicyRefusal::NoMemory => Stop::NoMemory,
        }
    }
}

impl From<LoadRefusal> for Stop {
    ghost use Rattle.std.specs.Prelude.{◌≡◌, ◌<◌, ◌^◌};
    ghost use Rattle.job_reader.specs.Stops.{load_stop};

    ghost from_gives = { λ refusal stop. stop ≡ load_stop refusal };

    fn from(refusal: LoadRefusal) -> Self {
        match refusal {
            LoadRefusal::NoInit => Stop::NoInit,
            LoadRefusal::ReadFault => Stop::ReadFault,
            LoadRefusal::TooLarge { limit, number, .. } => Stop::TooLarge {
                limit: limit_of(limit),
                number,
            },
            LoadRefusal::TooMany { number, .. } => Stop::TooLarge {
                limit: Limit::Files,
                number,
            },
            LoadRefusal::NoMemory => Stop::NoMemory,
        }
    }
}

impl From<StoreRefusal> for Stop {
    ghost use Rattle.std.specs.Prelude.{◌≡◌, ◌<◌, ◌^◌};
    ghost use Rattle.job_reader.specs.Stops.{store_stop};

    ghost from_gives = { λ refusal stop. stop ≡ store_stop refusal };

    fn from(refusal: StoreRefusal) -> Self {
        match refusal {
            StoreRefusal::BadLine { line, cause } => Stop::BadStore { line, cause },
            StoreRefusal::NoMemory => Stop::NoMemory,
        }
    }
}

impl From<Fault> for Stop {
    ghost use Rattle.std.specs.Prelude.{◌≡◌, ◌<◌, ◌^◌};
    ghost use Rattle.job_reader.specs.Stops.{trace_stop};

    ghost from_gives = { λ fault stop. stop ≡ trace_stop fault };

    fn from(fault: Fault) -> Self {
        match fault {
            Fault::Bad => Stop::BadTrace,
            Fault::NoMemory => Stop::NoMemory,
        }
    }
}
