//! What is printed to standard error.

use crate::status::Status;
use init_base::{Fault, NoMemory, Text};
use lint_findings::BaselineRefusal;
use rc_import::LoadRefusal;
use std::string::String;
use std::{fmt, io};

/// Prints why there is no report, and behind it which path was meant and what the system said, where it said anything and
/// there is memory for it.
pub fn tell(rt: &HostRuntime, status: &Status, fault: Option<&Fault>) -> io::Result<()> {
    match status {
        Status::Clean | Status::Faulty => Ok(()),
        Status::WriteFault => {
            eprintln!(rt; "rc-lint: write fault")?;
            tell_fault(rt, fault)
        }
        Status::Refused(refusal) => tell_refusal(rt, refusal, fault),
    }
}

fn tell_refusal(rt: &HostRuntime, refusal: &LoadRefusal, fault: Option<&Fault>) -> io::Result<()> {
    match refusal {
        LoadRefusal::NoInit => {
            eprintln!(rt; "rc-lint: no root file /system/etc/init/hw/init.rc")?;
            tell_fault(rt, fault)
        }
        LoadRefusal::ReadFault => {
            eprintln!(rt; "rc-lint: read fault")?;
            tell_fault(rt, fault)
        }
        LoadRefusal::TooLarge { path, number, .. } => tell_limit(rt, "too large", path, *number),
        LoadRefusal::TooMany { path, number } => tell_limit(rt, "too many files", path, *number),
        LoadRefusal::NoMemory => eprintln!(rt; "rc-lint: no memory"),
    }
}

/// What the reader of words has to say, or that it couldn't be written. Answers whether it was.
pub fn print_told(rt: &HostRuntime, told: &clap::Error) -> bool {
    match told.print(rt) {
        Ok(()) => true,
        Err(error) => {
            let _ = tell_unwritten(rt, error);
            false
        }
    }
}

/// That standard output couldn't be written, and what the system said.
fn tell_unwritten(rt: &HostRuntime, error: io::Error) -> io::Result<()> {
    eprintln!(rt; "rc-lint: write fault")?;
    match Text::of(rt.alloc(), b"standard output") {
        Ok(path) => tell_fault(rt, Some(&Fault { path, error })),
        Err(NoMemory) => Ok(()),
    }
}

/// A kind that can't be told as an error, and those that can.
pub fn tell_unknown_kind(rt: &HostRuntime, name: &Text) -> io::Result<()> {
    if name.is_empty() {
        eprintln!(rt; "rc-lint: --werror: a kind is empty")?;
    } else {
        let name = String::from_utf8_lossy(rt.alloc(), name.bytes())?;
        eprintln!(rt;
            "rc-lint: --werror: no kind of a warning or a hint: {}",
            OneLine(name.as_str())
        )?;
    }
    eprintln!(rt;
        "rc-lint: the kinds are all, NotModelled, NoService, NoClass, UnheardEvent, UnsentEvent, ByteOrderMark, SpannedLines and CapitalHeader"
    )
}

/// A form that isn't known, and those that are.
pub fn tell_unknown_format(rt: &HostRuntime, name: &Text) -> io::Result<()> {
    let name = String::from_utf8_lossy(rt.alloc(), name.bytes())?;
    eprintln!(rt;
        "rc-lint: --format takes gcc, json or sarif, and not {}",
        OneLine(name.as_str())
    )
}

/// Why a file knows no findings, and the line that fits no baseline.
pub fn tell_baseline(
    rt: &HostRuntime,
    path: &Text,
    refusal: BaselineRefusal,
    fault: Option<&Fault>,
) -> io::Result<()> {
    let name = String::from_utf8_lossy(rt.alloc(), path.bytes())?;
    match refusal {
        BaselineRefusal::BadLine { line } => {
            eprintln!(rt;
                "rc-lint: {}:{line}: no line of a baseline",
                OneLine(name.as_str())
            )
        }
        BaselineRefusal::TooLarge => {
            eprintln!(rt;
                "rc-lint: {}: more than 33554432 bytes are no baseline",
                OneLine(name.as_str())
            )
        }
        BaselineRefusal::ReadFault => tell_fault(rt, fault),
        BaselineRefusal::NoMemory => eprintln!(rt; "rc-lint: no memory"),
    }
}

/// A baseline isn't written in the place of what is no plain file.
pub fn tell_no_file(rt: &HostRuntime, path: &Text) -> io::Result<()> {
    let name = String::from_utf8_lossy(rt.alloc(), path.bytes())?;
    eprintln!(rt;
        "rc-lint: {}: not a plain file, so no baseline is written there",
        OneLine(name.as_str())
    )
}

/// The limit that a path passes.
fn tell_limit(rt: &HostRuntime, what: &str, path: &Text, number: u64) -> io::Result<()> {
    let path = String::from_utf8_lossy(rt.alloc(), path.bytes())?;
    eprintln!(rt; "rc-lint: {what}: {}: {number}", OneLine(path.as_str()))
}

/// What the system said. Its number of the error is left out behind its words.
fn tell_fault(rt: &HostRuntime, fault: Option<&Fault>) -> io::Result<()> {
    let Some(fault) = fault else {
        return Ok(());
    };
    let alloc = rt.alloc();
    let line = format!(in alloc; "{fault}")?;
    let number = match fault.error.raw_os_error() {
        Some(code) => format!(in alloc; " (os error {code})")?,
        None => String::new(alloc),
    };
    let line = line.as_str();
    let said = line.strip_suffix(number.as_str()).unwrap_or(line);
    eprintln!(rt; "rc-lint: {}", OneLine(said))
}

/// A text in one line: a control character is shown as `?`, as on the page.
#[derive(Clone, Copy)]
struct OneLine<'a>(&'a str);

impl fmt::Display for OneLine<'_> {
    fn fmt<W: fmt::Write>(&self, f: &mut fmt::Formatter<W>) -> fmt::Result {
        for shown in self.0.chars() {
            f.write_char(if shown.is_control() { '?' } else { shown })?;
        }
        Ok(())
    }
}
