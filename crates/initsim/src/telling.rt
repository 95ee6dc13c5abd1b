//! What is printed to standard error.

use command_line::{FormName, Misuse, Place, WordFault, misuse_of};
use init_base::{Fault, List, Text};
use init_forms::Status;
use persist_file::StoreCause;
use refusal_causes::ShownPath;
use std::fmt;

/// Prints the line of the status, and behind it which path was meant and what the system said, where it said anything and there
/// is memory for it.
pub fn tell(rt: &HostRuntime, status: Status, fault: Option<&Fault>) -> std::io::Result<()> {
    tell_status(rt, status)?;
    match fault {
        Some(fault) => tell_fault(rt, fault),
        None => Ok(()),
    }
}

fn tell_status(rt: &HostRuntime, status: Status) -> std::io::Result<()> {
    match status {
        Status::Done => Ok(()),
        Status::Usage => eprintln!(rt;
            "initsim: usage: run ROOT SCRIPT | race ROOT SCRIPT | check ROOT | soak N | wire ROOT MESSAGES | dispatch ROOT SCRIPT | audit ROOT SCRIPT TRACE"
        ),
        Status::ReadFault => eprintln!(rt; "initsim: read fault"),
        Status::WriteFault => eprintln!(rt; "initsim: write fault"),
        Status::NoMemory => eprintln!(rt; "initsim: no memory"),
        Status::BadScript { line } => eprintln!(rt; "initsim: bad script line {line}"),
        Status::NoInit => eprintln!(rt; "initsim: no init.rc"),
        Status::TooLarge { number, .. } => eprintln!(rt; "initsim: too large {number}"),
        Status::BadPolicy { allow: false, line } => {
            eprintln!(rt; "initsim: bad contexts line {line}")
        }
        Status::BadPolicy { allow: true, line } => eprintln!(rt; "initsim: bad allow line {line}"),
        Status::BadStore { line, cause } => {
            eprintln!(rt; "initsim: bad store line {line} {}", cause_name(cause))
        }
        Status::BadWire { at } => eprintln!(rt; "initsim: bad message at {at}"),
        Status::BadTrace => eprintln!(rt; "initsim: bad trace"),
    }
}

fn cause_name(cause: StoreCause) -> &'static str {
    match cause {
        StoreCause::Head => "Head",
        StoreCause::Shape => "Shape",
        StoreCause::Name => "Name",
        StoreCause::Order => "Order",
        StoreCause::Kind => "Kind",
        StoreCause::Value => "Value",
    }
}

/// Prints which path was meant, in one line whatever its bytes are, and what the system said. The system's number of the error is
/// left out behind its words.
fn tell_fault(rt: &HostRuntime, fault: &Fault) -> std::io::Result<()> {
    let alloc = rt.alloc();
    let line = format!(in alloc; "{}", fault.error)?;
    let number = match fault.error.raw_os_error() {
        Some(code) => format!(in alloc; " (os error {code})")?,
        None => String::new(alloc),
    };
    let line = line.as_str();
    let said = line.strip_suffix(number.as_str()).unwrap_or(line);
    eprintln!(rt; "initsim: {}: {said}", ShownPath(fault.path.bytes()))
}

/// Prints what is wrong with words that have no form.
pub fn tell_misuse(rt: &HostRuntime, words: &List<Text>) -> std::io::Result<()> {
    match misuse_of(words) {
        Some(Misuse::NoForm) => eprintln!(rt; "initsim: no word is given"),
        Some(Misuse::UnknownForm) => tell_unknown(rt, words),
        Some(Misuse::WrongCount { form, given }) => tell_count(rt, form, given),
        Some(Misuse::BadWord { place, fault }) => {
            eprintln!(rt; "initsim: {} {}", name_of(place), said_of(fault))
        }
        Some(Misuse::BadNumber) => {
            eprintln!(rt; "initsim: N is no number from 1 to 1000 without leading zeros")
        }
        None => Ok(()),
    }
}

fn tell_unknown(rt: &HostRuntime, words: &List<Text>) -> std::io::Result<()> {
    match words.at(0) {
        Some(word) => {
            let quoted = Quoted {
                bytes: word.bytes(),
            };
            eprintln!(rt; "initsim: no form is named {quoted}")
        }
        None => Ok(()),
    }
}

fn tell_count(rt: &HostRuntime, form: FormName, given: usize) -> std::io::Result<()> {
    let taken = match form {
        FormName::Run => "run takes 2 words",
        FormName::Race => "race takes 2 words",
        FormName::Check => "check takes 1 word",
        FormName::Soak => "soak takes 1 word",
        FormName::Wire => "wire takes 2 words",
        FormName::Dispatch => "dispatch takes 2 words",
        FormName::Audit => "audit takes 3 words",
    };
    match given {
        0 => eprintln!(rt; "initsim: {taken}, and none is given"),
        1 => eprintln!(rt; "initsim: {taken}, and 1 is given"),
        _ => eprintln!(rt; "initsim: {taken}, and {given} are given"),
    }
}

/// The place's name in the usage line.
fn name_of(place: Place) -> &'static str {
    match place {
        Place::Root => "ROOT",
        Place::Script => "SCRIPT",
        Place::Messages => "MESSAGES",
        Place::Trace => "TRACE",
        Place::Number => "N",
    }
}

fn said_of(fault: WordFault) -> &'static str {
    match fault {
        WordFault::Empty => "is empty",
        WordFault::Dash => "begins with -",
        WordFault::NotUtf8 => "isn't UTF-8",
    }
}

/// Bytes that print in q form, so that a word of any bytes stands in one line.
#[derive(Clone, Copy)]
struct Quoted<'a> {
    bytes: &'a [u8],
}

impl fmt::Display for Quoted<'_> {
    fn fmt<W: fmt::Write>(&self, f: &mut fmt::Formatter<W>) -> fmt::Result {
        if self.bytes.is_empty() {
            return f.write_str("%");
        }
        for byte in self.bytes {
            match *byte {
                b'%' | 0..=0x20 | 0x7f..=0xff => write!(f, "%{:02X}", *byte)?,
                plain => f.write_char(plain as char)?,
            }
        }
        Ok(())
    }
}
