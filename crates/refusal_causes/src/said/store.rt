//! What is printed of a line of the persistent store's text.

use super::quoted::{Quoted, ShownPath};
use crate::store::cause::StoreFault;
use init_base::BadValue;
use persist_file::Version;
use std::fmt;

impl fmt::Display for StoreFault {
    fn fmt<W: fmt::Write>(&self, f: &mut fmt::Formatter<W>) -> fmt::Result {
        match self {
            StoreFault::NoHead => {
                f.write_str("the line \"persist 1\" or \"persist 2\" is expected")
            }
            StoreFault::NoWords { version } => f.write_str(words_of(*version)),
            StoreFault::IllegalName { name } => {
                write!(f, "{} is no legal property name", Quoted(name.bytes()))
            }
            StoreFault::NotPersistent { name } => {
                write!(f, "{} doesn't begin with persist.", Quoted(name.bytes()))
            }
            StoreFault::Twice { name, first } => {
                write!(f, "{} stands in line {first} too", Quoted(name.bytes()))
            }
            StoreFault::OutOfOrder { name, behind } => {
                write!(
                    f,
                    "{} comes before the name in line {behind}",
                    Quoted(name.bytes())
                )
            }
            StoreFault::NoKind { given } => {
                write!(
                    f,
                    "{} is none of any, bool, int, uint and enum",
                    Quoted(given.bytes())
                )
            }
            StoreFault::NotHex { given } => {
                f.write_str("pairs of lower-case hexadecimal digits, or -, are expected, not ")?;
                write!(f, "{}", Quoted(given.bytes()))
            }
            StoreFault::NotQuoted { given } => {
                write!(f, "{} is no q form", Quoted(given.bytes()))
            }
            StoreFault::IllegalValue { fault } => say_fault(f, *fault),
            StoreFault::NotTyped { kind, value } => {
                write!(
                    f,
                    "{} is no {}",
                    Quoted(value.bytes()),
                    ShownPath(kind.bytes())
                )
            }
            StoreFault::NoEnd => f.write_str("the line doesn't end with LF"),
        }
    }
}

fn words_of(version: Version) -> &'static str {
    match version {
        Version::First => "a name, one space and a value are expected",
        Version::Second => "a name, a type and a value, with one space between, are expected",
    }
}

fn say_fault<W: fmt::Write>(f: &mut fmt::Formatter<W>, fault: BadValue) -> fmt::Result {
    match fault {
        BadValue::TooLong { len } => write!(f, "a value has at most 91 bytes, and {len} are given"),
        BadValue::NotUtf8 => f.write_str("the value isn't UTF-8"),
    }
}
