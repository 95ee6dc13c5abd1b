//! What the causes of a policy's texts print.

use super::count::Count;
use super::quoted::Quoted;
use crate::policy::cause::{AllowCause, ContextCause};
use std::fmt;

impl fmt::Display for ContextCause {
    fn fmt<W: fmt::Write>(&self, f: &mut fmt::Formatter<W>) -> fmt::Result {
        match self {
            ContextCause::NoLabel { name } => {
                write!(f, "a label is expected behind {}", Quoted(name.bytes()))
            }
            ContextCause::UnknownKind { word } => {
                write!(
                    f,
                    "exact or prefix is expected, not {}",
                    Quoted(word.bytes())
                )
            }
            ContextCause::UnknownType { word } => {
                f.write_str(
                    "a type (bool, int, uint, enum, string, double or size) is expected, not ",
                )?;
                write!(f, "{}", Quoted(word.bytes()))
            }
            ContextCause::NoValues => f.write_str("enum takes one word or more, and none is given"),
            ContextCause::TakesNoValues { word, given } => {
                let count = Count {
                    wanted: 0,
                    given: *given,
                };
                write!(f, "{} takes {count}", Quoted(word.bytes()))
            }
            ContextCause::Twice { name, first } => {
                write!(f, "{} stands in line {first} too", Quoted(name.bytes()))
            }
            ContextCause::NoDefault => f.write_str("no line for *"),
        }
    }
}

impl fmt::Display for AllowCause {
    fn fmt<W: fmt::Write>(&self, f: &mut fmt::Formatter<W>) -> fmt::Result {
        match self {
            AllowCause::NotAllow { word } => {
                write!(f, "allow is expected, not {}", Quoted(word.bytes()))
            }
            AllowCause::WrongCount { given } => {
                let count = Count {
                    wanted: 2,
                    given: *given,
                };
                write!(f, "allow takes {count}")
            }
        }
    }
}
