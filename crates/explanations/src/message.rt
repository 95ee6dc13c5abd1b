//! After a bad message: what is wrong with it.

use crate::line::file_line;
use init_base::Text;
use std::alloc::Global;
use std::fmt;

/// The command of form one.
const FIRST: u32 = 1;

/// The command of form two.
const SECOND: u32 = 0x0002_0001;

const MAX_NAME: u32 = 1024;

const MAX_VALUE: u32 = 8192;

/// What is wrong with a message.
#[derive(Clone, Copy)]
enum MessageFault {
    /// No form has this command.
    Command { word: u32 },
    /// The name has more bytes than it may.
    Name { len: u32 },
    /// The value has more bytes than it may.
    Value { len: u32 },
    /// The stream ends before the message does.
    End,
}

impl fmt::Display for MessageFault {
    fn fmt<W: fmt::Write>(&self, f: &mut fmt::Formatter<W>) -> fmt::Result {
        match *self {
            MessageFault::Command { word } => write!(f, "command {word:08x}"),
            MessageFault::Name { len } => write!(f, "name of {len} bytes"),
            MessageFault::Value { len } => write!(f, "value of {len} bytes"),
            MessageFault::End => f.write_str("ends within a message"),
        }
    }
}

/// What is wrong with the message that begins these bytes, the last of a stream that was refused there.
pub fn message_line(alloc: Global, path: &Text, bytes: &[u8]) -> Option<String> {
    file_line(alloc, path, &fault_in(bytes))
}

fn fault_in(bytes: &[u8]) -> MessageFault {
    match word_at(bytes, 0) {
        Some(SECOND) => length_fault(bytes),
        Some(FIRST) | None => MessageFault::End,
        Some(word) => MessageFault::Command { word },
    }
}

/// What is wrong with a message of form two.
fn length_fault(bytes: &[u8]) -> MessageFault {
    let Some(name) = word_at(bytes, 4) else {
        return MessageFault::End;
    };
    if name > MAX_NAME {
        return MessageFault::Name { len: name };
    }
    match word_at(bytes, 8 + name as usize) {
        Some(value) if value > MAX_VALUE => MessageFault::Value { len: value },
        _ => MessageFault::End,
    }
}

/// The word at a place, if it is there: its lowest byte comes first.
fn word_at(bytes: &[u8], at: usize) -> Option<u32> {
    match bytes.get(at..)? {
        [first, second, third, fourth, ..] => {
            Some(u32::from_le_bytes([*first, *second, *third, *fourth]))
        }
        _ => None,
    }
}
