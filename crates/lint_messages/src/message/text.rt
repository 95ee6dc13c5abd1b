//! The making of messages.

use init_base::{NoMemory, Text};
use std::alloc::Global;

/// The most bytes of a word that are quoted.
const MOST_QUOTED: usize = 80;

/// A message in the making.
#[derive(Drop)]
pub struct Message {
    bytes: Vec<u8>,
}

impl Message {
    /// A message that begins so.
    pub fn of(alloc: Global, text: &[u8]) -> Result<Message, NoMemory> {
        Message {
            bytes: Vec::new(alloc),
        }
        .say(text)
    }

    /// The message goes on so.
    pub fn say(mut self, text: &[u8]) -> Result<Message, NoMemory> {
        self.bytes.extend_from_slice(text)?;
        Ok(self)
    }

    /// The message goes on with a word in quotes, of which only the first bytes are told where it is long.
    pub fn quote(mut self, word: &[u8]) -> Result<Message, NoMemory> {
        self.bytes.push(b'"')?;
        for byte in word.iter().take(MOST_QUOTED) {
            self = self.escaped(*byte)?;
        }
        if word.len() > MOST_QUOTED {
            self.bytes.extend_from_slice(b"..")?;
        }
        self.bytes.push(b'"')?;
        Ok(self)
    }

    /// A byte as it is written in quotes.
    fn escaped(self, byte: u8) -> Result<Message, NoMemory> {
        match byte {
            b'\n' => self.say(b"\\n"),
            b'\r' => self.say(b"\\r"),
            b'\t' => self.say(b"\\t"),
            _ => self.say(&[byte]),
        }
    }

    /// The message goes on with a number.
    pub fn number(mut self, number: u64) -> Result<Message, NoMemory> {
        let alloc = *self.bytes.allocator();
        let digits = number.to_string(alloc)?;
        self.bytes.extend_from_slice(digits.as_bytes())?;
        Ok(self)
    }

    /// The message goes on with a number of arguments.
    pub fn arguments(self, number: usize) -> Result<Message, NoMemory> {
        match number {
            0 => self.say(b"no argument"),
            1 => self.say(b"1 argument"),
            _ => self.number(number as u64)?.say(b" arguments"),
        }
    }

    pub fn end(self) -> Result<Text, NoMemory> {
        Text::from_vec(self.bytes)
    }
}
