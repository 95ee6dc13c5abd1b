//! `Held`: what the store holds of a property beside its name.

ghost use Rattle.std.specs.Prelude.{◌≡◌, ◌≤◌, take, length, IsSome};
ghost use Rattle.list_store.specs.internal.HeldValue.{HasRoom, bytes_of, IsKept};

use init_base::PropValue;
use std::marker::Model;

/// The most bytes of a value that stands in place.
const SHORT: usize = 91;

/// The bytes of a value: in place, or in a buffer of its own.
#[derive(Drop)]
enum Kept {
    Short { bytes: [u8; 91], len: usize },
    Long { text: Vec<u8> },
}

/// A property's value, and the number of the set that gave it. It owns its bytes, so that a set can't fail.
#[derive(Drop)]
pub struct Held {
    kept: Kept,
    number: u64,
}

impl Model for Held {
    ghost use Rattle.std.specs.Prelude.{ℕ, List};
    ghost use Rattle.list_store.specs.internal.HeldValue.{bytes_of, IsKept};

    ghost Value = { List ℕ × ℕ };

    ghost view = { λ h. (bytes_of h.kept, h.number) };

    ghost invariant = { λ h. IsKept h.kept };
}

impl Held {
    /// A value of more than 91 bytes takes the buffer.
    pub fn new(value: PropValue<'_>, number: u64, buffer: &mut Option<Vec<u8>>) -> Held
        requires buffer { HasRoom buffer.old × IsSome buffer.old }
        ensures held { result ≡ (value.entry.bytes.now, number) }
        ensures buffer { HasRoom buffer.new }
    {
        let bytes = value.bytes();
        let kept = if bytes.len() <= SHORT {
            short(bytes)
        } else {
            long(bytes, buffer)
        };
        Held { kept, number }
    }

    /// The length of the value.
    pub fn len(&self) -> usize
        ensures { result ≡ length self.now.0 }
    {
        match &self.kept {
            Kept::Short { bytes: _, len } => *len,
            Kept::Long { text } => text.len(),
        }
    }

    /// The number of the set that gave the value.
    pub fn number(&self) -> u64
        ensures { result ≡ self.now.1 }
    {
        self.number
    }

    /// Writes the value at the front of a buffer, and answers its length and the number of its set.
    pub fn read(&self, out: &mut [u8]) -> (usize, u64)
        requires { length self.now.0 ≤ length out.old }
        ensures answer { result ≡ (length self.now.0, self.now.1) }
        ensures value { take (length self.now.0) out.new ≡ self.now.0 }
    {
        match &self.kept {
            Kept::Short { bytes, len } => out[..*len].copy_from_slice(&bytes[..*len]),
            Kept::Long { text } => out[..text.len()].copy_from_slice(text),
        }
        (self.len(), self.number)
    }
}

fn short(bytes: &[u8]) -> Kept
    requires { length bytes.now ≤ 91 }
    ensures value { bytes_of result ≡ bytes.now }
    ensures kept { IsKept result }
{
    let mut kept = [0; 91];
    kept[..bytes.len()].copy_from_slice(bytes);
    Kept::Short {
        bytes: kept,
        len: bytes.len(),
    }
}

fn long(bytes: &[u8], buffer: &mut Option<Vec<u8>>) -> Kept
    requires buffer { HasRoom buffer.old × IsSome buffer.old }
    requires bytes { length bytes.now ≤ 8191 }
    ensures value { bytes_of result ≡ bytes.now }
    ensures kept { IsKept result }
    ensures buffer { HasRoom buffer.new }
{
    let Some(mut text) = buffer.take() else {
        unreachable!()
    };
    match text.extend_from_slice(bytes) {
        Ok(()) => Kept::Long { text },
        Err(_) => unreachable!(),
    }
}
