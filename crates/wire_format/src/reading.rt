//! Reading messages from bytes.

ghost use Rattle.std.specs.Prelude.{◌≡◌, ◌+◌, ◌≤◌, ◌++◌, ℕ, List as Items, length, IfOk};
ghost use Rattle.wire_format.specs.Wire.{first_message, front_of, second_message, unfinished, BeginsWith, no_message};
ghost use Rattle.wire_format.specs.internal.Pieces.{IsFront};

use crate::field::field_text;
use crate::message::{Message, Rest};
use crate::shape::{FIRST_LEN, Shape, shape_of};
use init_base::{List, NoMemory, Text};
use std::alloc::Global;

/// What is at the front of bytes.
#[derive(Debug, Drop)]
pub(crate) enum Front {
    /// A message of so many bytes.
    Whole { message: Message, len: usize },
    /// No whole message.
    Rest { rest: Rest },
}

/// What is at the front of bytes.
#[tactic(auto, unfolding(crate::specs::Wire::front_of))]
pub(crate) fn front_of(alloc: Global, bytes: &[u8]) -> Result<Front, NoMemory>
    ensures { IfOk result (λ front. IsFront bytes.now front) }
{
    match shape_of(bytes) {
        Shape::First => Ok(Front::Whole {
            message: first_message(alloc, bytes)?,
            len: FIRST_LEN,
        }),
        Shape::Second { name, value } => Ok(Front::Whole {
            message: second_message(alloc, bytes, name, value)?,
            len: 12 + name + value,
        }),
        Shape::Wants { .. } => Ok(Front::Rest {
            rest: unfinished(bytes),
        }),
        Shape::BadCommand { word } => Ok(Front::Rest {
            rest: Rest::BadCommand { word },
        }),
        Shape::BadLength { len } => Ok(Front::Rest {
            rest: Rest::BadLength { len },
        }),
    }
}

/// The rest that bytes are if they are less than a message.
fn unfinished(bytes: &[u8]) -> Rest
    ensures { result ≡ unfinished bytes.now }
{
    if bytes.is_empty() {
        return Rest::End;
    }
    Rest::Torn {
        have: bytes.len() as u64,
    }
}

/// The message of form one at the front.
fn first_message(alloc: Global, bytes: &[u8]) -> Result<Message, NoMemory>
    requires { 128 ≤ length bytes.now }
    ensures { IfOk result (λ message. message ≡ first_message bytes.now) }
{
    Ok(Message {
        second: false,
        name: Text::of(alloc, field_text(&bytes[4..36]))?,
        value: Text::of(alloc, field_text(&bytes[36..FIRST_LEN]))?,
    })
}

/// The message of form two at the front, whose texts have these lengths.
fn second_message(
    alloc: Global,
    bytes: &[u8],
    name: usize,
    value: usize,
) -> Result<Message, NoMemory>
    requires { 12 + name + value ≤ length bytes.now }
    ensures { IfOk result (λ message. message ≡ second_message bytes.now name value) }
{
    let at = 12 + name;
    Ok(Message {
        second: true,
        name: Text::of(alloc, &bytes[8..8 + name])?,
        value: Text::of(alloc, &bytes[at..at + value])?,
    })
}

/// Adds the messages at the front of bytes to those before them, and gives what is left.
#[tactic(auto, using(crate::proofs::Streams::begins_more))]
pub(crate) fn read_whole<'a>(
    alloc: Global,
    bytes: &'a [u8],
    messages: &mut List<Message>,
) -> Result<(&'a [u8], Rest), NoMemory>
    ensures begins { IfOk result (λ left. (stream : Items ℕ) → BeginsWith stream messages.old bytes.entry.now
        → BeginsWith stream messages.new left.0.now) }
    ensures rests { IfOk result (λ left. front_of left.0.now ≡ no_message left.1) }
{
    let mut left = bytes;
    loop {
        match front_of(alloc, left)? {
            Front::Whole { message, len } => {
                messages.push(message)?;
                left = &left[len..];
            }
            Front::Rest { rest } => return Ok((left, rest)),
        }
    }
}
