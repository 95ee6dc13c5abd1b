//! Reading a piece behind the bytes of a message that isn't whole.

ghost use Rattle.std.specs.Prelude.{◌≡◌, ◌++◌, ℕ, List as Items, [], IfOk, OnErr, IsTrue};
ghost use Rattle.wire_format.specs.Wire.{front_of, shape_of, waits, BeginsWith, whole};
ghost use Rattle.wire_format.specs.declared.message.Message.{Message};
ghost use Rattle.wire_format.specs.internal.Pieces.{ReadsOn};

use crate::message::{Message, Rest};
use crate::reading::{Front, front_of, read_whole};
use crate::shape::{Shape, shape_of};
use init_base::{List, NoMemory};

/// Adds the messages that a piece makes whole, behind the bytes of one that isn't. The tail is then the bytes of the rest,
/// unless that is bad.
pub(crate) fn read_piece(
    tail: &mut Vec<u8>,
    piece: &[u8],
    messages: &mut List<Message>,
) -> Result<Rest, NoMemory>
    requires waits { IsTrue (waits (shape_of tail.old.items)) }
    requires first { messages.old ≡ [] }
    ensures { IfOk result (λ rest. ReadsOn (tail.old.items ++ piece.now) messages.new tail.new.items rest) }
{
    let alloc = *tail.allocator();
    let behind = fill(tail, piece)?;
    match front_of(alloc, tail.as_slice())? {
        Front::Rest { rest } => Ok(rest),
        Front::Whole { message, .. } => {
            messages.push(message)?;
            tail.clear();
            read_on(tail, behind, messages)
        }
    }
}

/// Moves bytes from the front of a piece to the tail, until they are enough or the piece ends. What is left of the piece is given.
fn fill<'a>(tail: &mut Vec<u8>, piece: &'a [u8]) -> Result<&'a [u8], NoMemory>
    requires { IsTrue (waits (shape_of tail.old.items)) }
    ensures moved { IfOk result (λ left. tail.old.items ++ piece.entry.now ≡ tail.new.items ++ left.now) }
    ensures enough { IfOk result (λ left. IsTrue (waits (shape_of tail.new.items)) → left.now ≡ []) }
    // No byte behind a message is moved.
    ensures exact { IfOk result (λ left. (message : Message) (behind : Items ℕ) →
        front_of tail.new.items ≡ whole message behind → behind ≡ []) }
{
    let mut left = piece;
    while let Shape::Wants { len } = shape_of(tail.as_slice()) {
        if left.is_empty() {
            return Ok(left);
        }
        let count = left.len().min(len - tail.len());
        tail.extend_from_slice(&left[..count])?;
        left = &left[count..];
    }
    Ok(left)
}

/// Adds the messages at the front of bytes to those before them. The tail, which is empty, is then the bytes of the rest, unless that
/// is bad.
fn read_on(tail: &mut Vec<u8>, bytes: &[u8], messages: &mut List<Message>) -> Result<Rest, NoMemory>
    requires { tail.old.items ≡ [] }
    ensures { IfOk result (λ rest. (stream : Items ℕ) → BeginsWith stream messages.old bytes.now
        → ReadsOn stream messages.new tail.new.items rest) }
{
    let alloc = *tail.allocator();
    let (left, rest) = read_whole(alloc, bytes, messages)?;
    if rest.is_open() {
        tail.extend_from_slice(left)?;
    }
    Ok(rest)
}
