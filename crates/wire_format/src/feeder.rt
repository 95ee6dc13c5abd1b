//! `Feeder`: the messages of a stream that comes in pieces.

ghost use Rattle.std.specs.Prelude.{◌≡◌, ◌≤◌, ◌++◌, ℕ, List as Items, [], length, IfOk};
ghost use Rattle.wire_format.specs.Feeding.{tail, Feeds, IsOnly, tail_len};

use crate::message::{Message, Rest};
use crate::pieces::read_piece;
use crate::refusal::FeedRefusal;
use init_base::{List, NoMemory};
use std::alloc::Global;
use std::marker::Model;

/// The most bytes of a message.
const MAX_MESSAGE: usize = 9228;

/// Reads the messages of a stream that comes in pieces. It keeps the bytes of a message that isn't whole yet.
#[derive(Debug, Drop)]
pub struct Feeder {
    bytes: Vec<u8>,
    ended: bool,
}

impl Model for Feeder {
    ghost use Rattle.std.specs.Prelude.{if◌then◌else◌, IsTrue};
    ghost use Rattle.std.specs.Bool.{OnFalse};
    ghost use Rattle.wire_format.specs.Feeding.{Feeding, tail, over};
    ghost use Rattle.wire_format.specs.Wire.{shape_of, waits};

    ghost Value = { Feeding };

    ghost view = { λ f. if f.ended then over else tail f.bytes.items };

    ghost invariant = { λ f. OnFalse f.ended (IsTrue (waits (shape_of f.bytes.items))) };
}

impl Feeder {
    /// A feeder that has taken no piece.
    pub fn new(alloc: Global) -> Result<Feeder, NoMemory>
        ensures { IfOk result (λ feeder. feeder ≡ tail []) }
    {
        Ok(Feeder {
            bytes: Vec::with_capacity(alloc, MAX_MESSAGE)?,
            ended: false,
        })
    }

    /// The messages that a piece of the stream makes whole. `Over` comes exactly after a piece was refused.
    pub fn feed(&mut self, piece: &[u8]) -> Result<List<Message>, FeedRefusal>
        // What is answered is what the bytes are, and what is kept is what is left of them.
        ensures feeds { Feeds self.old piece.now result self.new }
        // What the bytes are is answered, unless memory runs out.
        ensures only { IsOnly self.old piece.now result }
        ensures bound { tail_len self.new ≤ 9227 }
    {
        if self.ended {
            return Err(FeedRefusal::Over);
        }
        self.ended = true;
        let mut messages = List::new(*self.bytes.allocator());
        match read_piece(&mut self.bytes, piece, &mut messages)? {
            Rest::BadCommand { word } => Err(FeedRefusal::BadCommand { messages, word }),
            Rest::BadLength { len } => Err(FeedRefusal::BadLength { messages, len }),
            Rest::End | Rest::Torn { .. } => {
                self.ended = false;
                Ok(messages)
            }
        }
    }
}
