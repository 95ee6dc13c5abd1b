//! `Stream`: how far a stream of messages was read.

ghost use Rattle.std.specs.Prelude.{◌≡◌, ◌+◌, ◌≤◌, ◌++◌, [], length, Ok, Err, true, false, IfOk, if◌then◌else◌, ◌==◌};
ghost use Rattle.init_base.specs.Faults.{Counted};
ghost use Rattle.wire_format.specs.Feeding.{tail};
ghost use Rattle.wire_format.specs.Spelling.{message_len};
ghost use Rattle.prop_wire.specs.Limit.{max_stream};
ghost use Rattle.prop_wire.specs.Refusals.{is_read_fault};
ghost use Rattle.prop_wire.specs.internal.Streams.{DrawsPiece, IsTail, ReadsPiece, tail_of, total_len};

use crate::piece::{MAX_PIECE, Piece};
use crate::refusal::WireRefusal;
use crate::reply::Reply;
use init_base::{List, NoMemory, Source};
use std::alloc::Global;
use wire_format::{FeedRefusal, Feeder, Message};

/// The most bytes of a stream that are served.
pub const MAX_STREAM: u64 = 16_777_216;

/// The bytes of a message of form one.
const FIRST_LEN: u64 = 128;

/// The bytes of a message of form two without its texts.
const SECOND_LEN: u64 = 12;

/// What ends a stream early.
#[derive(Clone, Copy, Debug, PartialEq, Eq)]
pub(crate) enum Bad {
    /// A word that is no form's command.
    Command { word: u32 },
    /// A length that is too large.
    Length { len: u32 },
}

impl Bad {
    ghost use Rattle.prop_wire.specs.internal.Streams.{refusal_at, reply_to};

    /// The reply to it.
    pub fn reply(self) -> Reply
        ensures { result ≡ reply_to self }
    {
        match self {
            Bad::Command { .. } => Reply::InvalidCommand,
            Bad::Length { .. } => Reply::ReadData,
        }
    }

    /// The refusal of a stream that has it at this place.
    pub fn refusal(self, at: u64) -> WireRefusal
        ensures { result ≡ refusal_at self at }
    {
        match self {
            Bad::Command { word } => WireRefusal::BadCommand { at, word },
            Bad::Length { len } => WireRefusal::BadLength { at, len },
        }
    }
}

/// The messages that a piece completes, and what bad follows them.
#[derive(Drop)]
pub(crate) struct Batch {
    pub messages: List<Message>,
    pub bad: Option<Bad>,
}

/// How far a stream of messages was read.
#[derive(Drop)]
pub(crate) struct Stream {
    pub feeder: Feeder,
    pub piece: Piece,
    /// The bytes that were read so far.
    pub read: u64,
    /// The number of whole messages so far, and of their bytes.
    pub messages: u64,
    pub whole: u64,
}

impl Stream {
    /// A stream before its first read.
    pub fn new(alloc: Global) -> Result<Stream, NoMemory>
        ensures { IfOk result (λ stream. stream ≡ record { feeder = tail []; piece = []; read = 0; messages = 0; whole = 0 }) }
    {
        Ok(Stream {
            feeder: Feeder::new(alloc)?,
            piece: Piece::new(),
            read: 0,
            messages: 0,
            whole: 0,
        })
    }

    /// Reads the next piece, at most up to the limit. At the limit it asks for one byte more, which is too many. False at the end.
    pub fn read_on<S: Source>(&mut self, from: &mut S) -> Result<bool, WireRefusal>
        requires { self.old.read ≤ max_stream }
        ensures draws { DrawsPiece (S.left from.old) (S.left from.new) self.old.read self.new.piece result }
        ensures read { result ≡ Ok true → self.new.read ≡ self.old.read + length self.new.piece }
        ensures end { result ≡ Ok false → self.new.read ≡ self.old.read }
        ensures rest { self.new ≡ record self.old { piece = self.new.piece; read = self.new.read } }
        ensures cause { Counted (is_read_fault result) (S.fault_count from.old) (S.fault_count from.new) }
    {
        let left = MAX_STREAM - self.read;
        let room = left.min(MAX_PIECE as u64).max(1) as usize;
        let count = self.piece.fill(from, room)? as u64;
        if count == 0 {
            return Ok(false);
        }
        if left == 0 {
            return Err(WireRefusal::TooLong {
                taken: MAX_STREAM + 1,
            });
        }
        self.read += count;
        Ok(true)
    }

    /// The messages that the piece completes.
    pub fn feed(&mut self) -> Result<Batch, NoMemory>
        requires { IsTail self.old.feeder }
        ensures reads { IfOk result (λ batch.
            ReadsPiece (tail_of self.old.feeder ++ self.old.piece) batch.messages batch.bad self.new.feeder) }
        ensures rest { self.new ≡ record self.old { feeder = self.new.feeder } }
    {
        match self.feeder.feed(self.piece.bytes()) {
            Ok(messages) => Ok(Batch {
                messages,
                bad: None,
            }),
            Err(FeedRefusal::BadCommand { messages, word }) => Ok(Batch {
                messages,
                bad: Some(Bad::Command { word }),
            }),
            Err(FeedRefusal::BadLength { messages, len }) => Ok(Batch {
                messages,
                bad: Some(Bad::Length { len }),
            }),
            Err(FeedRefusal::Over) => unreachable!(),
            Err(FeedRefusal::NoMemory) => Err(NoMemory),
        }
    }

    /// Counts messages that were answered.
    pub fn count_in(&mut self, messages: &[Message])
        requires few { self.old.messages ≤ self.old.whole }
        requires fits { self.old.whole + total_len messages.now ≤ max_stream }
        ensures { self.new ≡ record self.old {
          messages = self.old.messages + length messages.now;
          whole = self.old.whole + total_len messages.now;
        } }
    {
        for message in messages {
            self.messages += 1;
            self.whole += message_len(message);
        }
    }

    /// The result at the end of the stream.
    pub fn end(&self) -> Result<u64, WireRefusal>
        ensures { result ≡ (if self.now.whole == self.now.read then Ok self.now.messages else Err (WireRefusal.Torn self.now.whole)) }
    {
        if self.whole == self.read {
            Ok(self.messages)
        } else {
            Err(WireRefusal::Torn { at: self.whole })
        }
    }
}

/// The bytes of a whole message.
fn message_len(message: &Message) -> u64
    requires { message_len message.now ≤ max_stream }
    ensures { result ≡ message_len message.now }
{
    if message.second {
        SECOND_LEN + message.name.len() as u64 + message.value.len() as u64
    } else {
        FIRST_LEN
    }
}
