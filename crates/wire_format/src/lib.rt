//! The messages that clients of init's property socket send: their spelling, and reading them from a stream that comes in any pieces.
//! The form is in `specs/Format.antt`, which bytes spell a message in `specs/Spelling.antt`, what a stream is in `specs/Wire.antt`, and
//! what a feeder makes of pieces in `specs/Feeding.antt`.
#![tactic(auto)]

mod encoding;
mod feeder;
mod field;
mod laws;
mod message;
mod pieces;
mod reading;
mod refusal;
mod shape;
mod word;

pub use encoding::encode;
pub use feeder::Feeder;
pub use laws::{
    each_stream_has_one_reading, lengths_give_places, messages_are_spelled, pieces_join,
    spellings_are_read,
};
pub use message::{Message, Rest};
pub use refusal::FeedRefusal;
