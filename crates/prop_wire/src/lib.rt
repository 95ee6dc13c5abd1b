//! Serves the messages that clients send to init's property socket. Each message is a set by the client, and its reply is written
//! before more is read. `specs/Reply.antt` and `specs/Replies.antt` define the replies, `specs/Serving.antt` what a call of `serve`
//! leaves.
#![tactic(auto)]

mod answering;
mod desk;
mod piece;
mod refusal;
mod reply;
mod replying;
mod serving;
mod stream;

pub use desk::WireDesk;
pub use refusal::WireRefusal;
pub use reply::{LastReply, Reply};
pub use serving::serve;
pub use stream::MAX_STREAM;
