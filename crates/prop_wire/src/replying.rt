//! Writes the words of replies.

ghost use Rattle.std.specs.Prelude.{◌≡◌};
ghost use Rattle.init_base.specs.Faults.{Counted, write_failed};
ghost use Rattle.init_trace.specs.Written.{Writes};
ghost use Rattle.prop_wire.specs.Refusals.{is_write_fault};
ghost use Rattle.prop_wire.specs.Reply.{reply_bytes};
ghost use Rattle.prop_wire.specs.internal.Streams.{Refuses};

use crate::refusal::WireRefusal;
use crate::reply::Reply;
use crate::stream::Bad;
use init_base::{IoRefusal, Sink};
use init_trace::send;
use std::alloc::Global;

/// Writes the word of a reply, if there is one.
pub(crate) fn write_reply<K: Sink>(
    alloc: Global,
    reply: Option<Reply>,
    to: &mut K,
) -> Result<(), IoRefusal>
    ensures written { Writes (K.taken to.old) (K.taken to.new) result (reply_bytes reply) }
    ensures cause { Counted (write_failed result) (K.fault_count to.old) (K.fault_count to.new) }
{
    match reply {
        Some(reply) => send(alloc, to, &reply.word().to_le_bytes()),
        None => Ok(()),
    }
}

/// Writes the reply to something bad, which ends the stream.
pub(crate) fn refuse<K: Sink>(
    alloc: Global,
    bad: Option<Bad>,
    at: u64,
    to: &mut K,
) -> Result<(), WireRefusal>
    ensures refuses { Refuses bad at (K.taken to.old) (K.taken to.new) result }
    ensures cause { Counted (is_write_fault result) (K.fault_count to.old) (K.fault_count to.new) }
{
    match bad {
        None => Ok(()),
        Some(bad) => {
            write_reply(alloc, Some(bad.reply()), to)?;
            Err(bad.refusal(at))
        }
    }
}
