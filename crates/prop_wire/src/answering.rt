//! Sets messages one after another. The reply to each is written before the next is set.

ghost use Rattle.std.specs.Prelude.{◌≡◌, ◌∷◌, [], None, false, IfOk, OnErr, is_ok, if◌then◌else◌};
ghost use Rattle.init_base.specs.Faults.{Counted, write_failed};
ghost use Rattle.wire_format.specs.declared.message.Rest.TheVariants as rest;
ghost use Rattle.prop_wire.specs.Serving.{Answers, place_of};
ghost use Rattle.prop_wire.specs.internal.Course.{CanAsk, Remains, SetsFor, who_in};

use crate::desk::WireDesk;
use crate::reply::Reply;
use crate::replying::write_reply;
use init_base::{IoRefusal, NoMemory, Sink};
use property_area::Reader;
use std::alloc::Global;
use wire_format::Message;

/// Sets messages, and writes the reply to each before it sets the next.
pub(crate) fn answer_all<D: WireDesk, K: Sink>(
    alloc: Global,
    desk: &mut D,
    reader: &mut Option<Reader>,
    messages: &[Message],
    to: &mut K,
) -> Result<(), IoRefusal>
    requires ready { (D.view desk.old).spent ≡ false }
    requires reader { CanAsk D.area reader.old }
    ensures answers { Answers (is_ok result) (who_in reader.old) messages.now rest.End
        (place_of (D.view desk.old) (K.taken to.old)) (place_of (D.view desk.new) (K.taken to.new)) }
    ensures remains { Remains result reader.old reader.new (D.view desk.new).spent }
    ensures cause { Counted (write_failed result) (K.fault_count to.old) (K.fault_count to.new) }
{
    for message in messages {
        answer(alloc, desk, reader, message, to)?;
    }
    Ok(())
}

/// Sets a message, and writes its reply.
fn answer<D: WireDesk, K: Sink>(
    alloc: Global,
    desk: &mut D,
    reader: &mut Option<Reader>,
    message: &Message,
    to: &mut K,
) -> Result<(), IoRefusal>
    requires ready { (D.view desk.old).spent ≡ false }
    requires reader { CanAsk D.area reader.old }
    ensures answers { Answers (is_ok result) (who_in reader.old) (message.now ∷ []) rest.End
        (place_of (D.view desk.old) (K.taken to.old)) (place_of (D.view desk.new) (K.taken to.new)) }
    ensures remains { Remains result reader.old reader.new (D.view desk.new).spent }
    ensures cause { Counted (write_failed result) (K.fault_count to.old) (K.fault_count to.new) }
{
    let reply = set(desk, reader, message)?;
    write_reply(alloc, in_form(message, reply), to)
}

/// The reply in a message's form: form one has none.
fn in_form(message: &Message, reply: Option<Reply>) -> Option<Reply>
    ensures { result ≡ (if message.now.second then reply else None) }
{
    if message.second { reply } else { None }
}

/// Sets a message. Returns the reply, whatever the message's form.
fn set<D: WireDesk>(
    desk: &mut D,
    reader: &mut Option<Reader>,
    message: &Message,
) -> Result<Option<Reply>, NoMemory>
    requires ready { (D.view desk.old).spent ≡ false }
    requires reader { CanAsk D.area reader.old }
    ensures set { IfOk result (λ reply. SetsFor (D.view desk.old) (D.view desk.new) reader.old reader.new message.now reply) }
    ensures err { OnErr result ((D.view desk.new).spent ≡ false → D.view desk.new ≡ D.view desk.old) }
{
    let Some(lent) = reader.take() else {
        unreachable!()
    };
    let (back, reply) = desk.set_message(lent, message);
    *reader = back;
    reply
}
