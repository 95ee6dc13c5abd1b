//! The desks at which the messages of clients are set.

ghost use Rattle.std.specs.Prelude.{◌≡◌, IfOk, OnErr, false, is_ok};
ghost use Rattle.property_service.specs.Back.{has_entry, line_of};
ghost use Rattle.prop_wire.specs.Reply.{output_reply};

use crate::reply::{LastReply, Reply, refusal_reply};
use init_base::NoMemory;
use init_machine::{Input, SetRefusal};
use property_area::Reader;
use property_service::{Accepted, AreaName, Desk, Service};
use wire_format::Message;

/// A property service that sets the messages of clients.
pub trait WireDesk {
    ghost use Rattle.atomic_table.specs.Seated.{TableId};
    ghost use Rattle.property_service.specs.Service.{DeclaredIn, ServiceView};
    ghost use Rattle.prop_wire.specs.Desk.{SetsMessage};

    // its opening and its history, and whether an earlier call ran out of memory
    ghost view: { Self → ServiceView };

    // the area that it serves
    ghost area: { TableId };

    /// Whether an earlier call ran out of memory.
    fn is_spent(&self) -> bool
        ensures { result ≡ (view self.now).spent };

    /// Sets a message for the reader's client. Returns the reply, whatever the message's form.
    fn set_message(
        &mut self,
        reader: Reader,
        message: &Message,
    ) -> (Option<Reader>, Result<Option<Reply>, NoMemory>)
        requires ready { (view self.old).spent ≡ false }
        requires table { reader.table ≡ area }
        requires client { DeclaredIn reader.view.opening reader.view.who }
        ensures set { IfOk result.1 (λ reply. SetsMessage (view self.old) (view self.new) reader result.0 message.now reply) }
        ensures err { OnErr result.1 ((view self.new).spent ≡ false → view self.new ≡ view self.old) };
}

/// It keeps an entry for each message.
impl<'a, N: AreaName> WireDesk for Service<'a, N> {
    ghost view = { λ s. s };

    ghost area = { N.area };

    fn is_spent(&self) -> bool {
        self.is_spent()
    }

    fn set_message(
        &mut self,
        reader: Reader,
        message: &Message,
    ) -> (Option<Reader>, Result<Option<Reply>, NoMemory>) {
        let (back, answer) = self.set(reader, message.name.bytes(), message.value.bytes());
        (back, reply_to(&answer))
    }
}

/// The reply to a set with this answer. `NoMemory` if the machine didn't judge the set.
fn reply_to(answer: &Result<Accepted, SetRefusal>) -> Result<Option<Reply>, NoMemory>
    ensures reply { IfOk result (λ reply. reply ≡ output_reply (line_of answer.now)) }
    ensures judged { is_ok result ≡ has_entry answer.now }
{
    match answer {
        Ok(_) => Ok(Some(Reply::Success)),
        Err(refusal) => match refusal_reply(refusal) {
            Some(reply) => Ok(Some(reply)),
            None => Err(NoMemory),
        },
    }
}

/// It keeps no entries, so its memory doesn't grow with the messages.
impl<'a, N: AreaName> WireDesk for Desk<'a, N, LastReply> {
    ghost view = { λ d. d };

    ghost area = { N.area };

    fn is_spent(&self) -> bool {
        self.is_spent()
    }

    fn set_message(
        &mut self,
        reader: Reader,
        message: &Message,
    ) -> (Option<Reader>, Result<Option<Reply>, NoMemory>) {
        let (Ok(name), Ok(value)) = (message.name.share(), message.value.share()) else {
            return (Some(reader), Err(NoMemory));
        };
        let input = Input::Set {
            who: reader.who(),
            name,
            value,
        };
        let mut last = LastReply::new();
        let (back, taken) = self.take(reader, &input, &mut last);
        match taken {
            Ok(()) => (back, Ok(last.reply())),
            Err(_) => (back, Err(NoMemory)),
        }
    }
}
