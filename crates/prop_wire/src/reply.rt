//! The replies to messages.

ghost use Rattle.std.specs.Prelude.{◌≡◌, None};
ghost use Rattle.prop_wire.specs.Reply as spec;

use init_base::{NoMemory, Text};
use init_machine::{Output, SetRefusal};
use outputs::Outputs;
use std::marker::Model;

/// A reply, by the words of bionic's protocol.
#[derive(Clone, Copy, Debug, PartialEq, Eq)]
pub enum Reply {
    /// The property is set, or the operation that a control name asks for is done.
    Success,
    /// The length of a text is too large.
    ReadData,
    ReadOnlyProperty,
    InvalidName,
    /// The value isn't of the property's type, too long, or not UTF-8.
    InvalidValue,
    /// The policy doesn't allow the client's domain to set it.
    PermissionDenied,
    /// No form has this command.
    InvalidCommand,
    /// The control name asks for no operation, or its value names no service.
    HandleControlMessage,
    /// The machine is over, or has no room or no number left.
    SetFailed,
}

impl Reply {
    ghost use Rattle.prop_wire.specs.Reply.{word_of};

    /// Its word.
    pub fn word(self) -> u32
        ensures { result ≡ word_of self }
    {
        match self {
            Reply::Success => 0x00,
            Reply::ReadData => 0x08,
            Reply::ReadOnlyProperty => 0x0b,
            Reply::InvalidName => 0x10,
            Reply::InvalidValue => 0x14,
            Reply::PermissionDenied => 0x18,
            Reply::InvalidCommand => 0x1b,
            Reply::HandleControlMessage => 0x20,
            Reply::SetFailed => 0x24,
        }
    }
}

/// The reply to a set that is refused. None if the machine didn't judge it.
pub(crate) fn refusal_reply(refusal: &SetRefusal) -> Option<Reply>
    ensures { result ≡ spec.refusal_reply refusal.now }
{
    match refusal {
        SetRefusal::ReadOnly { .. } => Some(Reply::ReadOnlyProperty),
        SetRefusal::InvalidName => Some(Reply::InvalidName),
        SetRefusal::InvalidType | SetRefusal::ValueTooLong { .. } | SetRefusal::NotUtf8 => {
            Some(Reply::InvalidValue)
        }
        SetRefusal::Denied { .. } => Some(Reply::PermissionDenied),
        SetRefusal::UnknownControl | SetRefusal::NoSuchService => Some(Reply::HandleControlMessage),
        SetRefusal::Down { .. } | SetRefusal::AreaFull { .. } | SetRefusal::NumberSpent { .. } => {
            Some(Reply::SetFailed)
        }
        SetRefusal::Spent | SetRefusal::NoMemory => None,
    }
}

/// The reply that an output stands for. None if it answers no set.
fn output_reply(output: &Output) -> Option<Reply>
    ensures { result ≡ spec.output_reply output.now }
{
    match output {
        Output::Accepted { .. } | Output::Control { .. } => Some(Reply::Success),
        Output::Refused { refusal } => refusal_reply(refusal),
        _ => None,
    }
}

/// Keeps the reply of the last output, and no outputs.
#[derive(Debug, Drop)]
pub struct LastReply {
    reply: Option<Reply>,
}

impl Model for LastReply {
    ghost use Rattle.std.specs.Prelude.{Option};
    ghost use Rattle.prop_wire.specs.declared.reply.Reply.{Reply};

    ghost Value = { Option Reply };

    ghost view = { λ l. l.reply };
}

impl LastReply {
    /// Keeps no reply yet.
    pub fn new() -> LastReply
        ensures { result ≡ None }
    {
        LastReply { reply: None }
    }

    /// The reply that is kept.
    pub fn reply(&self) -> Option<Reply>
        ensures { result ≡ self.now }
    {
        self.reply
    }
}

impl Outputs for LastReply {
    ghost use Rattle.prop_wire.specs.impl_laws.Last.{KeepsLast, last_joins};

    ghost Adds = { KeepsLast };

    ghost joins = { last_joins };

    fn push(&mut self, output: Output) -> Result<(), NoMemory> {
        self.reply = output_reply(&output);
        Ok(())
    }

    fn put(&mut self, _number: u64, _name: &Text, _value: &Text) -> Result<(), NoMemory> {
        self.reply = None;
        Ok(())
    }

    fn stored(&mut self, _name: &Text) -> Result<(), NoMemory> {
        self.reply = None;
        Ok(())
    }
}
