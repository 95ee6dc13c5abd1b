//! The bytes of a message.

ghost use Rattle.std.specs.Prelude.{◌≡◌, ◌<◌, ◌≤◌, ◌++◌, length, IfOk, OnOk, IsTrue};
ghost use Rattle.wire_format.specs.Format.{encoded, fits_form, message_bytes, word_bytes};

use crate::field::{fits_field, put_field};
use crate::message::Message;
use crate::shape::{MAX_NAME, MAX_VALUE};
use crate::word::{FIRST, SECOND};
use init_base::{NoMemory, Text};
use std::alloc::Global;

/// The bytes of a field of form one that holds a name.
const NAME_FIELD: usize = 32;

/// The bytes of a field of form one that holds a value.
const VALUE_FIELD: usize = 92;

/// The bytes of a message, in form one with its fields filled up with zeros. None exactly if the texts don't fit the form.
pub fn encode(alloc: Global, message: &Message) -> Result<Option<Text>, NoMemory>
    ensures { IfOk result (λ answer. answer ≡ encoded message.now) }
{
    if !fits_form(message) {
        return Ok(None);
    }
    let mut bytes = Vec::new(alloc);
    put_message(&mut bytes, message)?;
    Ok(Some(Text::from_vec(bytes)?))
}

/// Whether the texts of a message fit its form.
fn fits_form(message: &Message) -> bool
    ensures { result ≡ fits_form message.now }
{
    let name = message.name.bytes();
    let value = message.value.bytes();
    if message.second {
        name.len() <= MAX_NAME as usize && value.len() <= MAX_VALUE as usize
    } else {
        fits_field(name, NAME_FIELD) && fits_field(value, VALUE_FIELD)
    }
}

/// Adds the bytes of a message.
fn put_message(bytes: &mut Vec<u8>, message: &Message) -> Result<(), NoMemory>
    requires { IsTrue (fits_form message.now) }
    ensures { OnOk result (bytes.new.items ≡ bytes.old.items ++ message_bytes message.now) }
{
    let name = message.name.bytes();
    let value = message.value.bytes();
    if message.second {
        put_word(bytes, SECOND)?;
        put_text(bytes, name)?;
        put_text(bytes, value)
    } else {
        put_word(bytes, FIRST)?;
        put_field(bytes, name, NAME_FIELD)?;
        put_field(bytes, value, VALUE_FIELD)
    }
}

/// Adds a text behind its length.
fn put_text(bytes: &mut Vec<u8>, text: &[u8]) -> Result<(), NoMemory>
    requires { length text.now < 4294967296 }
    ensures { OnOk result (bytes.new.items ≡ bytes.old.items ++ (word_bytes (length text.now) ++ text.now)) }
{
    put_word(bytes, text.len() as u32)?;
    bytes.extend_from_slice(text)?;
    Ok(())
}

/// Adds a word, lowest byte first.
fn put_word(bytes: &mut Vec<u8>, number: u32) -> Result<(), NoMemory>
    ensures { OnOk result (bytes.new.items ≡ bytes.old.items ++ word_bytes number) }
{
    bytes.extend_from_slice(&number.to_le_bytes())?;
    Ok(())
}
