//! Fields of a line, each begun by one space. Each function adds at the end of a page.

ghost use Rattle.std.specs.Prelude.{◌≡◌, ◌++◌, ◌∷◌, [], OnOk, map};
ghost use Rattle.std.specs.Fmt.{decimal};
ghost use Rattle.init_trace.specs.Line.{spaced};
ghost use Rattle.init_trace.specs.Quoted.{hex16};
ghost use Rattle.init_trace.specs.Quoted as spec;

use crate::quote::{digits, hex, put, put_byte, quoted};
use init_base::{NoMemory, Text};

/// Adds a word.
pub fn word(page: &mut Vec<u8>, bytes: &[u8]) -> Result<(), NoMemory>
    ensures { OnOk result (page.new.items ≡ page.old.items ++ spaced (bytes.now ∷ [])) }
{
    put_byte(page, b' ')?;
    put(page, bytes)
}

/// Adds a text.
pub fn text(page: &mut Vec<u8>, text: &Text) -> Result<(), NoMemory>
    ensures { OnOk result (page.new.items ≡ page.old.items ++ spaced (spec.quoted text.now ∷ [])) }
{
    put_byte(page, b' ')?;
    quoted(page, text.bytes())
}

/// Adds a number.
pub fn number(page: &mut Vec<u8>, number: u64) -> Result<(), NoMemory>
    ensures { OnOk result (page.new.items ≡ page.old.items ++ spaced (decimal number ∷ [])) }
{
    put_byte(page, b' ')?;
    digits(page, number)
}

/// Adds a serial.
pub fn serial(page: &mut Vec<u8>, number: u64) -> Result<(), NoMemory>
    ensures { OnOk result (page.new.items ≡ page.old.items ++ spaced (hex16 number ∷ [])) }
{
    put_byte(page, b' ')?;
    hex(page, number)
}

/// Adds texts in order.
pub fn texts(page: &mut Vec<u8>, items: &[Text]) -> Result<(), NoMemory>
    ensures { OnOk result (page.new.items ≡ page.old.items ++ spaced (map spec.quoted items.now)) }
{
    for item in items {
        text(page, item)?;
    }
    Ok(())
}

/// Adds a text behind bytes that lead to it.
pub fn led_text(page: &mut Vec<u8>, lead: &[u8], text: &Text) -> Result<(), NoMemory>
    ensures { OnOk result (page.new.items ≡ page.old.items ++ (lead.now ++ spec.quoted text.now)) }
{
    put(page, lead)?;
    quoted(page, text.bytes())
}

/// Adds a word and a text.
pub fn word_text(page: &mut Vec<u8>, name: &[u8], first: &Text) -> Result<(), NoMemory>
    ensures { OnOk result (page.new.items
        ≡ page.old.items ++ spaced (name.now ∷ spec.quoted first.now ∷ [])) }
{
    word(page, name)?;
    text(page, first)
}

/// Adds a word and two texts.
pub fn word_texts(
    page: &mut Vec<u8>,
    name: &[u8],
    first: &Text,
    second: &Text,
) -> Result<(), NoMemory>
    ensures { OnOk result (page.new.items
        ≡ page.old.items ++ spaced (name.now ∷ spec.quoted first.now ∷ spec.quoted second.now ∷ [])) }
{
    word_text(page, name, first)?;
    text(page, second)
}

/// Adds a word and a number.
pub fn word_number(page: &mut Vec<u8>, name: &[u8], first: u64) -> Result<(), NoMemory>
    ensures { OnOk result (page.new.items
        ≡ page.old.items ++ spaced (name.now ∷ decimal first ∷ [])) }
{
    word(page, name)?;
    number(page, first)
}
