//! How a value is written: in version 1 as lower-case hexadecimal digits, or `-`; in version 2 in q form.

ghost use Rattle.std.specs.Prelude.{◌≡◌, ◌++◌, ◌∷◌, [], ◌<◌, IfOk, IsErr, MatchOption, OnOk, Ok, true};
ghost use Rattle.std.specs.Fmt.{digit_glyph};
ghost use Rattle.std.specs.List.{flat_map};
ghost use Rattle.std.specs.Str.{bytes_eq};
ghost use Rattle.hex.specs.Hex.{decode_of};
ghost use Rattle.init_base.specs.Quoted.{quoted, quoted_byte};
ghost use Rattle.init_base.specs.Quoted as quoted_spec;
ghost use Rattle.persist_file.specs.Causes as causes_spec;
ghost use Rattle.persist_file.specs.Store.{hex_text};

use crate::version::Version;
use hex::FromHexError;
use init_base::{NoMemory, Text, unquoted};
use std::alloc::Global;

/// The empty value in version 1.
const EMPTY: &[u8] = b"-";

/// The value of a word. None exactly where its form isn't the version's.
pub fn value_in(alloc: Global, version: Version, word: &[u8]) -> Result<Option<Text>, NoMemory>
    ensures { IfOk result (λ value. value ≡ causes_spec.value_in version word.now) }
{
    match version {
        Version::First => hex_value(alloc, word),
        Version::Second => unquoted(alloc, word),
    }
}

/// The value that hexadecimal digits spell, where these are how it is written.
fn hex_value(alloc: Global, word: &[u8]) -> Result<Option<Text>, NoMemory>
    ensures { IfOk result (λ value. value ≡ causes_spec.hex_value word.now) }
{
    if word == EMPTY {
        return Ok(Some(Text::empty()));
    }
    let Some(value) = decode(alloc, word)? else {
        return Ok(None);
    };
    if is_hex_of(alloc, word, &value)? {
        Ok(Some(Text::of(alloc, &value)?))
    } else {
        Ok(None)
    }
}

/// The bytes of hexadecimal digits of either case. None exactly where there are others, or an odd number of them.
fn decode(alloc: Global, text: &[u8]) -> Result<Option<Vec<u8>>, NoMemory>
    ensures { IfOk result (λ value. MatchOption value (IsErr (decode_of text.now)) (λ v. decode_of text.now ≡ Ok v.items)) }
{
    match hex::decode(alloc, text) {
        Ok(value) => Ok(Some(value)),
        Err(FromHexError::OutOfMemory) => Err(NoMemory),
        Err(_) => Ok(None),
    }
}

/// Whether this is how a value is written in version 1: upper-case digits aren't.
fn is_hex_of(alloc: Global, word: &[u8], value: &[u8]) -> Result<bool, NoMemory>
    ensures { IfOk result (λ is. is ≡ bytes_eq (hex_text value.now) word.now) }
{
    if value.is_empty() {
        return Ok(word == EMPTY);
    }
    Ok(hex::encode(alloc, value)?.as_bytes() == word)
}

/// Adds a value in q form to a page.
#[tactic(auto, unfolding(init_base::specs::Quoted::quoted))]
pub fn put_quoted(page: &mut Vec<u8>, value: &[u8]) -> Result<(), NoMemory>
    ensures { OnOk result (page.new.items ≡ page.old.items ++ quoted value.now) }
{
    match value {
        [] => put_byte(page, b'%'),
        _ => put_quoted_bytes(page, value),
    }
}

fn put_quoted_bytes(page: &mut Vec<u8>, bytes: &[u8]) -> Result<(), NoMemory>
    ensures { OnOk result (page.new.items ≡ page.old.items ++ flat_map quoted_byte bytes.now) }
{
    for byte in bytes {
        put_quoted_byte(page, *byte)?;
    }
    Ok(())
}

fn put_quoted_byte(page: &mut Vec<u8>, byte: u8) -> Result<(), NoMemory>
    ensures { OnOk result (page.new.items ≡ page.old.items ++ quoted_byte byte) }
{
    if is_plain(byte) {
        put_byte(page, byte)
    } else {
        put_byte(page, b'%')?;
        put_byte(page, hex_digit(byte / 16))?;
        put_byte(page, hex_digit(byte % 16))
    }
}

/// Whether a byte stands for itself in q form.
fn is_plain(byte: u8) -> bool
    ensures { result ≡ quoted_spec.is_plain byte }
{
    byte >= 0x21 && byte <= 0x7e && byte != b'%'
}

fn hex_digit(digit: u8) -> u8
    requires { digit < 16 }
    ensures { result ≡ digit_glyph true digit }
{
    if digit < 10 {
        b'0' + digit
    } else {
        b'A' - 10 + digit
    }
}

/// Adds one byte.
fn put_byte(page: &mut Vec<u8>, byte: u8) -> Result<(), NoMemory>
    ensures { OnOk result (page.new.items ≡ page.old.items ++ byte ∷ []) }
{
    page.push(byte)?;
    Ok(())
}
