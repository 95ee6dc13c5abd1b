//! Reading words in q form, which is `quoted` of `specs/Quoted.antt`.

ghost use Rattle.std.specs.Prelude.{◌≡◌, ◌≢◌, ◌^◌, ◌<◌, ◌/◌, ◌%◌, ◌++◌, ℕ, true, false, IsTrue, IfOk, MatchOption, Some, List as Items};
ghost use Rattle.std.specs.Fmt.{digit_glyph};
ghost use Rattle.std.specs.List.{flat_map, list_all};
ghost use Rattle.init_base.specs.Quoted.{is_byte, quoted, quoted_byte};
ghost use Rattle.init_base.specs.Quoted as spec;

use crate::byte_test::{ByteTest, all_hold};
use crate::memory::NoMemory;
use crate::text::Text;
use std::alloc::Global;

/// The text whose q form a word is. None exactly where the word is no q form.
#[tactic(auto, using(crate::proofs::QForms::empty_word, crate::proofs::QForms::lone_sign, crate::proofs::QForms::read_plain))]
pub fn unquoted(alloc: Global, word: &[u8]) -> Result<Option<Text>, NoMemory>
    ensures { IfOk result (λ text. text ≡ spec.unquoted word.now) }
{
    if word.is_empty() {
        return Ok(None);
    }
    if word == b"%".as_slice() {
        return Ok(Some(Text::empty()));
    }
    if are_plain(word) {
        return Ok(Some(Text::of(alloc, word)?));
    }
    spelled(alloc, word)
}

/// A text has one q form, and a word is the q form of at most one text.
pub fn one_q_form()
    ensures read { (text : Items ℕ) → IsTrue (list_all is_byte text) → spec.unquoted (quoted text) ≡ Some text }
    ensures written { (word text : Items ℕ) → spec.unquoted word ≡ Some text → word ≡ quoted text }
    ensures text { (word text : Items ℕ) → spec.unquoted word ≡ Some text → IsTrue (list_all is_byte text) }
{}

/// The bytes that stand for themselves.
struct Plain;

impl ByteTest for Plain {
    ghost holds = { spec.is_plain };

    fn holds_of(byte: u8) -> bool {
        is_plain(byte)
    }
}

/// Whether all bytes stand for themselves in q form.
pub fn are_plain(bytes: &[u8]) -> bool
    ensures { result ≡ list_all spec.is_plain bytes.now }
{
    all_hold::<Plain>(bytes)
}

/// Whether a byte stands for itself in q form.
pub fn is_plain(byte: u8) -> bool
    ensures { result ≡ spec.is_plain byte }
{
    byte >= 0x21 && byte <= 0x7e && byte != b'%'
}

/// The text that a word spells byte by byte. None where at some place no byte is spelled.
fn spelled(alloc: Global, word: &[u8]) -> Result<Option<Text>, NoMemory>
    ensures { IfOk result (λ found. MatchOption found
        ((text : Items ℕ) → IsTrue (list_all is_byte text) → word.now ≢ flat_map quoted_byte text)
        (λ text. IsTrue (list_all is_byte text) × (word.now ≡ flat_map quoted_byte text))) }
{
    let mut bytes = Vec::with_capacity(alloc, word.len())?;
    let mut rest = word;
    while !rest.is_empty() {
        let Some((byte, behind)) = first_byte(rest) else {
            return Ok(None);
        };
        bytes.push(byte)?;
        rest = behind;
    }
    Ok(Some(Text::of(alloc, &bytes)?))
}

/// The byte that is spelled in front, and what stands behind its spelling.
fn first_byte(word: &[u8]) -> Option<(u8, &[u8])>
    ensures { MatchOption result
        ((byte : ℕ) (rest : Items ℕ) → byte < 256 → word.now ≢ quoted_byte byte ++ rest)
        (λ r. (r.0 < 256) × (word.now ≡ quoted_byte r.0 ++ r.1.now)) }
{
    let (first, rest) = word.split_first()?;
    if is_plain(*first) {
        return Some((*first, rest));
    }
    if *first != b'%' {
        return None;
    }
    let (high, rest) = rest.split_first()?;
    let (low, rest) = rest.split_first()?;
    Some((spelled_byte(*high, *low)?, rest))
}

/// The byte with these two digits, if it must be spelled.
fn spelled_byte(high: u8, low: u8) -> Option<u8>
    ensures { MatchOption result
        ((byte : ℕ) → byte < 256 → spec.is_plain byte ≡ false → digit_glyph true (byte / 16) ≡ high
        → digit_glyph true (byte % 16) ≢ low)
        (λ byte. (byte < 256) × (spec.is_plain byte ≡ false) × (digit_glyph true (byte / 16) ≡ high)
        × (digit_glyph true (byte % 16) ≡ low)) }
{
    let byte = 16 * digit_value(high)? + digit_value(low)?;
    if is_plain(byte) { None } else { Some(byte) }
}

/// The value of an upper-case hexadecimal digit.
fn digit_value(digit: u8) -> Option<u8>
    ensures { MatchOption result
        ((value : ℕ) → value < 16 → digit_glyph true value ≢ digit)
        (λ value. (value < 16) × (digit_glyph true value ≡ digit)) }
{
    match digit {
        b'0'..=b'9' => Some(digit - b'0'),
        b'A'..=b'F' => Some(digit - b'A' + 10),
        _ => None,
    }
}
