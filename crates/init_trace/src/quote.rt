//! The spelling of texts and numbers, as `specs/Quoted.antt` has it. Each function adds at the end of a page.

ghost use Rattle.std.specs.Prelude.{◌≡◌, ◌++◌, ◌∷◌, [], ◌<◌, ◌≤◌, IfOk, OnOk, false, length, drop};
ghost use Rattle.std.specs.Fmt.{decimal, digit_glyph};
ghost use Rattle.std.specs.List.{flat_map, prefix_len};
ghost use Rattle.init_trace.specs.Quoted.{hex16};
ghost use Rattle.init_trace.specs.Quoted as spec;

use init_base::{NoMemory, are_plain, is_plain};
use itoa::Buffer;

/// Adds bytes as they are.
pub fn put(page: &mut Vec<u8>, bytes: &[u8]) -> Result<(), NoMemory>
    ensures { OnOk result (page.new.items ≡ page.old.items ++ bytes.now) }
{
    page.extend_from_slice(bytes)?;
    Ok(())
}

/// Adds one byte.
pub fn put_byte(page: &mut Vec<u8>, byte: u8) -> Result<(), NoMemory>
    ensures { OnOk result (page.new.items ≡ page.old.items ++ byte ∷ []) }
{
    page.push(byte)?;
    Ok(())
}

/// Adds a text in q form.
#[tactic(auto, unfolding(crate::specs::Quoted::quoted))]
pub fn quoted(page: &mut Vec<u8>, bytes: &[u8]) -> Result<(), NoMemory>
    ensures { OnOk result (page.new.items ≡ page.old.items ++ spec.quoted bytes.now) }
{
    match bytes {
        [] => put_byte(page, b'%'),
        _ => quoted_bytes(page, bytes),
    }
}

#[tactic(auto, using(crate::proofs::Runs::plain_whole))]
fn quoted_bytes(page: &mut Vec<u8>, bytes: &[u8]) -> Result<(), NoMemory>
    ensures { OnOk result (page.new.items ≡ page.old.items ++ flat_map spec.quoted_byte bytes.now) }
{
    if are_plain(bytes) {
        put(page, bytes)
    } else {
        quoted_runs(page, bytes)
    }
}

/// Adds bytes of which some aren't plain, run by run.
#[inline(never)]
fn quoted_runs(page: &mut Vec<u8>, bytes: &[u8]) -> Result<(), NoMemory>
    ensures { OnOk result (page.new.items ≡ page.old.items ++ flat_map spec.quoted_byte bytes.now) }
{
    let mut at = 0;
    while at < bytes.len() {
        at += quoted_run(page, &bytes[at..])?;
    }
    Ok(())
}

/// Adds the run of plain bytes at the front, as they are, and then the byte that ends it. Answers how many bytes these are.
#[tactic(auto, using(crate::proofs::Runs::run_left, crate::proofs::Runs::byte_left))]
fn quoted_run(page: &mut Vec<u8>, bytes: &[u8]) -> Result<usize, NoMemory>
    requires { 0 < length bytes.now }
    ensures left { IfOk result (λ count. page.new.items ++ flat_map spec.quoted_byte (drop count bytes.now)
        ≡ page.old.items ++ flat_map spec.quoted_byte bytes.now) }
    ensures some { IfOk result (λ count. 0 < count) }
    ensures within { IfOk result (λ count. count ≤ length bytes.now) }
{
    let run = plain_len(bytes);
    put(page, &bytes[..run])?;
    if run == bytes.len() {
        return Ok(run);
    }
    quoted_byte(page, bytes[run])?;
    Ok(run + 1)
}

/// How many plain bytes stand at the front.
fn plain_len(bytes: &[u8]) -> usize
    ensures count { result ≡ prefix_len spec.is_plain bytes.now }
    ensures within { result ≤ length bytes.now }
{
    bytes.iter().take_while(|byte| is_plain(**byte)).count()
}

fn quoted_byte(page: &mut Vec<u8>, byte: u8) -> Result<(), NoMemory>
    ensures { OnOk result (page.new.items ≡ page.old.items ++ spec.quoted_byte byte) }
{
    if is_plain(byte) {
        put_byte(page, byte)
    } else {
        put_byte(page, b'%')?;
        hex_byte(page, byte, true)
    }
}

/// Adds a byte as two hexadecimal digits.
pub fn hex_byte(page: &mut Vec<u8>, byte: u8, upper: bool) -> Result<(), NoMemory>
    ensures { OnOk result (page.new.items ≡ page.old.items ++ spec.hex_byte upper byte) }
{
    put_byte(page, hex_digit(byte / 16, upper))?;
    put_byte(page, hex_digit(byte % 16, upper))
}

fn hex_digit(digit: u8, upper: bool) -> u8
    requires { digit < 16 }
    ensures { result ≡ digit_glyph upper digit }
{
    if digit < 10 {
        b'0' + digit
    } else if upper {
        b'A' - 10 + digit
    } else {
        b'a' - 10 + digit
    }
}

/// Adds a number as 16 hexadecimal digits.
#[tactic(auto, unfolding(crate::specs::Quoted::hex16))]
pub fn hex(page: &mut Vec<u8>, number: u64) -> Result<(), NoMemory>
    ensures { OnOk result (page.new.items ≡ page.old.items ++ hex16 number) }
{
    hex_bytes(page, &number.to_be_bytes())
}

fn hex_bytes(page: &mut Vec<u8>, bytes: &[u8]) -> Result<(), NoMemory>
    ensures { OnOk result (page.new.items
        ≡ page.old.items ++ flat_map (spec.hex_byte false) bytes.now) }
{
    for byte in bytes {
        hex_byte(page, *byte, false)?;
    }
    Ok(())
}

/// Adds a number in decimal.
#[tactic(auto, using(std::proofs::lemmas::Fmt::decimal_digit))]
pub fn digits(page: &mut Vec<u8>, number: u64) -> Result<(), NoMemory>
    ensures { OnOk result (page.new.items ≡ page.old.items ++ decimal number) }
{
    if number < 10 {
        return put_byte(page, b'0' + number as u8);
    }
    put(page, Buffer::new().format(number).as_bytes())
}
