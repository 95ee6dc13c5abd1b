//! Runs: the bytes at the front that mean nothing of their own in a mode.

ghost use Rattle.std.specs.Prelude.{◌≡◌, ◌==◌, ◌≤◌, not, length};
ghost use Rattle.std.specs.List.{count_by, position_or_len};
ghost use Rattle.rc_tokens.specs.Grammar.{begins, is_line_feed};
ghost use Rattle.rc_tokens.specs.Grammar as spec;
ghost use Rattle.rc_tokens.specs.internal.Steps.{begins_token, ends_run};

use crate::reader::Mode;

/// The number of bytes before the first one that ends a run in this mode.
pub fn run_len(mode: Mode, bytes: &[u8]) -> usize
    ensures { result ≡ position_or_len (ends_run mode) bytes.now }
{
    match mode {
        Mode::Between => blanks(bytes),
        Mode::Comment => place_of(b'\n', bytes),
        Mode::Word => plain_bytes(bytes),
        Mode::Quoted => place_of(b'"', bytes),
        Mode::Backslash | Mode::BackslashReturn | Mode::Folded => 0,
    }
}

/// Whether a token stands at the front, where none has begun.
pub fn is_token_next(bytes: &[u8]) -> bool
    ensures { result ≡ begins begins_token bytes.now }
{
    match bytes {
        [] => false,
        [byte, ..] => !(is_blank(*byte) || *byte == b'\n' || *byte == b'#'),
    }
}

/// The number of blanks at the front.
pub fn blanks(bytes: &[u8]) -> usize
    ensures { result ≡ position_or_len (λ b. not (spec.is_blank b)) bytes.now }
{
    for (place, byte) in bytes.iter().enumerate() {
        if !is_blank(*byte) {
            return place;
        }
    }
    bytes.len()
}

/// The number of bytes at the front that stand for themselves in a token.
fn plain_bytes(bytes: &[u8]) -> usize
    ensures { result ≡ position_or_len (λ b. not (spec.is_plain b)) bytes.now }
{
    for (place, byte) in bytes.iter().enumerate() {
        if !is_plain(*byte) {
            return place;
        }
    }
    bytes.len()
}

/// The place of the first such byte, or the end.
fn place_of(wanted: u8, bytes: &[u8]) -> usize
    ensures { result ≡ position_or_len (λ b. b == wanted) bytes.now }
{
    for (place, byte) in bytes.iter().enumerate() {
        if *byte == wanted {
            return place;
        }
    }
    bytes.len()
}

/// The number of line feeds.
pub fn line_feeds(bytes: &[u8]) -> usize
    ensures feeds { result ≡ count_by is_line_feed bytes.now }
    ensures bound { result ≤ length bytes.now }
{
    bytes.iter().filter(|byte| **byte == b'\n').count()
}

pub fn is_space(byte: u8) -> bool
    ensures { result ≡ spec.is_space byte }
{
    byte == b' ' || byte == b'\t'
}

pub fn is_blank(byte: u8) -> bool
    ensures { result ≡ spec.is_blank byte }
{
    is_space(byte) || byte == b'\r'
}

/// Whether a byte stands for itself in a token outside quotes. Two tests tell it of most bytes.
#[tactic(auto, using(crate::proofs::Bytes::plain_above, crate::proofs::Bytes::plain_below))]
fn is_plain(byte: u8) -> bool
    ensures { result ≡ spec.is_plain byte }
{
    if byte > b'"' {
        byte != b'\\'
    } else {
        !matches!(byte, b' ' | b'\t' | b'\r' | b'\n' | b'"')
    }
}
