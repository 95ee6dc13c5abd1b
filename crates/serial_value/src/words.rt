//! Bytes in words. The layout is `specs/Words.antt`.

ghost use Rattle.std.specs.Prelude.{◌≡◌, ◌<◌, ◌≤◌, ◌+◌, ◌*◌, ◌⊎◌, ℕ, List, length, slice_index};
ghost use Rattle.std.specs.Int.{w64, to_le_bytes};
ghost use Rattle.serial_value.specs.Words.{text_word, body_size, body_word as body_word_of, IsShortValue, HasBody, HasBytes};

use crate::layout::SHORT;

/// Word `k` of a text, as a value or a part of a name.
pub fn word_of(text: &[u8], k: usize) -> u64
    requires k { k < 1024 }
    requires short { length text.now ≤ 8191 }
    ensures { result ≡ text_word text.now k }
{
    let start = 8 * k;
    if start + 8 <= text.len() {
        whole_word(text, k)
    } else if start < text.len() {
        cut_word(text, k)
    } else {
        0
    }
}

/// Word `k`, whose eight bytes are all inside: a load of them at once.
fn whole_word(text: &[u8], k: usize) -> u64
    requires k { k < 1024 }
    requires inside { 8 * k + 8 ≤ length text.now }
    ensures { result ≡ text_word text.now k }
{
    let start = 8 * k;
    u64::from_le_bytes([
        text[start],
        text[start + 1],
        text[start + 2],
        text[start + 3],
        text[start + 4],
        text[start + 5],
        text[start + 6],
        text[start + 7],
    ])
}

/// Word `k`, of which a byte past the end is 0.
fn cut_word(text: &[u8], k: usize) -> u64
    requires k { k < 1024 }
    requires short { length text.now ≤ 8191 }
    ensures { result ≡ text_word text.now k }
{
    let start = 8 * k;
    let mut bytes = [0u8; 8];
    for j in 0..8 {
        if start + j < text.len() {
            bytes[j] = text[start + j];
        }
    }
    u64::from_le_bytes(bytes)
}

/// Word `k` of the body of a value's cell, which begins with the length where the cell is long.
#[tactic(auto, using(crate::specs::impl_laws::Bodies::body_words))]
pub fn body_word(value: &[u8], k: usize) -> u64
    requires inside { k < body_size value.now }
    requires within { length value.now ≤ 8191 }
    ensures { result ≡ body_word_of value.now k }
{
    if value.len() <= SHORT {
        return word_of(value, k);
    }
    if k == 0 {
        return value.len() as u64;
    }
    word_of(value, k - 1)
}

/// Writes the bytes of the words of a short cell. A byte past the value's end is 0.
pub(crate) fn unpack(words: &[u64; 12], out: &mut [u8])
    requires wide { 91 ≤ length out.old }
    ensures { (value : List ℕ) → IsShortValue value → HasBody words.now value → HasBytes out.new 91 value }
{
    for k in 0..11 {
        put_word(out, k, words[k]);
    }
    put_cut_word(out, 11, 3, words[11]);
}

/// Writes the eight bytes of word `k`.
pub(crate) fn put_word(out: &mut [u8], k: usize, word: u64)
    requires inside { (k < 1024) × (8 * k + 8 ≤ length out.old) }
    ensures bytes { (j : ℕ) → j < 8 → slice_index out.new (8 * k + j) ≡ slice_index (to_le_bytes w64 word) j }
    ensures others { (i : ℕ) → (i < 8 * k) ⊎ (8 * k + 8 ≤ i) → slice_index out.new i ≡ slice_index out.old i }
{
    let bytes = word.to_le_bytes();
    let start = 8 * k;
    for j in 0..8 {
        out[start + j] = bytes[j];
    }
}

/// Writes the first `count` bytes of word `k`.
pub(crate) fn put_cut_word(out: &mut [u8], k: usize, count: usize, word: u64)
    requires inside { (k < 1024) × (count ≤ 8) × (8 * k + count ≤ length out.old) }
    ensures bytes { (j : ℕ) → j < count → slice_index out.new (8 * k + j) ≡ slice_index (to_le_bytes w64 word) j }
    ensures others { (i : ℕ) → i < 8 * k → slice_index out.new i ≡ slice_index out.old i }
{
    let bytes = word.to_le_bytes();
    let start = 8 * k;
    for j in 0..count {
        out[start + j] = bytes[j];
    }
}
