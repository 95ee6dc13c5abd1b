//! The words of a line.

ghost use Rattle.std.specs.Prelude.{◌≡◌, ◌<◌, ◌==◌, [], ◌∷◌, IfSome, MatchOption, length, position};
ghost use Rattle.persist_file.specs.Causes.{parts_at, three_words};
ghost use Rattle.persist_file.specs.Causes as spec;

use crate::version::Version;

/// The words of a line. Those of version 1 have no type, which counts as `any`.
#[derive(Clone, Copy)]
pub struct Words<'a> {
    pub name: &'a [u8],
    pub kind: &'a [u8],
    pub value: &'a [u8],
}

/// The word that the lines of version 1 lack.
const NO_KIND: &[u8] = b"any";

/// The words of a line. None exactly where it hasn't the version's number of words, with one space between.
pub fn words_in(version: Version, line: &[u8]) -> Option<Words<'_>>
    ensures { MatchOption result (spec.words_in version line.entry.now ≡ None)
        (λ words. spec.words_in version line.entry.now
        ≡ Some (record { name = words.name.now; kind = words.kind.now; value = words.value.now })) }
{
    let (name, rest) = cut(line, b' ')?;
    match version {
        Version::First => words_of(name, NO_KIND, rest),
        Version::Second => {
            let (kind, value) = cut(rest, b' ')?;
            words_of(name, kind, value)
        }
    }
}

/// What stands before the first byte of this value, and what stands behind it.
pub fn cut(bytes: &[u8], at: u8) -> Option<(&[u8], &[u8])>
    ensures parts { MatchOption result (parts_at at bytes.entry.now ≡ bytes.entry.now ∷ [])
        (λ parts. parts_at at bytes.entry.now ≡ parts.0.now ∷ parts_at at parts.1.now) }
    ensures shorter { IfSome result (λ parts. length parts.1.now < length bytes.entry.now) }
{
    let place = place_of(bytes, at)?;
    Some((&bytes[..place], &bytes[place + 1..]))
}

/// The words of a line of three. None exactly where one is empty, or the last has a space.
#[tactic(auto, using(crate::proofs::Cuts::more_words))]
fn words_of<'a>(name: &'a [u8], kind: &'a [u8], value: &'a [u8]) -> Option<Words<'a>>
    ensures { MatchOption result
        (three_words name.entry.now kind.entry.now (parts_at 32 value.entry.now) ≡ None)
        (λ words. three_words name.entry.now kind.entry.now (parts_at 32 value.entry.now)
        ≡ Some (record { name = words.name.now; kind = words.kind.now; value = words.value.now })) }
{
    match cut(value, b' ') {
        Some(_) => None,
        None => filled(name, kind, value),
    }
}

/// Three words. None exactly where one is empty.
fn filled<'a>(name: &'a [u8], kind: &'a [u8], value: &'a [u8]) -> Option<Words<'a>>
    ensures { let words = spec.filled name.entry.now kind.entry.now value.entry.now in
        MatchOption result (words ≡ None)
        (λ found. words ≡ Some (record { name = found.name.now; kind = found.kind.now; value = found.value.now })) }
{
    if name.is_empty() || kind.is_empty() || value.is_empty() {
        None
    } else {
        Some(Words { name, kind, value })
    }
}

fn place_of(bytes: &[u8], at: u8) -> Option<usize>
    ensures { result ≡ position (λ b. b == at) bytes.now }
{
    bytes.iter().position(|byte| *byte == at)
}
