//! What a `$` in a text begins (`behind_dollar` of `init_machine`'s `specs/Expand.antt`).

ghost use Rattle.std.specs.Prelude.{◌≡◌, ◌+◌, ◌<◌, ◌≤◌, ◌==◌, length, position, IfSome};
ghost use Rattle.init_machine.specs.Expand as spec;
ghost use Rattle.prop_rules.specs.Pieces.{meant};

use init_base::PropName;

/// What a `$` begins.
#[derive(Clone, Copy)]
pub enum Dollar<'a> {
    /// A `$` that stands for itself.
    Sign,
    ValueOf(PropName<'a>),
    /// The value of a property, or another text where it has none.
    ValueOr(PropName<'a>, &'a [u8]),
    /// Nothing.
    Bad,
}

/// What stands before the text that is taken where a property has no value.
const ON_DEFAULT: &[u8] = b":-";

/// The place of the first `:-`, or the length where there is none.
fn default_place(inside: &[u8]) -> usize
    ensures place { result ≡ spec.default_place inside.now }
    ensures within { result ≤ length inside.now }
    ensures fits { result < length inside.now → result + 2 ≤ length inside.now }
{
    for place in 0..inside.len() {
        if inside[place..].starts_with(ON_DEFAULT) {
            return place;
        }
    }
    inside.len()
}

/// What stands between the braces.
fn braced(inside: &[u8]) -> Dollar<'_>
    ensures { meant result ≡ spec.braced inside.entry.now }
{
    let place = default_place(inside);
    let Some(name) = PropName::of(&inside[..place]) else {
        return Dollar::Bad;
    };
    if place < inside.len() {
        Dollar::ValueOr(name, &inside[place + ON_DEFAULT.len()..])
    } else {
        Dollar::ValueOf(name)
    }
}

/// The place of the first `}`.
fn close_of(text: &[u8]) -> Option<usize>
    ensures place { result ≡ position (λ b. b == 125) text.now }
    ensures within { IfSome result (λ end. end < length text.now) }
{
    text.iter().position(|byte| *byte == b'}')
}

/// What `${` begins, where the text stands behind it, and how many bytes it is written with.
fn behind_brace(text: &[u8]) -> (Dollar<'_>, usize)
    ensures piece { meant result.0 ≡ (spec.behind_brace text.entry.now).piece }
    ensures written { result.1 ≡ (spec.behind_brace text.entry.now).length }
    ensures some { 1 ≤ result.1 }
    ensures within { result.1 ≤ length text.entry.now + 2 }
{
    match close_of(text) {
        Some(end) => (braced(&text[..end]), end + 3),
        None => (Dollar::Bad, 1),
    }
}

/// What a `$` begins, where the text stands behind it, and how many bytes it is written with.
pub fn behind_dollar(text: &[u8]) -> (Dollar<'_>, usize)
    ensures piece { meant result.0 ≡ (spec.behind_dollar text.entry.now).piece }
    ensures written { result.1 ≡ (spec.behind_dollar text.entry.now).length }
    ensures some { 1 ≤ result.1 }
    ensures within { result.1 ≤ length text.entry.now + 1 }
{
    match text {
        [b'$', ..] => (Dollar::Sign, 2),
        [b'{', rest @ ..] => behind_brace(rest),
        _ => (Dollar::Bad, 1),
    }
}
