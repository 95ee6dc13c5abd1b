//! The types of values (AOSP, property_contexts).

ghost use Rattle.std.specs.Prelude.{◌≡◌};
ghost use Rattle.init_machine.specs.Typed.{is_typed};
ghost use Rattle.init_machine.specs.Typed as spec;

use init_base::{List, Text};
use init_machine::{TypeKind, decimal};

const MOST_INT_DIGITS: usize = 19;

const MOST_UINT_DIGITS: usize = 20;

/// Past the largest number of 64 bits without a sign.
const PAST_UINT: u128 = 1 << 64;

/// Past the largest number of 64 bits with a sign; its negative is the least one.
const PAST_INT: u128 = 1 << 63;

fn is_uint(text: &[u8]) -> bool
    ensures { result ≡ spec.is_uint text.now }
{
    match decimal(MOST_UINT_DIGITS, text) {
        Some(number) => number < PAST_UINT,
        None => false,
    }
}

fn is_int(text: &[u8]) -> bool
    ensures { result ≡ spec.is_int text.now }
{
    match text {
        [] => false,
        [b'-', digits @ ..] => match decimal(MOST_INT_DIGITS, digits) {
            Some(number) => number <= PAST_INT,
            None => false,
        },
        digits => match decimal(MOST_INT_DIGITS, digits) {
            Some(number) => number < PAST_INT,
            None => false,
        },
    }
}

fn is_bool(text: &[u8]) -> bool
    ensures { result ≡ spec.has_form TypeKind.Bool text.now }
{
    matches!(text, b"0" | b"1" | b"false" | b"true")
}

fn is_one_of(texts: &List<Text>, text: &[u8]) -> bool
    ensures { result ≡ spec.is_one_of texts.now text.now }
{
    texts.items().iter().any(|one| one.is(text))
}

/// Whether a property of this type may have this value. The empty value passes each type. It takes no memory.
#[tactic(auto, unfolding(init_machine::specs::Typed::is_typed))]
pub fn check_type(kind: &TypeKind, value: &[u8]) -> bool
    ensures { result ≡ is_typed kind.now value.now }
{
    if value.is_empty() {
        return true;
    }
    match kind {
        TypeKind::Any => true,
        TypeKind::Bool => is_bool(value),
        TypeKind::Int => is_int(value),
        TypeKind::Uint => is_uint(value),
        TypeKind::Enum(values) => is_one_of(values, value),
    }
}
