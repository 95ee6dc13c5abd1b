//! The types of saved values.

ghost use Rattle.std.specs.Prelude.{◌≡◌};
ghost use Rattle.persist_file.specs.Causes as causes_spec;
ghost use Rattle.persist_file.specs.Store.{saved_kind};
ghost use Rattle.persist_file.specs.Store as store_spec;

use init_machine::TypeKind;
use prop_rules::check_type;

/// The type of a saved value, as the store spells it.
#[derive(Clone, Copy)]
pub enum SavedKind {
    /// Checks nothing: `string`, `double` and `size` too.
    Any,
    Bool,
    Int,
    Uint,
    /// Checks nothing, since the store doesn't have its values.
    Enum,
}

const ANY: &[u8] = b"any";

const BOOL: &[u8] = b"bool";

const INT: &[u8] = b"int";

const UINT: &[u8] = b"uint";

const ENUM: &[u8] = b"enum";

/// The type that a word names.
pub fn kind_named(word: &[u8]) -> Option<SavedKind>
    ensures { result ≡ causes_spec.kind_named word.now }
{
    if word == ANY {
        Some(SavedKind::Any)
    } else if word == BOOL {
        Some(SavedKind::Bool)
    } else if word == INT {
        Some(SavedKind::Int)
    } else if word == UINT {
        Some(SavedKind::Uint)
    } else if word == ENUM {
        Some(SavedKind::Enum)
    } else {
        None
    }
}

/// The word of a type.
pub fn kind_word(kind: SavedKind) -> &'static [u8]
    ensures { result.now ≡ store_spec.kind_word kind }
{
    match kind {
        SavedKind::Any => ANY,
        SavedKind::Bool => BOOL,
        SavedKind::Int => INT,
        SavedKind::Uint => UINT,
        SavedKind::Enum => ENUM,
    }
}

/// How the store spells a type.
pub fn kind_of(kind: &TypeKind) -> SavedKind
    ensures { result ≡ saved_kind kind.now }
{
    match kind {
        TypeKind::Any => SavedKind::Any,
        TypeKind::Bool => SavedKind::Bool,
        TypeKind::Int => SavedKind::Int,
        TypeKind::Uint => SavedKind::Uint,
        TypeKind::Enum(_) => SavedKind::Enum,
    }
}

/// Whether a value passes a type.
pub fn passes(kind: SavedKind, value: &[u8]) -> bool
    ensures { result ≡ store_spec.passes kind value.now }
{
    check_type(&checked_by(kind), value)
}

/// The type by which values are checked.
fn checked_by(kind: SavedKind) -> TypeKind
    ensures { result ≡ store_spec.checked_by kind }
{
    match kind {
        SavedKind::Any | SavedKind::Enum => TypeKind::Any,
        SavedKind::Bool => TypeKind::Bool,
        SavedKind::Int => TypeKind::Int,
        SavedKind::Uint => TypeKind::Uint,
    }
}
