//! What the words at the front of a stream say of its first message.

ghost use Rattle.std.specs.Prelude.{◌≡◌, ◌+◌, ◌≤◌, length};
ghost use Rattle.wire_format.specs.Format.{word_from};
ghost use Rattle.wire_format.specs.Wire.{second_shape, shape_of, value_shape, IsThere};

use crate::word::{FIRST, SECOND, word_from};

/// The most bytes of a name of form two.
pub(crate) const MAX_NAME: u32 = 1024;

/// The most bytes of a value of form two.
pub(crate) const MAX_VALUE: u32 = 8192;

/// The bytes of a message of form one.
pub(crate) const FIRST_LEN: usize = 128;

/// What the words at the front of a stream say of its first message.
#[derive(Clone, Copy, Debug, PartialEq, Eq)]
pub(crate) enum Shape {
    /// A whole message of form one.
    First,
    /// A whole message of form two, whose texts have these lengths.
    Second { name: usize, value: usize },
    /// It takes so many bytes to say more.
    Wants { len: usize },
    BadCommand { word: u32 },
    BadLength { len: u32 },
}

/// The shape of a stream's first message.
pub(crate) fn shape_of(bytes: &[u8]) -> Shape
    ensures shape { result ≡ shape_of bytes.now }
    ensures there { IsThere (length bytes.now) result }
{
    if bytes.len() < 4 {
        return Shape::Wants { len: 4 };
    }
    match word_from(bytes, 0) {
        FIRST if bytes.len() < FIRST_LEN => Shape::Wants { len: FIRST_LEN },
        FIRST => Shape::First,
        SECOND => second_shape(bytes),
        word => Shape::BadCommand { word },
    }
}

/// The shape of a message of form two.
fn second_shape(bytes: &[u8]) -> Shape
    ensures shape { result ≡ second_shape (length bytes.now) (word_from bytes.now 4) (word_from bytes.now (8 + word_from bytes.now 4)) }
    ensures there { IsThere (length bytes.now) result }
{
    if bytes.len() < 8 {
        return Shape::Wants { len: 8 };
    }
    let name = word_from(bytes, 4);
    if name > MAX_NAME {
        return Shape::BadLength { len: name };
    }
    value_shape(bytes, name as usize)
}

/// The shape of a message of form two behind the length of its name.
fn value_shape(bytes: &[u8], name: usize) -> Shape
    requires { name ≤ 1024 }
    ensures shape { result ≡ value_shape (length bytes.now) name (word_from bytes.now (8 + name)) }
    ensures there { IsThere (length bytes.now) result }
{
    let at = 12 + name;
    if bytes.len() < at {
        return Shape::Wants { len: at };
    }
    let value = word_from(bytes, 8 + name);
    if value > MAX_VALUE {
        return Shape::BadLength { len: value };
    }
    let value = value as usize;
    if bytes.len() < at + value {
        return Shape::Wants { len: at + value };
    }
    Shape::Second { name, value }
}
