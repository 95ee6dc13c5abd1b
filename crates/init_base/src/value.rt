//! Property values, which are legal by their type. The rules are `IsSomeValue` and `LegalValue` of `specs/Value.antt`.

ghost use Rattle.std.specs.Prelude.{◌≡◌, ◌<◌, ◌≤◌, IfOk, IfErr, length};
ghost use Rattle.std.specs.Result.{result_err};
ghost use Rattle.std.specs.Char.{is_ascii};
ghost use Rattle.std.specs.Str.{is_utf8};
ghost use Rattle.init_base.specs.Value.{LegalValue, IsSomeValue, fault_past, short_value_fault, value_fault, value_fault_under};

use crate::byte_test::{ByteTest, all_hold};
use crate::name::PropName;

/// The most bytes of a value under any name.
const MOST_BYTES: usize = 8191;

/// The most bytes of a value under a name that doesn't begin with `ro.`.
const MOST_SHORT_BYTES: usize = 91;

/// Why bytes are no property value.
#[derive(Clone, Copy, Debug, PartialEq, Eq)]
pub enum BadValue {
    /// More bytes than a value may have; `len` is their number.
    TooLong { len: usize },
    /// No more than a value may have, but they aren't UTF-8.
    NotUtf8,
}

/// A property's value, which is legal under some name: at most 8,191 bytes of UTF-8. Under a name that doesn't begin with `ro.`
/// at most 91 are legal (AOSP, system properties): `under` judges that.
#[derive(Clone, Copy, Debug)]
pub struct PropValue<'a> {
    pub bytes: &'a [u8],
    pub ghost legal: { IsSomeValue bytes.now },
}

impl<'a> PropValue<'a> {
    /// `TooLong` exactly past 8,191 bytes, else `NotUtf8` exactly where the bytes aren't UTF-8.
    pub fn of(bytes: &'a [u8]) -> Result<PropValue<'a>, BadValue>
        ensures bytes { IfOk result (λ value. value.bytes ≡ bytes.entry) }
        ensures fault { result_err result ≡ value_fault bytes.entry.now }
    {
        check(bytes, MOST_BYTES)?;
        Ok(PropValue { bytes })
    }

    /// A value that is legal under each name. `TooLong` exactly past 91 bytes, else `NotUtf8` exactly where the bytes aren't UTF-8.
    pub fn short(bytes: &'a [u8]) -> Result<PropValue<'a>, BadValue>
        ensures bytes { IfOk result (λ value. value.bytes ≡ bytes.entry) }
        ensures fault { result_err result ≡ short_value_fault bytes.entry.now }
    {
        check(bytes, MOST_SHORT_BYTES)?;
        Ok(PropValue { bytes })
    }

    /// A value that is legal under the name. `TooLong` exactly past 91 bytes, or past 8,191 where the name begins with `ro.`; else
    /// `NotUtf8` exactly where the bytes aren't UTF-8.
    pub fn under(name: PropName<'_>, bytes: &'a [u8]) -> Result<PropValue<'a>, BadValue>
        ensures bytes { IfOk result (λ value. value.bytes ≡ bytes.entry) }
        ensures fault { result_err result ≡ value_fault_under name.entry.bytes.now bytes.entry.now }
        ensures legal { IfOk result (λ value. LegalValue name.entry.bytes.now bytes.entry.now) }
    {
        check(bytes, name.max_value_len())?;
        Ok(PropValue { bytes })
    }

    pub fn bytes(&self) -> &'a [u8]
        ensures same { result ≡ self.now.bytes }
        ensures legal { IsSomeValue result.now }
    {
        self.bytes
    }
}

/// Why bytes are no value of at most so many.
fn check(bytes: &[u8], most: usize) -> Result<(), BadValue>
    ensures { result_err result ≡ fault_past most bytes.now }
{
    if bytes.len() > most {
        return Err(BadValue::TooLong { len: bytes.len() });
    }
    if is_text(bytes) {
        Ok(())
    } else {
        Err(BadValue::NotUtf8)
    }
}

/// The bytes of ASCII.
struct Ascii;

impl ByteTest for Ascii {
    ghost holds = { is_ascii };

    fn holds_of(byte: u8) -> bool {
        byte < 128
    }
}

/// Whether the bytes are UTF-8. Those of ASCII alone, as nearly all are, are told first.
#[tactic(auto, using(crate::proofs::Ascii::ascii_is_utf8))]
pub(crate) fn is_text(bytes: &[u8]) -> bool
    ensures { result ≡ is_utf8 bytes.now }
{
    all_hold::<Ascii>(bytes) || is_utf8(bytes)
}

fn is_utf8(bytes: &[u8]) -> bool
    ensures { result ≡ is_utf8 bytes.now }
{
    std::str::from_utf8(bytes).is_ok()
}
