//! Look-ups that keep no value: whether a property has a value, in any store.

ghost use Rattle.std.specs.Prelude.{◌≡◌, ◌≤◌, length};
ghost use Rattle.std.specs.Str.{bytes_eq};
ghost use Rattle.init_base.specs.Value.{max_value_len};
ghost use Rattle.init_machine.specs.Matches.{or_empty};
ghost use Rattle.init_machine.specs.Props.{value_in};

use crate::store::PropStore;
use init_base::{PropName, ValueBuffer};

/// Whether a property has this value. An absent one counts as empty.
pub fn has_value<S: PropStore>(store: &mut S, name: PropName<'_>, value: &[u8]) -> bool
    ensures answer { result ≡ bytes_eq (or_empty (value_in (S.meaning store.old) name.entry.bytes.now)) value.now }
    ensures same { S.meaning store.new ≡ S.meaning store.old }
    ensures told { S.told store.new ≡ S.told store.old }
    ensures spare { S.spare store.new ≡ S.spare store.old }
    ensures beside { S.Beside store.old store.new }
{
    if name.is_read_only() {
        has_value_by(store, name, value, ValueBuffer::new().bytes())
    } else {
        has_value_by(store, name, value, &mut [0; 91])
    }
}

/// The same by a buffer that the value is copied to.
fn has_value_by<S: PropStore>(
    store: &mut S,
    name: PropName<'_>,
    value: &[u8],
    buffer: &mut [u8],
) -> bool
    requires { max_value_len name.bytes.now ≤ length buffer.old }
    ensures answer { result ≡ bytes_eq (or_empty (value_in (S.meaning store.old) name.entry.bytes.now)) value.now }
    ensures same { S.meaning store.new ≡ S.meaning store.old }
    ensures told { S.told store.new ≡ S.told store.old }
    ensures spare { S.spare store.new ≡ S.spare store.old }
    ensures beside { S.Beside store.old store.new }
{
    match store.get(name, buffer) {
        Some((len, _)) => &buffer[..len] == value,
        None => value.is_empty(),
    }
}
