//! The value of a property in any store.

ghost use Rattle.std.specs.Prelude.{◌≡◌, ◌≤◌, length};
ghost use Rattle.std.specs.Option.{option_copied};
ghost use Rattle.init_base.specs.Value.{max_value_len};
ghost use Rattle.init_machine.specs.Props.{value_in};

use init_base::PropName;
use init_machine::PropStore;

/// The value of a property, which stands in the buffer. None exactly where the property is absent. The buffer has room for any
/// value that is legal under the name.
pub fn look_up<'b, S: PropStore>(
    store: &mut S,
    name: PropName<'_>,
    buffer: &'b mut [u8],
) -> Option<&'b [u8]>
    requires { max_value_len name.bytes.now ≤ length buffer.old }
    ensures value { option_copied result ≡ value_in (S.meaning store.old) name.entry.bytes.now }
    ensures same { S.meaning store.new ≡ S.meaning store.old }
    ensures told { S.told store.new ≡ S.told store.old }
    ensures spare { S.spare store.new ≡ S.spare store.old }
    ensures beside { S.Beside store.old store.new }
{
    match store.get(name, buffer) {
        Some((len, _)) => Some(&buffer[..len]),
        None => None,
    }
}
