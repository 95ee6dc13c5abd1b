//! Values of properties as they are now.

ghost use Rattle.std.specs.Prelude.{◌≡◌, codes, IsTrue};
ghost use Rattle.std.specs.Str.{bytes_eq};
ghost use Rattle.init_base.specs.Name.{is_legal_name};
ghost use Rattle.init_machine.specs.Matches.{or_empty};
ghost use Rattle.init_machine.specs.Props.{value_in};
ghost use Rattle.init_core.specs.Completed.{is_completed};

use init_base::PropName;
use init_machine::{PropStore, has_value};

/// The name, which is legal.
fn legal(name: &[u8]) -> PropName<'_>
    requires { IsTrue (is_legal_name name.now) }
    ensures { result.bytes ≡ name.entry }
{
    let Some(name) = PropName::of(name) else {
        unreachable!()
    };
    name
}

/// Whether boot is completed: `sys.boot_completed` is `1` or `true`.
pub fn is_boot_completed<S: PropStore>(store: &mut S) -> bool
    ensures answer { result ≡ is_completed (or_empty (value_in (S.meaning store.old) (codes "sys.boot_completed"))) }
    ensures same { S.meaning store.new ≡ S.meaning store.old }
    ensures told { S.told store.new ≡ S.told store.old }
    ensures beside { S.Beside store.old store.new }
{
    let name = legal(b"sys.boot_completed");
    has_value(store, name, b"1") || has_value(store, name, b"true")
}

/// Whether the device charges: `ro.bootmode` is `charger`.
pub fn is_charger<S: PropStore>(store: &mut S) -> bool
    ensures answer { result ≡ bytes_eq (or_empty (value_in (S.meaning store.old) (codes "ro.bootmode"))) (codes "charger") }
    ensures same { S.meaning store.new ≡ S.meaning store.old }
    ensures told { S.told store.new ≡ S.told store.old }
    ensures beside { S.Beside store.old store.new }
{
    has_value(store, legal(b"ro.bootmode"), b"charger")
}
