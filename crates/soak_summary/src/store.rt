//! The plain store, into which the sets of a history are put again.

ghost use Rattle.std.specs.Prelude.{◌≡◌, OnOk, IfOk, false};
ghost use Rattle.init_machine.specs.Props.{MayBeSet, with_set};
ghost use Rattle.soak_summary.specs.Counting.{fresh_props};

use init_base::{NoMemory, PropName, PropValue};
use init_machine::PropStore;
use list_store::ListStore;
use std::alloc::Global;

/// The words that there may be.
const WORDS: u64 = 65_536;

/// The empty store.
pub fn open_store(alloc: Global) -> Result<ListStore, NoMemory>
    ensures { IfOk result (λ store. store.props ≡ fresh_props) }
{
    ListStore::new(alloc, WORDS)
}

/// Puts a set of a history into the store. `NoMemory` comes also where the store can't take it, which is so for no set that a
/// machine of as many words took.
pub fn put_again(
    alloc: Global,
    store: &mut ListStore,
    name: &[u8],
    value: &[u8],
) -> Result<(), NoMemory>
    ensures { OnOk result (store.new.props ≡ with_set store.old.props name.now value.now) }
{
    let Some(name) = PropName::of(name) else {
        return Err(NoMemory);
    };
    let Ok(value) = PropValue::under(name, value) else {
        return Err(NoMemory);
    };
    if store.room(name, value.bytes().len()).is_err() || is_set_for_good(store, name) {
        return Err(NoMemory);
    }
    store.reserve(alloc)?;
    store.put(name, value);
    Ok(())
}

/// Whether the name begins with `ro.` and has a value already.
fn is_set_for_good(store: &mut ListStore, name: PropName<'_>) -> bool
    ensures once { result ≡ false → MayBeSet store.new.props name.entry.bytes.now }
    ensures same { store.new.props ≡ store.old.props }
{
    name.is_read_only() && store.number_of(name).is_some()
}
