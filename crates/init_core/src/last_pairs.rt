//! The last pair of each name.

ghost use Rattle.std.specs.Prelude.{◌≡◌, IfOk};
ghost use Rattle.init_machine.specs.Pairs as spec;
ghost use Rattle.init_core.specs.internal.ByName.{pairs_in};

use init_base::{List, NoMemory, Text};
use init_machine::Pair;
use std::alloc::Global;
use std::collections::BTreeMap;

/// The last value of each name.
fn values_by_name(alloc: Global, pairs: &List<Pair>) -> Result<BTreeMap<Vec<u8>, Text>, NoMemory>
    ensures { IfOk result (λ values. pairs_in values.entries ≡ spec.last_pairs pairs.now) }
{
    let mut values = BTreeMap::new(alloc);
    for pair in pairs.items() {
        let name = Vec::from_slice(alloc, pair.name.bytes())?;
        values.insert(name, pair.value.share()?)?;
    }
    Ok(values)
}

/// The last pair of each name, in ascending order of names.
pub fn last_pairs(alloc: Global, pairs: &List<Pair>) -> Result<List<Pair>, NoMemory>
    ensures { IfOk result (λ last. last ≡ spec.last_pairs pairs.now) }
{
    let mut last = List::new(alloc);
    for (name, value) in values_by_name(alloc, pairs)? {
        last.push(Pair {
            name: Text::from_vec(name)?,
            value,
        })?;
    }
    Ok(last)
}
