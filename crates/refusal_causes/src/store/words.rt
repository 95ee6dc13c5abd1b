//! What is wrong with the words of a line.

ghost use Rattle.std.specs.Prelude.{◌≡◌, IfOk, None};
ghost use Rattle.init_base.specs.Value.{short_value_fault};
ghost use Rattle.refusal_causes.specs.Store.{spelled_fault};
ghost use Rattle.refusal_causes.specs.Store as store_spec;
ghost use Rattle.persist_file.specs.Causes as causes_spec;

use super::cause::StoreFault;
use init_base::{BadValue, NoMemory, PropValue, Text};
use persist_file::{Version, is_legal, value_in, words_in};
use std::alloc::Global;

/// Why a name isn't that of a property that is saved.
pub fn name_fault(alloc: Global, name: &[u8]) -> Result<StoreFault, NoMemory>
    ensures { IfOk result (λ fault. fault ≡ store_spec.name_fault name.now) }
{
    let text = Text::of(alloc, name)?;
    Ok(if is_legal(name) {
        StoreFault::NotPersistent { name: text }
    } else {
        StoreFault::IllegalName { name: text }
    })
}

/// Why a name can't stand behind that of the line before, which has this number.
pub fn order_fault(
    alloc: Global,
    before: &[u8],
    number: u32,
    name: &[u8],
) -> Result<StoreFault, NoMemory>
    ensures { IfOk result (λ fault. fault ≡ store_spec.order_fault before.now number name.now) }
{
    let is_same = before == name;
    let name = Text::of(alloc, name)?;
    Ok(if is_same {
        StoreFault::Twice {
            name,
            first: number,
        }
    } else {
        StoreFault::OutOfOrder {
            name,
            behind: number,
        }
    })
}

/// The name of a line. One that hasn't its version's words has the empty one.
pub fn name_in(version: Version, line: &[u8]) -> &[u8]
    ensures { result.now ≡ store_spec.name_in version line.entry.now }
{
    match words_in(version, line) {
        Some(words) => words.name,
        None => b"",
    }
}

/// Why a word isn't the value of a property of a type.
pub fn value_fault(
    alloc: Global,
    version: Version,
    kind: &[u8],
    word: &[u8],
) -> Result<StoreFault, NoMemory>
    ensures { IfOk result (λ fault. fault ≡ store_spec.value_fault version kind.now word.now) }
{
    let Some(value) = value_in(alloc, version, word)? else {
        return misspelled(alloc, version, word);
    };
    match fault_of(value.bytes()) {
        Some(fault) => Ok(StoreFault::IllegalValue { fault }),
        None => Ok(StoreFault::NotTyped {
            kind: Text::of(alloc, kind)?,
            value,
        }),
    }
}

fn misspelled(alloc: Global, version: Version, word: &[u8]) -> Result<StoreFault, NoMemory>
    ensures { IfOk result (λ fault. fault ≡ store_spec.misspelled version word.now) }
{
    let given = Text::of(alloc, word)?;
    Ok(match version {
        Version::First => StoreFault::NotHex { given },
        Version::Second => StoreFault::NotQuoted { given },
    })
}

fn fault_of(value: &[u8]) -> Option<BadValue>
    ensures { result ≡ short_value_fault value.now }
{
    PropValue::short(value).err()
}
