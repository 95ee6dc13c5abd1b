//! What a set needs: its texts, and memory for its outputs. It is made before the lock is taken, so that no client waits for that.

ghost use Rattle.std.specs.Prelude.{◌≡◌, [], IfOk};

use init_base::{List, NoMemory, Text};
use init_machine::{Output, Pair};
use std::alloc::Global;

/// How many outputs most sets have: the property is put, and the set is accepted. The history keeps them, so more memory would be lost.
const OUTPUTS: usize = 2;

/// A property's name and a value, and memory for outputs.
#[derive(Drop)]
pub(crate) struct Request {
    pub pair: Pair,
    pub outputs: List<Output>,
}

impl Request {
    /// The request to set a property.
    pub fn of(alloc: Global, name: &[u8], value: &[u8]) -> Result<Request, NoMemory>
        ensures { IfOk result
            (λ request. (request.pair.name ≡ name.now) × (request.pair.value ≡ value.now) × (request.outputs ≡ [])) }
    {
        let pair = Pair {
            name: Text::of(alloc, name)?,
            value: Text::of(alloc, value)?,
        };
        Ok(Request {
            pair,
            outputs: List::with_capacity(alloc, OUTPUTS)?,
        })
    }
}
