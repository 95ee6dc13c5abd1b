//! Why bytes give no script.

use init_base::NoMemory;
use init_machine::Limit;

/// Why bytes give no script.
#[derive(Clone, Copy, Debug, PartialEq, Eq)]
pub enum ScriptRefusal {
    /// A limit is passed. The number is what was found, and of bytes the limit and one more.
    TooLarge { limit: Limit, number: u64 },
    /// The first line that is out of form or doesn't fit behind those before it, from 1.
    BadLine { line: u32 },
    NoMemory,
}

impl From<NoMemory> for ScriptRefusal {
    ghost use Rattle.std.specs.Prelude.{◌≡◌};
    ghost use Rattle.script_lang.specs.declared.refusal.ScriptRefusal.TheVariants.{NoMemory as script_no_memory};

    ghost from_gives = { λ _ refusal. refusal ≡ script_no_memory };

    fn from(_: NoMemory) -> Self {
        ScriptRefusal::NoMemory
    }
}
