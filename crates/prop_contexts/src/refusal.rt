//! Why texts are no policy.

use init_base::NoMemory;

/// Why texts are no policy. Lines count from 1.
#[derive(Clone, Copy, Debug, PartialEq, Eq)]
pub enum PolicyRefusal {
    /// A line of the contexts text, or of the allow text, is of no form.
    BadLine { allow: bool, line: u32 },
    /// A line of the contexts text has the name and the kind of an earlier one.
    Twice { line: u32 },
    /// The contexts text has no line `*`; `line` is the number of its lines plus 1.
    NoDefault { line: u32 },
    NoMemory,
}

impl From<NoMemory> for PolicyRefusal {
    ghost use Rattle.std.specs.Prelude.{◌≡◌};
    ghost use Rattle.prop_contexts.specs.declared.refusal.PolicyRefusal.TheVariants.{NoMemory as no_memory};

    ghost from_gives = { λ _ refusal. refusal ≡ no_memory };

    fn from(_: NoMemory) -> Self {
        PolicyRefusal::NoMemory
    }
}
