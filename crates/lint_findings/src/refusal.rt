//! Why bytes are no baseline.

use init_base::NoMemory;

/// Why bytes are no baseline.
#[derive(Clone, Copy, Debug, PartialEq, Eq)]
pub enum BaselineRefusal {
    /// The first line that doesn't fit, from 1.
    BadLine { line: u32 },
    /// There are more bytes than a baseline may have.
    TooLarge,
    ReadFault,
    NoMemory,
}

impl From<NoMemory> for BaselineRefusal {
    ghost use Rattle.std.specs.Prelude.{◌≡◌};
    ghost use Rattle.lint_findings.specs.declared.refusal.BaselineRefusal.TheVariants.{NoMemory as no_memory};

    ghost from_gives = { λ _ refusal. refusal ≡ no_memory };

    fn from(_: NoMemory) -> Self {
        BaselineRefusal::NoMemory
    }
}
