//! Why a line says nothing that a script can have.

use init_base::NoMemory;

/// Why a word or a line has no value.
#[derive(Clone, Copy, Debug, PartialEq, Eq)]
pub enum Fault {
    /// It is out of form.
    Bad,
    NoMemory,
}

impl From<NoMemory> for Fault {
    ghost use Rattle.std.specs.Prelude.{◌≡◌};
    ghost use Rattle.script_lang.specs.declared.fault.Fault.TheVariants as fault;

    ghost from_gives = { λ _ why. why ≡ fault.NoMemory };

    fn from(_: NoMemory) -> Self {
        Fault::NoMemory
    }
}
