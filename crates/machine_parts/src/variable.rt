//! `Variable`: the name of a variable of the environment, as a key.

ghost use Rattle.std.specs.Prelude.{◌≡◌, ◌∷◌, [], IfOk};
ghost use Rattle.std.specs.Cmp.{partial_equiv_from_equiv};
ghost use Rattle.std.specs.Cmp.Lexicographic.{nat_list_eq_equiv};
ghost use Rattle.std.specs.Str.{bytes_eq};
ghost use Rattle.init_base.proofs.ByBytes.{same_input};

use init_base::{NoMemory, Text};
use std::hash::{Hash, Hasher};
use std::marker::Model;

/// The name of a variable. It shares the bytes of the text that it was made of.
#[derive(Debug, Drop)]
pub struct Variable {
    name: Text,
}

impl Model for Variable {
    ghost use Rattle.std.specs.Prelude.{ℕ, List};

    ghost Value = { List ℕ };

    ghost view = { λ variable. variable.name };
}

impl Variable {
    /// The variable of this name.
    pub fn of(name: &Text) -> Result<Variable, NoMemory>
        ensures { IfOk result (λ variable. variable ≡ name.now) }
    {
        Ok(Variable {
            name: name.share()?,
        })
    }
}

impl PartialEq for Variable {
    ghost eq = { bytes_eq };

    ghost laws = { partial_equiv_from_equiv nat_list_eq_equiv };

    fn eq(&self, other: &Self) -> bool {
        self.name.is(other.name.bytes())
    }
}

impl Eq for Variable {
    ghost laws = { nat_list_eq_equiv };
}

impl Hash for Variable {
    ghost hash_input = { λ bytes. bytes ∷ [] };

    ghost respects_eq = { same_input };

    fn hash<H: Hasher>(&self, state: &mut H) {
        state.write(self.name.bytes());
    }
}
