//! The environment: the variables that were exported (AOSP, init's README, "Commands").
//!
//! A variable is found in time of its name's length, however many there are.

use crate::variable::Variable;
use indexmap::IndexMap;
use init_base::{NoMemory, Text};
use std::alloc::Global;
use std::marker::Model;

/// Variables with their values, in the order in which they were first exported.
#[derive(Drop)]
pub struct Environment {
    values: IndexMap<Variable, Text>,
}

impl Model for Environment {
    ghost use Rattle.std.specs.Prelude.{List};
    ghost use Rattle.init_machine.specs.declared.config.Pair.{Pair};
    ghost use Rattle.machine_parts.specs.Environment.{variables};

    ghost Value = { List Pair };

    ghost view = { λ environment. variables environment.values.entries };
}

impl Environment {
    ghost use Rattle.std.specs.Prelude.{◌≡◌, [], OnOk, OnErr};
    ghost use Rattle.init_machine.specs.Pairs.{with_variable};

    /// No variables. It takes no memory.
    pub fn new(alloc: Global) -> Environment
        ensures { result ≡ [] }
    {
        Environment {
            values: IndexMap::new(alloc),
        }
    }

    /// Gives a variable a value, in the place of its old one where it has one.
    #[tactic(auto, using(crate::proofs::Variables::with_inserted))]
    pub fn set(&mut self, name: &Text, value: &Text) -> Result<(), NoMemory>
        ensures ok { OnOk result (self.new ≡ with_variable self.old name.now value.now) }
        ensures err { OnErr result (self.new ≡ self.old) }
    {
        let variable = Variable::of(name)?;
        let value = value.share()?;
        self.values.insert(variable, value)?;
        Ok(())
    }
}
