//! Which calls of an object in memory fail.

ghost use Rattle.std.specs.Prelude.{◌≡◌, ◌==◌, is_err};
ghost use Rattle.std.specs.List.{list_any};
ghost use Rattle.init_base.specs.Memory.{after_call, fails_next};

use crate::list::List;
use crate::outside::refusal::Failed;
use std::marker::Model;

/// The numbers of the calls of an object that fail, from 1, and the counts of its calls and faults.
#[derive(Debug, Drop)]
pub struct FailPlan {
    fail: List<u64>,
    made: u64,
    faults: u64,
}

impl Model for FailPlan {
    ghost use Rattle.init_base.specs.Memory.{Calls};

    ghost Value = { Calls };

    ghost view = { λ p. record { fail = p.fail; made = p.made; faults = p.faults } };
}

impl FailPlan {
    /// No call is made yet.
    pub fn new(fail: List<u64>) -> FailPlan
        ensures { result ≡ record { fail = fail; made = 0; faults = 0 } }
    {
        FailPlan {
            fail,
            made: 0,
            faults: 0,
        }
    }

    /// How many calls were made, at most 2^64 - 1.
    pub fn made(&self) -> u64
        ensures { result ≡ self.now.made }
    {
        self.made
    }

    /// How many calls failed, at most 2^64 - 1.
    pub fn faults(&self) -> u64
        ensures { result ≡ self.now.faults }
    {
        self.faults
    }

    /// Counts one call more, and fails where that call does. A fault is counted too.
    pub fn call(&mut self) -> Result<(), Failed>
        ensures answer { is_err result ≡ fails_next self.old }
        ensures calls { self.new ≡ after_call self.old }
    {
        self.made = self.made.saturating_add(1);
        if has_number(self.fail.items(), self.made) {
            self.faults = self.faults.saturating_add(1);
            return Err(Failed);
        }
        Ok(())
    }
}

fn has_number(numbers: &[u64], number: u64) -> bool
    ensures { result ≡ list_any (λ other. other == number) numbers.now }
{
    numbers.iter().any(|other| *other == number)
}
