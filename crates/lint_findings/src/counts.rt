//! How often each line stands in a baseline, as far as it isn't used up.

ghost use Rattle.std.specs.Prelude.{◌≡◌, ◌+◌, ◌-◌, ◌<◌, ◌^◌, ℕ, List, OnOk, IfOk, nat_lt, if◌then◌else◌};
ghost use Rattle.std.specs.Str.{bytes_eq};
ghost use Rattle.lint_findings.specs.internal.Rows.{count_in};

use init_base::NoMemory;
use std::alloc::Global;
use std::collections::HashMap;

/// A number for each line.
#[derive(Drop)]
pub struct Counts {
    pub numbers: HashMap<Vec<u8>, u64>,
}

impl Counts {
    /// No line.
    pub fn new(alloc: Global) -> Counts
        ensures { (q : List ℕ) → count_in result.numbers q ≡ 0 }
    {
        Counts {
            numbers: HashMap::new(alloc),
        }
    }

    fn number(&self, row: &[u8]) -> u64
        ensures { result ≡ count_in self.now.numbers row.now }
    {
        self.numbers.get(row).copied().unwrap_or(0)
    }

    /// Counts a line once more.
    pub fn add(&mut self, alloc: Global, row: &[u8]) -> Result<(), NoMemory>
        requires { count_in self.old.numbers row.now + 1 < 2 ^ 64 }
        ensures { OnOk result ((q : List ℕ) →
            count_in self.new.numbers q ≡ count_in self.old.numbers q + (if bytes_eq row.now q then 1 else 0)) }
    {
        let number = self.number(row);
        self.numbers
            .insert(Vec::from_slice(alloc, row)?, number + 1)?;
        Ok(())
    }

    /// Uses a line up once, and answers whether it was there.
    pub fn take(&mut self, row: Vec<u8>) -> Result<bool, NoMemory>
        ensures had { IfOk result (λ had. had ≡ nat_lt 0 (count_in self.old.numbers row.items)) }
        ensures left { OnOk result ((q : List ℕ) →
            count_in self.new.numbers q ≡ count_in self.old.numbers q - (if bytes_eq row.items q then 1 else 0)) }
    {
        let number = self.number(&row);
        if number == 0 {
            return Ok(false);
        }
        self.numbers.insert(row, number - 1)?;
        Ok(true)
    }
}
