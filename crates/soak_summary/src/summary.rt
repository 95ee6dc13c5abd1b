//! The summary of a run of a generated boot, and its text.

ghost use Rattle.std.specs.Prelude.{◌≡◌, ◌++◌, IfOk, OnOk, string_bytes};
ghost use Rattle.soak_summary.specs.Summary.{SummaryText, end_line, number_line};

use crate::tally::Tally;
use init_base::{NoMemory, Text};
use std::alloc::Global;

/// How many services were generated, and the numbers of the report.
#[derive(Clone, Copy, Debug, PartialEq, Eq)]
pub struct Summary {
    pub services: u32,
    pub tally: Tally,
}

impl Summary {
    /// The text: a line for each number.
    pub fn text(&self, alloc: Global) -> Result<Text, NoMemory>
        ensures { IfOk result (λ text. text ≡ SummaryText self.now) }
    {
        let mut page = String::new(alloc);
        add_number(&mut page, "soak", u64::from(self.services))?;
        add_number(&mut page, "entries", self.tally.entries)?;
        add_number(&mut page, "puts", self.tally.puts)?;
        add_number(&mut page, "spawns", self.tally.spawns)?;
        add_number(&mut page, "events", self.tally.events)?;
        add_number(&mut page, "found", self.tally.found)?;
        add_number(&mut page, "used", self.tally.used)?;
        add_end(&mut page)?;
        Text::from_vec(page.into_bytes())
    }
}

/// Adds a line of a word and a number.
#[tactic(auto, unfolding(crate::specs::Summary::number_line))]
fn add_number(page: &mut String, word: &str, number: u64) -> Result<(), NoMemory>
    ensures { OnOk result (string_bytes page.new ≡ string_bytes page.old ++ number_line word.now number) }
{
    writeln!(page, "{word} {number}")?;
    Ok(())
}

/// Adds the last line.
#[tactic(auto, unfolding(crate::specs::Summary::end_line))]
fn add_end(page: &mut String) -> Result<(), NoMemory>
    ensures { OnOk result (string_bytes page.new ≡ string_bytes page.old ++ end_line) }
{
    page.push_str("end\n")?;
    Ok(())
}
