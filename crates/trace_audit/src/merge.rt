//! The order of a history's inputs, which are taken one after another.

ghost use Rattle.std.specs.Prelude.{◌≡◌, ◌+◌, ◌++◌, ◌∷◌, ◌<◌, ◌↔◌, ◌⊎◌, [], IsTrue, All, List as Items, length, false, IfOk, MatchOption, None};
ghost use Rattle.init_machine.specs.declared.input.Input.TheVariants as Input;
ghost use Rattle.init_machine.specs.declared.report.Entry.{Entry as Happened};
ghost use Rattle.script_lang.specs.Inputs.{Parts};
ghost use Rattle.script_lang.specs.Laws.{IsAskAmong};
ghost use Rattle.script_lang.specs.Merges.{Merges};
ghost use Rattle.trace_audit.specs.Audited.{EndsEarly, StraysAt};
ghost use Rattle.trace_audit.specs.Progress.{left_of};
ghost use Rattle.trace_audit.specs.Taken.{Goes, HasMerged};

use crate::progress::Progress;
use init_base::NoMemory;
use init_machine::Input;
use script_lang::Script;
use std::alloc::Global;

/// How far the inputs that were taken merge the parts of a script.
#[derive(Drop)]
pub struct Merge {
    pub progress: Progress,
    /// How many inputs were taken.
    pub taken: u64,
    /// The number of the first input with which no merging begins.
    pub strays: Option<u64>,
}

fn is_boot(input: &Input) -> bool
    ensures { IsTrue result ↔ (input.now ≡ Input.Boot) }
{
    matches!(input, Input::Boot)
}

impl Merge {
    /// Nothing was taken.
    pub fn new(alloc: Global, script: &Script) -> Result<Merge, NoMemory>
        requires { All (IsAskAmong (length script.now.clients)) script.now.acts }
        ensures { IfOk result (HasMerged script.now []) }
    {
        Ok(Merge {
            progress: Progress::new(alloc, script.clients.len())?,
            taken: 0,
            strays: None,
        })
    }

    /// Takes the input of the next entry.
    pub fn take(&mut self, script: &Script, input: &Input)
        requires asks { All (IsAskAmong (length script.now.clients)) script.now.acts }
        requires few { self.old.taken < 18446744073709551615 }
        ensures taken { self.new.taken ≡ self.old.taken + 1 }
        ensures begun { self.new.strays ≡ None → self.old.strays ≡ None }
        ensures merged { (history : Items Happened) → (entry : Happened) → entry.input ≡ input.now
            → HasMerged script.now history self.old → HasMerged script.now (history ++ entry ∷ []) self.new }
    {
        let number = self.taken + 1;
        if self.strays.is_none() && !self.goes_on(script, input) {
            self.strays = Some(number);
        }
        self.taken = number;
    }

    /// Whether a merging begins with the inputs so far and this one.
    fn goes_on(&mut self, script: &Script, input: &Input) -> bool
        requires asks { All (IsAskAmong (length script.now.clients)) script.now.acts }
        ensures taken { self.new.taken ≡ self.old.taken }
        ensures strays { self.new.strays ≡ self.old.strays }
        ensures goes { IsTrue result → (history : Items Happened) → (entry : Happened) → entry.input ≡ input.now
            → self.old.taken ≡ length history
            → Goes script.now history (left_of script.now.acts self.old.progress)
            → Goes script.now (history ++ entry ∷ []) (left_of script.now.acts self.new.progress) }
        ensures ends { result ≡ false → (history : Items Happened) → (entry : Happened) → entry.input ≡ input.now
            → self.old.taken ≡ length history
            → Goes script.now history (left_of script.now.acts self.old.progress)
            → StraysAt script.now (history ++ entry ∷ []) (self.old.taken + 1) }
    {
        if self.taken == 0 {
            is_boot(input)
        } else {
            self.progress.take(script.acts.items(), input)
        }
    }

    /// The number of the first entry with which no merging of the script's parts begins. Where the history ends too early, it
    /// is one more than that of its last entry. None exactly where the history merges the parts.
    pub fn end(&mut self, script: &Script) -> Option<u64>
        requires asks { All (IsAskAmong (length script.now.clients)) script.now.acts }
        requires few { self.old.taken < 18446744073709551615 }
        ensures begun { result ≡ None → self.old.strays ≡ None }
        ensures end { (history : Items Happened) → HasMerged script.now history self.old
            → MatchOption result (Merges history (Parts script.now))
            (λ number. StraysAt script.now history number ⊎ EndsEarly script.now history number) }
    {
        if self.strays.is_some() {
            return self.strays;
        }
        if self.taken > 0 && self.progress.is_over(script.acts.items()) {
            return None;
        }
        Some(self.taken + 1)
    }
}
