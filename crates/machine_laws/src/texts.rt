//! Each line of a legal history has a text: neither `Spent` nor `NoMemory` stands in it.

ghost use Rattle.std.specs.Prelude.{List};
ghost use Rattle.std.specs.List.{AllByRecursion};
ghost use Rattle.init_machine.specs.HasText.{OutputHasText, EntryHasText};
ghost use Rattle.init_machine.specs.History.{Legal};
ghost use Rattle.init_machine.specs.Policy.{PolicyLines};
ghost use Rattle.init_machine.specs.State.{Opening, State};
ghost use Rattle.init_machine.specs.Step.{step};
ghost use Rattle.init_machine.specs.declared.config.Config.{Config};
ghost use Rattle.init_machine.specs.declared.input.Input.{Input};
ghost use Rattle.init_machine.specs.declared.report.Entry.{Entry};

/// Neither `Spent` nor `NoMemory` stands in a line of a step, in whatever state, nor in an entry of a legal history.
pub fn lines_have_text()
    ensures step { (config : Config) (policy : PolicyLines) (s : State) (i : Input)
        → AllByRecursion OutputHasText (step config policy s i).lines }
    ensures history { (o : Opening) (history : List Entry) → Legal o history
        → AllByRecursion EntryHasText history }
{}
