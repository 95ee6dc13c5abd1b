//! The saved pairs after a legal history, and what is stored.

ghost use Rattle.std.specs.Prelude.{IsTrue, List};
ghost use Rattle.std.specs.List.{list_all};
ghost use Rattle.init_machine.specs.History.{after, Legal, inputs_of};
ghost use Rattle.init_machine.specs.Policy.{PolicyLines};
ghost use Rattle.init_machine.specs.State.{Opening, State};
ghost use Rattle.init_machine.specs.Step.{step};
ghost use Rattle.init_machine.specs.WellFormed.{IsWellFormed, ascend};
ghost use Rattle.init_machine.specs.declared.config.Config.{Config};
ghost use Rattle.init_machine.specs.declared.input.Input.{Input};
ghost use Rattle.init_machine.specs.declared.report.Entry.{Entry};
ghost use Rattle.machine_laws.specs.Saved.{can_be_printed, has_stored, is_typed_under};

/// Where saving is on after a legal history of a well-formed configuration, each saved pair has a legal name that begins
/// with `persist.` and a legal value that passes the type of the name's context. The pairs ascend by name, also where saving is off.
pub fn saved_can_be_printed()
    ensures pairs { (o : Opening) (history : List Entry) → IsWellFormed o.config → Legal o history
        → IsTrue (after o (inputs_of history)).saving
        → IsTrue (list_all can_be_printed (after o (inputs_of history)).saved) }
    ensures typed { (o : Opening) (history : List Entry) → IsWellFormed o.config → Legal o history
        → IsTrue (after o (inputs_of history)).saving
        → IsTrue (list_all (is_typed_under o.policy) (after o (inputs_of history)).saved) }
    ensures order { (o : Opening) (history : List Entry) → IsWellFormed o.config → Legal o history
        → IsTrue (ascend (after o (inputs_of history)).saved) }
{}

/// A property is stored only while saving is on, and saving is on behind the input that stores it.
pub fn stored_while_saving()
    ensures { (config : Config) (policy : PolicyLines) (s : State) (i : Input)
        → IsTrue (has_stored (step config policy s i).lines) → IsTrue (step config policy s i).state.saving }
{}
