//! Waits for files between two inputs.

ghost use Rattle.std.specs.Prelude.{List};
ghost use Rattle.init_machine.specs.History.{after};
ghost use Rattle.init_machine.specs.Policy.{PolicyLines};
ghost use Rattle.init_machine.specs.State.{Opening, State};
ghost use Rattle.init_machine.specs.Step.{step};
ghost use Rattle.init_machine.specs.declared.config.Config.{Config};
ghost use Rattle.init_machine.specs.declared.input.Input.{Input};
ghost use Rattle.history_laws.specs.Settled.{IsSettled};

/// Behind each input, unless the machine is over, it waits for no file that is there, and for none whose time has come. It is so
/// behind a step in whatever state, and so in each state that an opening reaches.
pub fn no_file_wait_is_ripe()
    ensures step { (config : Config) (policy : PolicyLines) (s : State) (i : Input) → IsSettled (step config policy s i).state }
    ensures reached { (o : Opening) (inputs : List Input) → IsSettled (after o inputs) }
{}
