//! Legal histories: each is the history of its inputs.

ghost use Rattle.std.specs.Prelude.{◌≡◌, ◌↔◌, ◌++◌, ℕ, List, Some, take, slice_get};
ghost use Rattle.init_machine.specs.History.{after, after_from, Legal, inputs_of};
ghost use Rattle.init_machine.specs.Policy.{PolicyLines};
ghost use Rattle.init_machine.specs.State.{Opening, State};
ghost use Rattle.init_machine.specs.Step.{step};
ghost use Rattle.init_machine.specs.declared.config.Config.{Config};
ghost use Rattle.init_machine.specs.declared.config.Pair.{Pair};
ghost use Rattle.init_machine.specs.declared.input.Input.{Input};
ghost use Rattle.init_machine.specs.declared.report.Entry.{Entry};
ghost use Rattle.machine_laws.specs.Histories.{HasStepOutputs, history_of};

/// The machine is deterministic: two legal histories from one opening with the same inputs are the same history. So
/// the outputs of an entry depend on the inputs up to it alone.
pub fn deterministic()
    ensures { (o : Opening) (first second : List Entry) → Legal o first → Legal o second
        → inputs_of first ≡ inputs_of second → first ≡ second }
{}

/// For each opening and inputs there is exactly one legal history with these inputs.
pub fn history_of_inputs()
    ensures legal { (o : Opening) (inputs : List Input) → Legal o (history_of o inputs) }
    ensures inputs { (o : Opening) (inputs : List Input) → inputs_of (history_of o inputs) ≡ inputs }
    ensures only { (o : Opening) (history : List Entry) → Legal o history
        → history ≡ history_of o (inputs_of history) }
{}

/// A history is legal exactly where each entry has the outputs of the step at its input, in the state after the inputs
/// before it.
pub fn legal_by_place()
    ensures { (o : Opening) (history : List Entry)
        → (Legal o history)
        ↔ ((i : ℕ) (e : Entry) → slice_get history i ≡ Some e → HasStepOutputs o (take i history) e) }
{}

/// The beginning of a legal history is legal.
pub fn beginning_is_legal()
    ensures { (o : Opening) (beginning rest : List Entry) → Legal o (beginning ++ rest) → Legal o beginning }
{}

/// A step doesn't read the saved pairs of the configuration, which only the first state has from it.
pub fn steps_read_no_saved_pairs()
    ensures step { (config : Config) (policy : PolicyLines) (saved : List Pair) (s : State) (i : Input)
        → step (record config { saved = saved }) policy s i ≡ step config policy s i }
    ensures states { (config : Config) (policy : PolicyLines) (saved : List Pair) (s : State) (inputs : List Input)
        → after_from (record config { saved = saved }) policy s inputs ≡ after_from config policy s inputs }
{}
