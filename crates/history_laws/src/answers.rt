//! The answers to clients' sets.

ghost use Rattle.std.specs.Prelude.{◌≡◌, ℕ, ◌+◌, List, Some, take, slice_get};
ghost use Rattle.init_base.specs.declared.units.ClientId.{ClientId};
ghost use Rattle.init_machine.specs.History.{Legal, count_at};
ghost use Rattle.init_machine.specs.Policy.{PolicyLines};
ghost use Rattle.init_machine.specs.Setting.{is_control, set_answer};
ghost use Rattle.init_machine.specs.State.{Opening, State, rules_of};
ghost use Rattle.init_machine.specs.Step.{ask, domain_of, step};
ghost use Rattle.init_machine.specs.declared.config.Config.{Config};
ghost use Rattle.init_machine.specs.declared.input.Input.TheVariants.{Set};
ghost use Rattle.init_machine.specs.declared.report.Entry.{Entry};
ghost use Rattle.history_laws.specs.Answered.{EndsWithAnswer, refusal_behind};
ghost use Rattle.history_laws.specs.Settled.{IsSettled};

/// A client's set in a legal history ends with its answer: no line stands behind it, and no other answer before it. It is
/// refused exactly where the machine refuses it, and then did nothing else; the answer to an accepted one has the number of
/// sets up to and with its own entry, which for a property is the number of its put. It is so of a step at a set in whatever
/// state in which nothing is left to be settled, as in each that an opening reaches: the step is the asking alone.
pub fn sets_end_with_answers()
    ensures history { (o : Opening) (history : List Entry) (i : ℕ) (e : Entry) (who : ClientId) (name value : List ℕ)
        → Legal o history → slice_get history i ≡ Some e → e.input ≡ Set who name value
        → EndsWithAnswer (refusal_behind o (take i history) who name value) (is_control name) name value
        (count_at history (i + 1)) e.outputs }
    ensures step { (config : Config) (policy : PolicyLines) (s : State) (who : ClientId) (name value : List ℕ) → IsSettled s
        → let now = step config policy s (Set who name value) in
        EndsWithAnswer (set_answer (rules_of config policy) s (Some (domain_of config.domains who)) name value)
        (is_control name) name value now.state.props.count now.lines }
    ensures asking { (config : Config) (policy : PolicyLines) (s : State) (who : ClientId) (name value : List ℕ) → IsSettled s
        → step config policy s (Set who name value) ≡ ask (rules_of config policy) (domain_of config.domains who) name value s }
{}
