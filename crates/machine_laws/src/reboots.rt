//! The machine is over when it reboots.

ghost use Rattle.std.specs.Prelude.{◌≡◌, ◌++◌, ◌∷◌, ℕ, IsTrue, not, is_some, List};
ghost use Rattle.std.specs.List.{list_all, list_any};
ghost use Rattle.init_machine.specs.History.{after, Legal, inputs_of};
ghost use Rattle.init_machine.specs.State.{Opening};
ghost use Rattle.init_machine.specs.declared.output.Output.{Output};
ghost use Rattle.init_machine.specs.declared.output.Output.TheVariants as output;
ghost use Rattle.init_machine.specs.declared.report.Entry.{Entry};
ghost use Rattle.machine_laws.specs.Rebooting.{outputs_of, is_deed, is_reboot, is_refusal};

/// Behind a `reboot` line of a legal history, in its entry and in all later ones, no property is set, no process is
/// spawned, killed or reaped, and the machine doesn't reboot again. Later entries have no lines but `down`, `idle`, `unset`
/// and `refused`. The machine is over exactly where it rebooted.
pub fn nothing_after_a_reboot()
    ensures lines { (o : Opening) (history : List Entry) (earlier later : List Output) (target : List ℕ)
        → Legal o history → outputs_of history ≡ earlier ++ output.Reboot target ∷ later
        → IsTrue (list_all (λ line. not (is_deed line)) later) }
    ensures entries { (o : Opening) (earlier later : List Entry) → Legal o (earlier ++ later)
        → IsTrue (list_any is_reboot (outputs_of earlier))
        → IsTrue (list_all is_refusal (outputs_of later)) }
    ensures over { (o : Opening) (history : List Entry) → Legal o history
        → is_some (after o (inputs_of history)).over ≡ list_any is_reboot (outputs_of history) }
{}
