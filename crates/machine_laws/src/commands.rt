//! In which order commands run.

ghost use Rattle.std.specs.Prelude.{List};
ghost use Rattle.std.specs.List.{AllByRecursion};
ghost use Rattle.init_machine.specs.History.{Legal};
ghost use Rattle.init_machine.specs.State.{Opening, rules_of};
ghost use Rattle.init_machine.specs.declared.report.Entry.{Entry};
ghost use Rattle.machine_laws.specs.InOrder.{RunsInOrder, CommandsFollow};

/// The commands of the actions that began run in their order, one a Next: what the Nexts of a legal history ran, and
/// behind it what the running actions have left, are the commands of the actions whose lines stand in the history, in the
/// order of these lines. Other inputs run the commands of `onrestart` alone, in order, behind the reaping of their service.
pub fn commands_run_in_order()
    ensures actions { (o : Opening) (history : List Entry) → Legal o history → RunsInOrder o history }
    ensures restarts { (o : Opening) (history : List Entry) → Legal o history
        → AllByRecursion (CommandsFollow (rules_of o.config o.policy)) history }
{}
