//! Processes and services in a legal history.

ghost use Rattle.std.specs.Prelude.{◌≡◌, ◌++◌, ◌∷◌, ℕ, IsTrue, not, length, List, Some, None, Contains};
ghost use Rattle.std.specs.List.{flat_map, list_all};
ghost use Rattle.init_base.specs.declared.units.Pid.{Pid};
ghost use Rattle.init_machine.specs.History.{after, Legal, inputs_of};
ghost use Rattle.init_machine.specs.Kernel.{Process};
ghost use Rattle.init_machine.specs.Services.{service_at, marks_at, pid_of};
ghost use Rattle.init_machine.specs.State.{Opening, rules_of};
ghost use Rattle.init_machine.specs.WellFormed.{IsWellFormed};
ghost use Rattle.init_machine.specs.declared.output.How.{How};
ghost use Rattle.init_machine.specs.declared.output.Output.{Output};
ghost use Rattle.init_machine.specs.declared.output.Output.TheVariants as output;
ghost use Rattle.init_machine.specs.declared.report.Entry.{Entry};
ghost use Rattle.init_machine.specs.declared.service.ServiceDef.{ServiceDef};
ghost use Rattle.machine_laws.specs.Counting.{counting_from};
ghost use Rattle.machine_laws.specs.Processes.{spawned_in, reaps, WasSpawned, Lives};
ghost use Rattle.machine_laws.specs.Rebooting.{outputs_of};

/// The pids of the processes that a legal history spawns count from 100, so none is given out twice. Where a process is
/// reaped, one of its pid and name was spawned before, and none of its pid was reaped before.
pub fn each_process_ends_once()
    ensures pids { (o : Opening) (history : List Entry) → Legal o history
        → flat_map spawned_in (outputs_of history)
        ≡ counting_from 99 (length (flat_map spawned_in (outputs_of history))) }
    ensures spawned { (o : Opening) (history : List Entry) (earlier later : List Output)
        (pid : Pid) (name : List ℕ) (how : How) → Legal o history
        → outputs_of history ≡ earlier ++ output.Reap pid name how ∷ later
        → WasSpawned earlier pid name }
    ensures once { (o : Opening) (history : List Entry) (earlier later : List Output)
        (pid : Pid) (name : List ℕ) (how : How) → Legal o history
        → outputs_of history ≡ earlier ++ output.Reap pid name how ∷ later
        → IsTrue (list_all (λ line. not (reaps pid line)) earlier) }
{}

/// After a legal history no two services have one process. Where the configuration is well-formed and the machine isn't
/// over, the process of a service lives and has its name, and each process of a service's name is the one of that service:
/// so a service has at most one. (A reboot in the middle of a reaping leaves services whose process has left the kernel.)
pub fn each_service_has_one_process()
    ensures apart { (o : Opening) (history : List Entry) (i j : ℕ) (pid : Pid) → Legal o history
        → (marks_at (after o (inputs_of history)) i).pid ≡ Some pid
        → (marks_at (after o (inputs_of history)) j).pid ≡ Some pid → i ≡ j }
    ensures lives { (o : Opening) (history : List Entry) (at : ℕ) (service : ServiceDef) (pid : Pid)
        → IsWellFormed o.config → Legal o history
        → (after o (inputs_of history)).over ≡ None
        → service_at (rules_of o.config o.policy) at ≡ Some service
        → (marks_at (after o (inputs_of history)) at).pid ≡ Some pid
        → Lives (after o (inputs_of history)).kernel pid service.name }
    ensures one { (o : Opening) (history : List Entry) (at : ℕ) (service : ServiceDef) (process : Process)
        → IsWellFormed o.config → Legal o history
        → (after o (inputs_of history)).over ≡ None
        → service_at (rules_of o.config o.policy) at ≡ Some service
        → Contains (after o (inputs_of history)).kernel.processes process
        → process.name ≡ service.name
        → (marks_at (after o (inputs_of history)) at).pid ≡ Some (pid_of process.pid) }
{}
