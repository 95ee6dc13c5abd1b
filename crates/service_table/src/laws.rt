//! Laws of the table of marks, each the contract of a function that does nothing. They are stated in `specs/Laws.antt`.

ghost use Rattle.service_table.specs.Laws.{StoppedStaysOff, ResetStartsWithItsClass, DisabledStaysOff, OneshotRunsOnce, OthersRestart, RestartRestarts, StartUndoesStop, OneProcess, KilledOnce};

/// A service that was stopped is off when its process has ended, and its class doesn't start it.
#[tactic(auto, using(crate::proofs::Cells::stopped_stays_off))]
pub fn stopped_stays_off()
    ensures { StoppedStaysOff }
{}

/// A service that was reset is off when its process has ended, and its class starts it, also where it is oneshot.
#[tactic(auto, using(crate::proofs::Cells::reset_starts_with_its_class))]
pub fn reset_starts_with_its_class()
    ensures { ResetStartsWithItsClass }
{}

/// A service that is declared disabled and was reset is off when its process has ended, and its class doesn't start it.
#[tactic(auto, using(crate::proofs::Cells::disabled_stays_off))]
pub fn disabled_stays_off()
    ensures { DisabledStaysOff }
{}

/// A oneshot service that isn't restarted or reset is off when its process has ended, and its class doesn't start it
/// again.
#[tactic(auto, using(crate::proofs::Cells::oneshot_runs_once))]
pub fn oneshot_runs_once()
    ensures { OneshotRunsOnce }
{}

/// A service that is none of disabled, oneshot and reset is restarted when its process has ended.
#[tactic(auto, using(crate::proofs::Cells::others_restart))]
pub fn others_restart()
    ensures { OthersRestart }
{}

/// A service that was told to restart is restarted when its process has ended, also where it is oneshot or was stopped.
#[tactic(auto, using(crate::proofs::Cells::restart_restarts))]
pub fn restart_restarts()
    ensures { RestartRestarts }
{}

/// A service that was stopped and then started, while its process still runs, is restarted when that process has ended.
#[tactic(auto, using(crate::proofs::Cells::start_undoes_stop))]
pub fn start_undoes_stop()
    ensures { StartUndoesStop }
{}

/// No operation spawns a second process of a service.
#[tactic(auto, using(crate::proofs::Cells::one_process))]
pub fn one_process()
    ensures { OneProcess }
{}

/// No operation kills a process that was killed.
#[tactic(auto, using(crate::proofs::Cells::killed_once))]
pub fn killed_once()
    ensures { KilledOnce }
{}
