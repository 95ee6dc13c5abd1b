//! Worked histories of the documented machine: for each a function whose contract says that the definitions, run on a
//! closed opening and inputs, give exactly the documented outputs.
#![tactic(auto)]

ghost use Rattle.machine_examples.specs.Clients.{AreaFull, ContextsAndTypes, PersistentStore, PolicyRefusals};
ghost use Rattle.machine_examples.specs.Critical.{CriticalReboots};
ghost use Rattle.machine_examples.specs.Endings.{KernelEnds, OneshotExitsAndNoProcess, OnrestartRestartsDueService, OnrestartSets, TimeoutKills};
ghost use Rattle.machine_examples.specs.Files.{TreeCommands};
ghost use Rattle.machine_examples.specs.Restarts.{RestartCountsFromStart, ResetStopAndOneshot};
ghost use Rattle.machine_examples.specs.Triggers.{BootEventWithPropertyTest, ChargerBoot, EmptyRootIdles, EventActionDoesNotWait, ExpansionForms, OtherTestsAtTake, TriggerReachesSecondAction, TwoPropertyTrigger};
ghost use Rattle.machine_examples.specs.Waits.{ExecAndWaitForProp, ExecStartWaits, WaitForFile};

/// A process that ended by its plan is restarted a period after its start.
#[tactic(auto, unfolding(crate::specs::Run::computing))]
pub fn restart_counts_from_start()
    ensures { RestartCountsFromStart }
{}

/// The fifth exit of a critical service within its window reboots.
#[tactic(auto, unfolding(crate::specs::Run::computing))]
pub fn critical_reboots()
    ensures { CriticalReboots }
{}

/// Resets, stops, and oneshot services.
#[tactic(auto, unfolding(crate::specs::Run::computing))]
pub fn reset_stop_and_oneshot()
    ensures { ResetStopAndOneshot }
{}

/// `exec_start` waits for its child.
#[tactic(auto, unfolding(crate::specs::Run::computing))]
pub fn exec_start_waits()
    ensures { ExecStartWaits }
{}

/// Waits for files.
#[tactic(auto, unfolding(crate::specs::Run::computing))]
pub fn wait_for_file()
    ensures { WaitForFile }
{}

/// A root file without actions: init takes the events of the boot, and is idle.
#[tactic(auto, unfolding(crate::specs::Run::computing))]
pub fn empty_root_idles()
    ensures { EmptyRootIdles }
{}

/// An action of `late-init` triggers `boot`, whose action sets a property.
#[tactic(auto, unfolding(crate::specs::Run::computing))]
pub fn trigger_reaches_second_action()
    ensures { TriggerReachesSecondAction }
{}

/// An event trigger with a property test that holds.
#[tactic(auto, unfolding(crate::specs::Run::computing))]
pub fn boot_event_with_property_test()
    ensures { BootEventWithPropertyTest }
{}

/// An event trigger with a property test that holds only later.
#[tactic(auto, unfolding(crate::specs::Run::computing))]
pub fn event_action_does_not_wait()
    ensures { EventActionDoesNotWait }
{}

/// A trigger of two properties.
#[tactic(auto, unfolding(crate::specs::Run::computing))]
pub fn two_property_trigger()
    ensures { TwoPropertyTrigger }
{}

/// Tests of other properties are held when the event is taken.
#[tactic(auto, unfolding(crate::specs::Run::computing))]
pub fn other_tests_at_take()
    ensures { OtherTestsAtTake }
{}

/// A device that charges.
#[tactic(auto, unfolding(crate::specs::Run::computing))]
pub fn charger_boot()
    ensures { ChargerBoot }
{}

/// The forms of expansion.
#[tactic(auto, unfolding(crate::specs::Run::computing))]
pub fn expansion_forms()
    ensures { ExpansionForms }
{}

/// A oneshot service ends, and a second exit finds no process.
#[tactic(auto, unfolding(crate::specs::Run::computing))]
pub fn oneshot_exits_and_no_process()
    ensures { OneshotExitsAndNoProcess }
{}

/// A service that has run for its timeout is killed.
#[tactic(auto, unfolding(crate::specs::Run::computing))]
pub fn timeout_kills()
    ensures { TimeoutKills }
{}

/// The commands of `onrestart` run when a service is to be restarted.
#[tactic(auto, unfolding(crate::specs::Run::computing))]
pub fn onrestart_sets()
    ensures { OnrestartSets }
{}

/// `onrestart` restarts a service whose process has ended at the same time.
#[tactic(auto, unfolding(crate::specs::Run::computing))]
pub fn onrestart_restarts_due_service()
    ensures { OnrestartRestartsDueService }
{}

/// The last pid and the last time.
#[tactic(auto, unfolding(crate::specs::Run::computing))]
pub fn kernel_ends()
    ensures { KernelEnds }
{}

/// Commands on the file tree.
#[tactic(auto, unfolding(crate::specs::Run::computing))]
pub fn tree_commands()
    ensures { TreeCommands }
{}

/// `exec` and `wait_for_prop`.
#[tactic(auto, unfolding(crate::specs::Run::computing))]
pub fn exec_and_wait_for_prop()
    ensures { ExecAndWaitForProp }
{}

/// Sets that the policy refuses.
#[tactic(auto, unfolding(crate::specs::Run::computing))]
pub fn policy_refusals()
    ensures { PolicyRefusals }
{}

/// An area that is full.
#[tactic(auto, unfolding(crate::specs::Run::computing))]
pub fn area_full()
    ensures { AreaFull }
{}

/// The persistent store is loaded and written.
#[tactic(auto, unfolding(crate::specs::Run::computing))]
pub fn persistent_store()
    ensures { PersistentStore }
{}

/// Contexts of names, and types of values.
#[tactic(auto, unfolding(crate::specs::Run::computing))]
pub fn contexts_and_types()
    ensures { ContextsAndTypes }
{}
