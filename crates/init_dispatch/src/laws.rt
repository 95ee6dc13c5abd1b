//! What holds of the report of each dispatched script. The law speaks of the definitions alone.

ghost use Rattle.std.specs.Prelude.{ℕ, All, List};
ghost use Rattle.init_dispatch.specs.Dispatched.{IsDispatched, IsRunOfOrder};
ghost use Rattle.init_driver.specs.Run.{AsksAreMet};
ghost use Rattle.init_machine.specs.State.{Opening};
ghost use Rattle.init_machine.specs.declared.diagnostic.Diagnostic.{Diagnostic};
ghost use Rattle.init_machine.specs.declared.report.Report.{Report};
ghost use Rattle.script_lang.specs.Sets.{IsScriptOfSets, IsSetOrMain};
ghost use Rattle.script_lang.specs.declared.script.Script.{Script};

/// The report of a dispatched script is that of a run (`init_driver::run`) of the same script in another order: first the main
/// actor's acts, and then the clients' sets, each client's in its order. A script that was read from a text whose clients only set
/// meets what is asked here.
pub fn each_dispatch_is_a_run()
    ensures met { (o : Opening) (found : List Diagnostic) (script : Script) (report : Report) → AsksAreMet script
        → All IsSetOrMain script.acts → IsDispatched o found script report → IsRunOfOrder o found script report }
    ensures read { (bytes : List ℕ) (o : Opening) (found : List Diagnostic) (script : Script) (report : Report)
        → IsScriptOfSets bytes script → IsDispatched o found script report → IsRunOfOrder o found script report }
{}
