//! What holds of the report of each run.
//!
//! The law is the contract of a function without parameters and with an empty body. It speaks of the definitions alone: of the
//! report that `init_driver::run` promises to write, and of what `trace_audit::audit` answers.
#![tactic(auto)]

ghost use Rattle.std.specs.Prelude.{ℕ, List};
ghost use Rattle.init_machine.specs.State.{Opening};
ghost use Rattle.init_machine.specs.declared.diagnostic.Diagnostic.{Diagnostic};
ghost use Rattle.init_driver.specs.Run.{AsksAreMet, report_of};
ghost use Rattle.trace_audit.specs.Audited.{Audited};
ghost use Rattle.script_lang.specs.Script.{IsScript};
ghost use Rattle.script_lang.specs.declared.script.Script.{Script};

/// The report of a run is audited, whatever the opening and the script: its diagnostics are those that were found, its clients are
/// the script's, its history merges the parts of the script's actors and is legal, and of each client the readings answer its
/// requests, stand, and are in order with its sets. So the answer to the trace of a run is Yes. A script that was read from a
/// text meets what is asked here.
pub fn runs_are_audited()
    ensures met { (o : Opening) (found : List Diagnostic) (script : Script) → AsksAreMet script
        → Audited o found script (report_of o found script) }
    ensures read { (bytes : List ℕ) (o : Opening) (found : List Diagnostic) (script : Script) → IsScript bytes script
        → Audited o found script (report_of o found script) }
{}
