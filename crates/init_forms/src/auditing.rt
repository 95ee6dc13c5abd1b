//! `audit`: whether the documented machine can have written a trace.

ghost use Rattle.std.specs.Prelude.{◌≡◌, ℕ, IfErr, IfOk, IfSome, List as Items, Some};
ghost use Rattle.init_base.specs.Faults.{Counted};
ghost use Rattle.init_driver.specs.Keeper.{seen_by};
ghost use Rattle.command_line.specs.declared.form.Form.TheVariants as Form;
ghost use Rattle.init_forms.specs.internal.Judging.{JudgesText, ending_of};
ghost use Rattle.init_forms.specs.Outcome.{Ends, IsJudged, TellRun, Told, shown_as, sources_of};
ghost use Rattle.init_forms.specs.Top.{IsAsBefore};
ghost use Rattle.init_forms.specs.Verdict.{IsVerdictOn};
ghost use Rattle.job_reader.specs.Counts.{AreCounted, counts_of};
ghost use Rattle.job_reader.specs.Endings.{IsAuditStatus};
ghost use Rattle.job_reader.specs.Prepared.{IsAsked, IsFit, course_of};
ghost use Rattle.job_reader.specs.Script.{ScriptSays};
ghost use Rattle.job_reader.specs.Stops.{IsOfTrace, has_read_fault};
ghost use Rattle.job_reader.specs.Store.{StoreSays};
ghost use Rattle.job_reader.specs.Trace.{TraceSays};
ghost use Rattle.job_reader.specs.Tree.{IsWorldOf, TreeSays};
ghost use Rattle.job_reader.specs.Tree.Purpose.{ToRun};
ghost use Rattle.job_reader.specs.declared.grammar.Grammar.TheVariants.{Whole};
ghost use Rattle.rc_import.specs.World.{World};

use crate::verdict::write_verdict;
use init_base::{Files, Keeper, Sink, Source};
use init_driver::Setup;
use job_reader::{Grammar, Job, Status, Stop, prepare, read_trace};
use std::alloc::Global;
use trace_audit::{Verdict, audit_text};

/// The verdict on a trace's text, by what a run would go by.
fn judge_text(alloc: Global, job: Job, text: &[u8]) -> Result<Verdict, Stop>
    requires { IsFit job }
    ensures { JudgesText (course_of job) text.now result }
{
    let Job { setup, script } = job;
    let Setup {
        config,
        policy,
        diagnostics,
    } = setup;
    Ok(audit_text(alloc, config, policy, &diagnostics, &script, text)?)
}

/// Reads the trace, and judges it by what a run would go by.
fn judge_trace<T: Source>(alloc: Global, job: Job, trace: &mut T) -> Result<Verdict, Stop>
    requires { IsFit job }
    ensures trace { IfSome (T.left trace.old) (λ bytes. TraceSays bytes (T.left trace.new) (ending_of result)) }
    ensures said { IfSome (T.left trace.old) (λ bytes. IfOk result (IsVerdictOn (course_of job) bytes)) }
    ensures last { IfErr result IsOfTrace }
    ensures cause { Counted (has_read_fault result) (T.fault_count trace.old) (T.fault_count trace.new) }
{
    match read_trace(alloc, trace) {
        Ok(text) => judge_text(alloc, job, text.bytes()),
        Err(stop) => Err(stop),
    }
}

/// Reads the script, the tree, the store and the trace, in this order, and judges the trace.
fn judge<F: Files, S: Source, T: Source, P: Keeper>(
    alloc: Global,
    files: &mut F,
    script: &mut S,
    trace: &mut T,
    keeper: &mut P,
) -> Result<Verdict, Stop>
    ensures script { IfSome (S.left script.old) (λ bytes. ScriptSays Whole bytes (S.left script.new) (ending_of result)) }
    ensures tree { (world : World) → IsWorldOf (F.tree files.old) world → TreeSays ToRun world (ending_of result) }
    ensures store { IfSome (P.held keeper.old) (λ held. StoreSays held (ending_of result)) }
    ensures trace { IfSome (T.left trace.old) (λ bytes. TraceSays bytes (T.left trace.new) (ending_of result)) }
    ensures judged { (told : Told) →
        TellRun (sources_of (S.left script.old) (F.tree files.old) (P.held keeper.old) (T.left trace.old)) told →
        T.left trace.old ≡ Some told.trace → IfOk result (IsJudged told) }
    ensures held { P.held keeper.new ≡ P.held keeper.old }
    ensures asked { let seen = seen_by P.held P.TellsCrash P.moment P.MayLeave in IsAsked result (seen keeper.old) (seen keeper.new) }
    ensures counts { (out : ℕ) → AreCounted (ending_of result)
        (counts_of (F.fault_count files.old) (S.fault_count script.old) (T.fault_count trace.old) (P.fault_count keeper.old) out)
        (counts_of (F.fault_count files.new) (S.fault_count script.new) (T.fault_count trace.new) (P.fault_count keeper.new) out) }
{
    let job = prepare(alloc, Grammar::Whole, files, script, keeper)?;
    judge_trace(alloc, job, trace)
}

/// `audit`: reads what a run reads, and then the trace, and writes whether the machine can have written it.
pub fn audit_trace<F: Files, S: Source, T: Source, P: Keeper, K: Sink>(
    alloc: Global,
    files: &mut F,
    script: &mut S,
    trace: &mut T,
    keeper: &mut P,
    out: &mut K,
) -> Status
    ensures script { IfSome (S.left script.old) (λ bytes. ScriptSays Whole bytes (S.left script.new) result) }
    ensures tree { (world : World) → IsWorldOf (F.tree files.old) world → TreeSays ToRun world result }
    ensures store { IfSome (P.held keeper.old) (λ held. StoreSays held result) }
    ensures trace { IfSome (T.left trace.old) (λ bytes. TraceSays bytes (T.left trace.new) result) }
    ensures ends { let seen = seen_by P.held P.TellsCrash P.moment P.MayLeave in
        (told : Told) →
        TellRun (sources_of (S.left script.old) (F.tree files.old) (P.held keeper.old) (T.left trace.old)) told →
        T.left trace.old ≡ Some told.trace →
        Ends (Some Form.Audit) told result (shown_as (K.taken out.old) (K.taken out.new) (seen keeper.old) (seen keeper.new)) }
    ensures counts { AreCounted result
        (counts_of (F.fault_count files.old) (S.fault_count script.old) (T.fault_count trace.old)
        (P.fault_count keeper.old) (K.fault_count out.old))
        (counts_of (F.fault_count files.new) (S.fault_count script.new) (T.fault_count trace.new)
        (P.fault_count keeper.new) (K.fault_count out.new)) }
    ensures unwritten { IsAsBefore (K.taken out.old) (K.taken out.new) result (P.fault_count keeper.old) (P.fault_count keeper.new) }
    ensures held { P.held keeper.new ≡ P.held keeper.old }
    ensures formed { IsAuditStatus result }
{
    match judge(alloc, files, script, trace, keeper) {
        Ok(verdict) => write_verdict(alloc, verdict, out),
        Err(stop) => stop.status(),
    }
}
