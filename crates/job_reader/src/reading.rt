//! The readers that read one text of the outside whole: that of the script, that of the persistent store, and that of a trace.

ghost use Rattle.std.specs.Prelude.{◌≡◌, IfErr, IfOk, IfSome, IsTrue, Some, [], false};
ghost use Rattle.init_base.specs.Faults.{Counted};
ghost use Rattle.init_driver.specs.Keeper.{seen_by};
ghost use Rattle.job_reader.specs.Prepared.{IsAsked};
ghost use Rattle.job_reader.specs.Script.{ArePermitted};
ghost use Rattle.job_reader.specs.Stops.{GivesScript, GivesStore, GivesTrace, IsOfScript, IsOfStore, IsOfTrace, has_read_fault};
ghost use Rattle.persist_file.specs.Store.{are_saved};
ghost use Rattle.script_lang.specs.Laws.{MeetsConditions};

use crate::grammar::Grammar;
use crate::stop::Stop;
use init_base::{Keeper, List, Source, Text, read_all};
use init_machine::{Limit, Pair};
use script_lang::Script;
use std::alloc::Global;

/// The most bytes of a script.
const MOST_SCRIPT_BYTES: usize = 16_777_216;

/// The most bytes of a persistent store.
const MOST_STORE_BYTES: usize = 33_554_432;

/// The most bytes of a trace.
const MOST_TRACE_BYTES: usize = 67_108_864;

/// Reads the source to its end: the script of its bytes, by a grammar.
pub fn read_script<S: Source>(
    alloc: Global,
    grammar: Grammar,
    source: &mut S,
) -> Result<Script, Stop>
    ensures script { IfSome (S.left source.old) (λ bytes. GivesScript grammar bytes (S.left source.new) result) }
    ensures conditions { IfOk result MeetsConditions }
    ensures permitted { IfOk result (ArePermitted grammar) }
    ensures early { IfErr result IsOfScript }
    ensures cause { Counted (has_read_fault result) (S.fault_count source.old) (S.fault_count source.new) }
{
    match read_all(alloc, source, MOST_SCRIPT_BYTES) {
        Ok(text) => script_in(alloc, grammar, text.bytes()),
        Err(refusal) => Err(Stop::of_reading(refusal, Limit::ScriptBytes, MOST_SCRIPT_BYTES)),
    }
}

/// The script of the bytes, by a grammar.
fn script_in(alloc: Global, grammar: Grammar, bytes: &[u8]) -> Result<Script, Stop>
    ensures script { GivesScript grammar bytes.now (Some []) result }
    ensures conditions { IfOk result MeetsConditions }
    ensures permitted { IfOk result (ArePermitted grammar) }
    ensures early { IfErr result IsOfScript }
    ensures fault { has_read_fault result ≡ false }
{
    match grammar {
        Grammar::Whole => Ok(script_lang::read(alloc, bytes)?),
        Grammar::Sets => Ok(script_lang::read_sets(alloc, bytes)?),
    }
}

/// Loads what the keeper holds: the pairs of the persistent store.
pub fn read_store<P: Keeper>(alloc: Global, keeper: &mut P) -> Result<List<Pair>, Stop>
    ensures store { IfSome (P.held keeper.old) (λ held. GivesStore held result) }
    ensures saved { IfOk result (λ saved. IsTrue (are_saved saved)) }
    ensures late { IfErr result IsOfStore }
    ensures held { P.held keeper.new ≡ P.held keeper.old }
    ensures asked { let seen = seen_by P.held P.TellsCrash P.moment P.MayLeave in IsAsked result (seen keeper.old) (seen keeper.new) }
    ensures cause { Counted (has_read_fault result) (P.fault_count keeper.old) (P.fault_count keeper.new) }
{
    match keeper.load(alloc, MOST_STORE_BYTES) {
        Ok(text) => Ok(persist_file::read(alloc, text.bytes())?),
        Err(refusal) => Err(Stop::of_reading(refusal, Limit::StoreBytes, MOST_STORE_BYTES)),
    }
}

/// Reads the source to its end: the text of a trace.
pub fn read_trace<T: Source>(alloc: Global, source: &mut T) -> Result<Text, Stop>
    ensures trace { IfSome (T.left source.old) (λ bytes. GivesTrace bytes (T.left source.new) result) }
    ensures last { IfErr result IsOfTrace }
    ensures cause { Counted (has_read_fault result) (T.fault_count source.old) (T.fault_count source.new) }
{
    match read_all(alloc, source, MOST_TRACE_BYTES) {
        Ok(text) => Ok(text),
        Err(refusal) => Err(Stop::of_reading(refusal, Limit::TraceBytes, MOST_TRACE_BYTES)),
    }
}
