//! What is to be run or raced, or what a trace is held against: the script, the tree and the store are read, in this order, and the
//! first refusal ends it.

ghost use Rattle.std.specs.Prelude.{◌≡◌, ◌⊎◌, ℕ, map, IfErr, IfOk, IfSome};
ghost use Rattle.init_base.specs.Faults.{Counted};
ghost use Rattle.init_driver.specs.Keeper.{seen_by};
ghost use Rattle.init_machine.specs.WellFormed.{IsWellFormed};
ghost use Rattle.job_reader.specs.Counts.{counts_of};
ghost use Rattle.job_reader.specs.Endings.{IsRunStatus};
ghost use Rattle.job_reader.specs.Prepared.{ArePrepared, GivesSaved, GivesSetup, GivesTree, IsAsked, IsFit, IsJobFor, ScriptOfJob};
ghost use Rattle.job_reader.specs.Script.{ArePermitted};
ghost use Rattle.job_reader.specs.Stops.{IsOfStore, IsOfTree, has_read_fault, status_of};
ghost use Rattle.job_reader.specs.Tree.{IsWorldOf};
ghost use Rattle.rc_import.specs.World.{World};
ghost use Rattle.script_lang.specs.Laws.{MeetsConditions};

use crate::grammar::Grammar;
use crate::loading::load;
use crate::reading::{read_script, read_store};
use crate::stop::Stop;
use crate::texts::read_policy;
use init_base::{Files, Keeper, List, NoMemory, Source, Text, both};
use init_driver::Setup;
use init_machine::{Config, Pair, Plan};
use prop_contexts::Policy;
use rc_import::Loaded;
use script_lang::{Script, domains_of};
use std::alloc::Global;

/// What is to be run.
#[derive(Drop)]
pub struct Job {
    pub setup: Setup,
    pub script: Script,
}

/// What a tree gives a run.
#[derive(Drop)]
struct TreeParts {
    policy: Policy,
    loaded: Loaded,
}

/// Reads the policy, and then the build files and the rc files.
fn read_tree<F: Files>(alloc: Global, files: &mut F) -> Result<TreeParts, Stop>
    ensures tree { (world : World) → IsWorldOf (F.tree files.old) world → GivesTree world result }
    ensures kind { IfErr result IsOfTree }
    ensures well_formed { IfOk result (λ parts. IsWellFormed parts.loaded.config) }
    ensures cause { Counted (has_read_fault result) (F.fault_count files.old) (F.fault_count files.new) }
{
    let policy = read_policy(alloc, files)?;
    let loaded = load(alloc, files)?;
    Ok(TreeParts { policy, loaded })
}

/// The same plans once more.
fn copy_of(alloc: Global, plans: &[Plan]) -> Result<List<Plan>, NoMemory>
    ensures { IfOk result (λ copy. copy ≡ plans.now) }
{
    let mut copy = List::new(alloc);
    for plan in plans {
        copy.push(Plan {
            path: plan.path.share()?,
            after: plan.after,
            status: plan.status,
        })?;
    }
    Ok(copy)
}

/// Puts a job together.
fn job_of(
    alloc: Global,
    script: Script,
    parts: TreeParts,
    saved: List<Pair>,
) -> Result<Job, NoMemory>
    ensures { IfOk result (IsJobFor script parts saved) }
{
    let given = given_by(alloc, &script);
    let ((script, parts, saved), (plans, domains)) = both((script, parts, saved), given)?;
    let TreeParts { policy, loaded } = parts;
    let Loaded {
        config,
        diagnostics,
    } = loaded;
    let config = Config {
        plans,
        saved,
        domains,
        ..config
    };
    let setup = Setup {
        config,
        policy,
        diagnostics,
    };
    Ok(Job { setup, script })
}

/// The plans and the domains that a script gives a configuration.
fn given_by(alloc: Global, script: &Script) -> Result<(List<Plan>, List<Text>), NoMemory>
    ensures { IfOk result (λ given. (given.0 ≡ script.now.plans) × (given.1 ≡ map (λ client. client.domain) script.now.clients)) }
{
    let plans = copy_of(alloc, script.plans.items())?;
    both(plans, domains_of(alloc, script.clients.items()))
}

/// Reads the script by a grammar, the tree and the store.
pub fn prepare<F: Files, S: Source, P: Keeper>(
    alloc: Global,
    grammar: Grammar,
    files: &mut F,
    source: &mut S,
    keeper: &mut P,
) -> Result<Job, Stop>
    ensures script { IfSome (S.left source.old) (λ bytes. ScriptOfJob grammar bytes (S.left source.new) result) }
    ensures permitted { IfOk result (λ job. ArePermitted grammar job.script) }
    ensures tree { (world : World) → IsWorldOf (F.tree files.old) world → GivesSetup world result }
    ensures store { IfSome (P.held keeper.old) (λ held. GivesSaved held result) }
    ensures fit { IfOk result IsFit }
    ensures held { P.held keeper.new ≡ P.held keeper.old }
    ensures asked { let seen = seen_by P.held P.TellsCrash P.moment P.MayLeave in IsAsked result (seen keeper.old) (seen keeper.new) }
    ensures kind { IfErr result (λ why. IsRunStatus (status_of why)) }
    ensures counts { (trace out : ℕ) → ArePrepared result
        (counts_of (F.fault_count files.old) (S.fault_count source.old) trace (P.fault_count keeper.old) out)
        (counts_of (F.fault_count files.new) (S.fault_count source.new) trace (P.fault_count keeper.new) out) }
{
    let script = read_script(alloc, grammar, source)?;
    prepare_with(alloc, script, files, keeper)
}

/// Reads the tree and the store, for a script that is given.
pub fn prepare_with<F: Files, P: Keeper>(
    alloc: Global,
    script: Script,
    files: &mut F,
    keeper: &mut P,
) -> Result<Job, Stop>
    requires conditions { MeetsConditions script }
    ensures script { IfOk result (λ job. job.script ≡ script) }
    ensures tree { (world : World) → IsWorldOf (F.tree files.old) world → GivesSetup world result }
    ensures store { IfSome (P.held keeper.old) (λ held. GivesSaved held result) }
    ensures fit { IfOk result IsFit }
    ensures held { P.held keeper.new ≡ P.held keeper.old }
    ensures asked { let seen = seen_by P.held P.TellsCrash P.moment P.MayLeave in IsAsked result (seen keeper.old) (seen keeper.new) }
    ensures kind { IfErr result (λ why. IsOfTree why ⊎ IsOfStore why) }
    ensures counts { (script trace out : ℕ) → ArePrepared result
        (counts_of (F.fault_count files.old) script trace (P.fault_count keeper.old) out)
        (counts_of (F.fault_count files.new) script trace (P.fault_count keeper.new) out) }
{
    let parts = match read_tree(alloc, files) {
        Ok(parts) => parts,
        Err(why) => {
            drop(script);
            return Err(why);
        }
    };
    let saved = match read_store(alloc, keeper) {
        Ok(saved) => saved,
        Err(why) => {
            drop(script);
            drop(parts);
            return Err(why);
        }
    };
    Ok(job_of(alloc, script, parts, saved)?)
}
