//! The plans of processes, each found by its path.

use crate::process::End;
use collections::TextIndex;
use init_base::{List, NoMemory};
use init_machine::Plan;
use std::alloc::Global;
use std::marker::Model;

/// Plans of paths that differ.
#[derive(Drop)]
pub(crate) struct Plans {
    plans: List<Plan>,
    paths: TextIndex,
}

impl Model for Plans {
    ghost use Rattle.std.specs.Prelude.{◌≡◌, List, IsTrue};
    ghost use Rattle.init_machine.specs.declared.config.Plan.{Plan};

    ghost Value = { List Plan };

    ghost use Rattle.model_kernel.specs.Kernel.{end_in_time, paths_of};

    ghost view = { λ plans. plans.plans };

    ghost invariant = { λ plans. (plans.paths ≡ paths_of plans.plans) × IsTrue (end_in_time plans.plans) };
}

impl Plans {
    ghost use Rattle.std.specs.Prelude.{◌≡◌, ◌≤◌, IsTrue, IfOk, OnSome, IfSome, find};
    ghost use Rattle.std.specs.Option.{option_copied, option_map};
    ghost use Rattle.std.specs.Str.{bytes_eq};
    ghost use Rattle.init_machine.specs.Kernel.{last_time, planned_end};
    ghost use Rattle.init_machine.specs.WellFormed.{are_distinct};
    ghost use Rattle.model_kernel.specs.Kernel.{end_in_time, paths_of};
    ghost use Rattle.model_kernel.specs.Parts.{end_of};

    pub(crate) fn new(alloc: Global, plans: List<Plan>) -> Result<Plans, NoMemory>
        requires paths { IsTrue (are_distinct (paths_of plans)) }
        requires ends { IsTrue (end_in_time plans) }
        ensures { IfOk result (λ made. made ≡ plans) }
    {
        let paths = index_paths(alloc, plans.items())?;
        Ok(Plans { plans, paths })
    }

    /// The plan of a path.
    #[tactic(auto, using(crate::proofs::PlanPlaces::ends_at))]
    fn find(&self, path: &[u8]) -> Option<&Plan>
        ensures plan { option_copied result ≡ find (λ plan. bytes_eq plan.path path.now) self.now }
        ensures time { IfSome result (λ plan. plan.now.after.0 ≤ last_time) }
    {
        match self.paths.place(path) {
            Some(at) => self.plans.at(at),
            None => None,
        }
    }

    /// When a process of a path that begins now exits, where that is planned.
    pub(crate) fn end(&self, now: u64, path: &[u8]) -> Option<End>
        requires { now ≤ last_time }
        ensures { option_map end_of result ≡ planned_end self.now now path.now }
    {
        let plan = self.find(path)?;
        Some(End {
            time: now + plan.after.0,
            status: plan.status,
        })
    }
}

ghost use Rattle.std.specs.Prelude.{◌≡◌, IsTrue, IfOk};
ghost use Rattle.init_machine.specs.WellFormed.{are_distinct};
ghost use Rattle.model_kernel.specs.Kernel.{paths_of};

/// The paths, each at the place of its plan.
fn index_paths(alloc: Global, plans: &[Plan]) -> Result<TextIndex, NoMemory>
    requires { IsTrue (are_distinct (paths_of plans.now)) }
    ensures { IfOk result (λ paths. paths ≡ paths_of plans.now) }
{
    let mut paths = TextIndex::new(alloc);
    for plan in plans {
        paths.add(plan.path.bytes())?;
    }
    Ok(paths)
}
