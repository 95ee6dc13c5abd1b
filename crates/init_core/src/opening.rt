//! `Opened`: what of a machine takes memory when it is opened.

ghost use Rattle.std.specs.Prelude.{◌≡◌, IsTrue, IfOk, map};
ghost use Rattle.std.specs.List.{list_all};
ghost use Rattle.action_queue.specs.Queue.{is_well_formed};
ghost use Rattle.init_machine.specs.WellFormed.{are_distinct};
ghost use Rattle.model_kernel.specs.Kernel.{end_in_time, paths_of};
ghost use Rattle.init_core.specs.Opened.{first_parts, opened_by};

use init_base::{List, NoMemory, both};
use init_machine::{Action, Plan, PropStore, ServiceDef};
use machine_parts::{Environment, Parts, Saved, Schedule};
use model_fs::Tree;
use model_kernel::Kernel;
use outputs::Outputs;
use prop_contexts::Policy;
use services::Services;
use std::alloc::Global;

/// The pid of the first process.
const FIRST_PID: u32 = 100;

/// The queue, the services, the kernel and the tree of a machine.
#[derive(Drop)]
pub struct Opened {
    queue: Schedule,
    services: Services,
    kernel: Kernel,
    tree: Tree,
}

impl Opened {
    /// Nothing waits or runs, no service was started, and no process and no file was made.
    pub fn new(
        alloc: Global,
        actions: List<Action>,
        services: List<ServiceDef>,
        plans: List<Plan>,
    ) -> Result<Opened, NoMemory>
        requires actions { IsTrue (list_all is_well_formed actions) }
        requires services { IsTrue (are_distinct (map (λ service. service.name) services)) }
        requires paths { IsTrue (are_distinct (paths_of plans)) }
        requires ends { IsTrue (end_in_time plans) }
        ensures { IfOk result (λ opened. opened ≡ opened_by actions services plans) }
    {
        let queue = Schedule::new(alloc, actions)?;
        let (queue, services) = both(queue, Services::new(alloc, services))?;
        let (init, kernel) = both((queue, services), Kernel::new(alloc, FIRST_PID, plans))?;
        let ((init, kernel), tree) = both((init, kernel), Tree::new(alloc))?;
        let (queue, services) = init;
        Ok(Opened {
            queue,
            services,
            kernel,
            tree,
        })
    }

    /// The parts of a machine of this store and this policy, with these pairs to be saved.
    pub fn into_parts<S: PropStore, O: Outputs>(
        self,
        alloc: Global,
        store: S,
        policy: Policy,
        saved: Saved,
        outputs: O,
    ) -> Parts<S, O>
        ensures { result ≡ first_parts self store policy saved outputs }
    {
        Parts {
            store,
            queue: self.queue,
            services: self.services,
            kernel: self.kernel,
            tree: self.tree,
            policy,
            environment: Environment::new(alloc),
            saved,
            saving: false,
            waits: None,
            over: None,
            outputs,
        }
    }
}
