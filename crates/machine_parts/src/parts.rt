//! The parts of the machine's state. `state_of` of `specs/Parts.antt` says what they stand for.

use crate::environment::Environment;
use crate::saved::Saved;
use crate::schedule::Schedule;
use init_base::Text;
use init_machine::{PropStore, Waiting};
use model_fs::Tree;
use model_kernel::Kernel;
use outputs::Outputs;
use prop_contexts::Policy;
use services::Services;

/// The state of the machine, with the properties in any store, and what its lines are told to.
#[derive(Drop)]
pub struct Parts<S: PropStore, O: Outputs> {
    pub store: S,
    pub queue: Schedule,
    pub services: Services,
    pub kernel: Kernel,
    pub tree: Tree,
    pub policy: Policy,
    pub environment: Environment,
    pub saved: Saved,
    /// Whether sets of persistent properties are saved.
    pub saving: bool,
    pub waits: Option<Waiting>,
    /// The target of the reboot by which the machine is over.
    pub over: Option<Text>,
    pub outputs: O,
}
