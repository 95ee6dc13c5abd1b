//! Why a script, a policy or a store is refused: what is wrong with the line that its reader answers, in the words of the format.
//!
//! The readers answer the number of the first bad line alone. These calls are given the text once more, with that number, and
//! say what is wrong there. What each cause says of the line is in `specs/`.
#![tactic(auto)]

mod lines;
mod policy;
mod said;
mod script;
mod store;

pub use policy::cause::{AllowCause, ContextCause};
pub use policy::{allow_cause, context_cause};
pub use said::quoted::ShownPath;
pub use script::cause::ScriptCause;
pub use script::script_cause;
pub use store::cause::StoreFault;
pub use store::store_cause;
