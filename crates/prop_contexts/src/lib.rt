//! The policy of property sets: which context each property has, and which domains may set the properties of a context.
//!
//! `Policy::read` reads the contexts text and the allow text, or says which line is the first that doesn't fit. The form
//! of the texts is in `specs/Lines.antt`, `specs/Contexts.antt` and `specs/Allows.antt`, what a policy is in
//! `specs/Grammar.antt`; what the look-ups answer is `context_of` and `is_allowed` of init_machine.
#![tactic(auto)]

mod allow_line;
mod allowances;
mod allows;
mod context_line;
mod contexts;
mod digest_set;
mod laws;
mod line;
mod name_lengths;
mod names;
mod policy;
mod refusal;

pub use init_machine::{AllowLine, Context, PolicyView};
pub use laws::{documented_contexts, each_text_has_one_reading};
pub use line::{all_words, first_word, is_comment};
pub use policy::Policy;
pub use refusal::PolicyRefusal;
