//! Scripts: what the machine is opened with, and what is asked of it, act by act.
//!
//! `read` answers a script exactly where the bytes are the text of one, as `IsScript` of `specs/Script.antt` says, and
//! else the limit that they pass or the first bad line. `read_sets` does so for scripts whose clients only set, as
//! `specs/Sets.antt` says. `specs/Inputs.antt` has the inputs of a script, in the order of its lines and actor by actor.
//!
//! `generate` makes the texts of a boot of so many services, as `specs/Generated.antt` says: a tree and the script over it.
#![tactic(auto)]

mod build;
mod fault;
mod gather;
mod generator;
mod laws;
mod number;
mod order;
mod reader;
mod reading;
mod refusal;
mod script;
mod statement;
mod words;

pub use fault::Fault;
pub use gather::first_line;
pub use generator::{Generated, generate};
pub use laws::{
    each_text_has_one_reading, inputs_are_those_of_the_parts, scripts_meet_conditions,
    statements_are_written_in_one_way,
};
pub use number::{decimal, is_canonical};
pub use reader::{read, read_sets};
pub use reading::{is_permitted, says_nothing};
pub use refusal::ScriptRefusal;
pub use script::{Act, Ask, Client, Script, domains_of};
pub use words::{all_words, first_word};
