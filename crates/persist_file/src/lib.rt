//! The text of the persistent store: `read` gives the saved pairs of a text of either version, or the first line that doesn't fit and
//! why; `print` gives the version 2 text of pairs. The form is in `specs/Store.antt`, the causes are in `specs/Causes.antt`.
#![tactic(auto)]

mod kind;
mod laws;
mod printing;
mod reading;
mod refusal;
mod value;
mod version;
mod words;

pub use laws::{each_text_has_one_reading, printing_undoes_reading};
pub use printing::print;
pub use reading::{is_legal, read};
pub use refusal::{StoreCause, StoreRefusal};
pub use value::value_in;
pub use version::{Version, version_of};
pub use words::{Words, words_in};
