//! The rules of properties: expansion in a text, the pairs of build files, and the types of values.
//!
//! `expand` answers exactly `expand` of `init_machine`'s `specs/Expand.antt` over the map of any store, and `check_type`
//! exactly `is_typed` of its `specs/Typed.antt`.
#![tactic(auto)]

mod build;
mod expansion;
mod piece;
mod types;
mod value;
mod view;

pub use build::{BuildProps, build_props};
pub use expansion::{ExpandRefusal, expand, stands_for_itself};
pub use types::check_type;
pub use value::look_up;
pub use view::boot_view;
