//! The plain data of init: actions, services, inputs, outputs, histories; and `PropStore`, what a store of
//! properties is to the layers above.
//!
//! `specs/` has the definitions of the documented machine over these types: `State`, `Matches`, `Effect`, `Step`,
//! `History`. A store's meaning is a finite map from names to values and numbers; `put` changes it
//! at one name alone, and can't fail behind `room` and `reserve`. `room.rt` has the tests of room that stores share; the plain
//! store is the crate `list_store`.
#![tactic(auto)]

mod action;
mod arity;
mod client;
mod config;
mod diagnostic;
mod event;
mod input;
mod laws;
mod limit;
mod look_up;
mod node;
mod number;
mod output;
mod policy;
mod report;
mod room;
mod service;
mod store;
mod task;
mod type_kind;
mod waiting;
mod word;

pub use action::{Action, Command, CommandRef, PropTest};
pub use arity::Arity;
pub use client::{ClientItem, ClientRequest};
pub use config::{Config, Pair, Plan};
pub use diagnostic::{DiagKind, Diagnostic};
pub use event::Event;
pub use input::Input;
pub use laws::{
    absent_takes_its_need, adds_its_new_nodes, each_word_has_its_text, held_needs_nothing,
    held_takes_nothing, order_is_free,
};
pub use limit::Limit;
pub use look_up::has_value;
pub use node::Node;
pub use number::decimal;
pub use output::{Cause, FsRefusal, How, Output, SetRefusal};
pub use policy::{AllowLine, Context, PolicyView};
pub use report::{ClientPart, Entry, Reading, Report};
pub use room::{cell_words, check_numbers, check_room, has_room_for_any};
pub use service::{Critical, Marks, Move, Op, ServiceDef};
pub use store::{Full, PropStore};
pub use task::{Done, Task, TreeCall};
pub use type_kind::TypeKind;
pub use waiting::Waiting;
pub use word::{InertWord, WORDS, Word};
