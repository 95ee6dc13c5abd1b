//! Texts, lists, property names and values, and the traits of the outside: where bytes come from and go to.
//!
//! A `PropName` and a `PropValue` are legal by their types, and `Failed` is answered only where the count of
//! faults of the object that was called rose. The definitions stand in `specs/`.
#![tactic(auto)]

mod adapters;
mod byte_test;
mod comparing;
mod early_ends;
mod fifo;
mod in_memory;
mod lines;
mod list;
mod memory;
mod name;
mod outside;
mod q_form;
mod reading;
mod shared_list;
mod text;
mod units;
mod value;
mod value_buffer;

pub use adapters::fault::Fault;
pub use adapters::files::StdFiles;
pub use adapters::keeper::StdKeeper;
pub use adapters::machine::read_some;
pub use adapters::sink::StdSink;
pub use adapters::source::StdSource;
pub use comparing::same_bytes;
pub use early_ends::{both, unless};
pub use fifo::Fifo;
pub use in_memory::files::{MemFiles, SteadyFiles};
pub use in_memory::keeper::{MemKeeper, SteadyKeeper};
pub use in_memory::plan::FailPlan;
pub use in_memory::sink::{MemSink, SteadySink};
pub use in_memory::source::{MemSource, SteadySource, copy_front};
pub use lines::first_line;
pub use list::List;
pub use memory::NoMemory;
pub use name::PropName;
pub use outside::files::Files;
pub use outside::keeper::Keeper;
pub use outside::refusal::{Failed, Found, IoRefusal, ReadRefusal};
pub use outside::sink::Sink;
pub use outside::source::Source;
pub use q_form::{are_plain, is_plain, one_q_form, unquoted};
pub use reading::read_all;
pub use shared_list::SharedList;
pub use text::Text;
pub use units::{ClientId, Millis, Pid};
pub use value::{BadValue, PropValue};
pub use value_buffer::ValueBuffer;
