//! The property service: the documented machine over the words of a shared area, behind a lock.
//!
//! A `Desk` takes one input after another: it takes the reader of the input's client in, lets the core take the input, records
//! the entry, and hands the reader out again, which so has the request with its answer. It keeps no history; what it is to
//! contracts is told by the writer's record (`specs/Service.antt`). A `Service` is a desk with its history, and `Shared` is a
//! service behind its lock, which any number of threads may hold.
#![tactic(auto)]

mod answer;
mod area_name;
mod desk;
mod ending;
mod leaving;
mod request;
mod service;
mod shared;

pub use answer::Accepted;
pub use area_name::AreaName;
pub use desk::Desk;
pub use ending::{Closed, FinishRefusal, Finished};
pub use service::Service;
pub use shared::Shared;
