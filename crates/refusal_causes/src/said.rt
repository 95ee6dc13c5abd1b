//! What causes print: one line each, without the line's end. Words stand in double quotes.

mod count;
mod policy;
pub mod quoted;
mod script;
mod store;
