//! Tests of the shared area's crates, through their public calls: worked values, and what only a call can show.
#![tactic(auto)]

#[cfg(test)]
mod area;
#[cfg(test)]
mod cell;
