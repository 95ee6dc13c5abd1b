//! Tests of the machine's crates, through their public calls: worked values, and what only a call can show. What a run of the
//! program shows stands in `examples/`.
#![tactic(auto)]

#[cfg(test)]
mod disk;
#[cfg(test)]
mod in_memory;
#[cfg(test)]
mod limits;
#[cfg(test)]
mod texts;
#[cfg(test)]
mod tokens;
