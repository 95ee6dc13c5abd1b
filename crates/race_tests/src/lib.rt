//! Tests of races in which a gate holds actors, so that they pass only if actors run beside each other.
#![tactic(auto)]

#[cfg(test)]
mod beside;
