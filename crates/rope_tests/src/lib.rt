//! Tests of numbers, of ropes and of what their readers share, with values from outside. They stand in a crate of their own, so that
//! the crates below are proved once.
#![tactic(auto)]

#[cfg(test)]
mod numbers;
#[cfg(test)]
mod ropes;
