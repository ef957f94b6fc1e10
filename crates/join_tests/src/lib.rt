//! Tests of joins at concrete types, through their bounds, with values from outside. They stand in a crate of their own, so
//! that the crates below are proved once.
#![tactic(auto)]

#[cfg(test)]
mod joins;
#[cfg(test)]
mod laws;
#[cfg(test)]
mod lifts;
#[cfg(test)]
mod nested;
