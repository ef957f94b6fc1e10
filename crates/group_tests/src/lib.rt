//! Tests of groups of processes and of the names of communicators, with values from outside.
#![tactic(auto)]

#[cfg(test)]
mod groups;
#[cfg(test)]
mod names;
