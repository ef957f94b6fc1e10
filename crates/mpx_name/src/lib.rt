//! Names of communication contexts: lists of steps from the world down.
//!
//! A contract sees a `Name` as the list of its steps, the newest first; the world's name is the empty list.
//! Names stand in a strict total order: a name before its extensions, and else by the first step that differs.
#![tactic(auto)]

mod errors;
mod names;
mod steps;

pub use errors::NameError;
pub use names::{Name, name_order};
pub use steps::Step;
