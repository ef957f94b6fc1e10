//! Groups of processes: ordered lists in which no process stands twice (MPI 4.1 chapter 7, section 7.3).
//!
//! A contract sees a `Proc` as its number and a `Group` as the list of its members' numbers; rank i is
//! the i-th of them. A group never changes: each call makes a new one.
#![tactic(auto)]

mod errors;
mod groups;
mod picks;
mod processes;
mod ranks;
mod triplets;

pub use errors::GroupError;
pub use groups::{Group, all_in};
pub use processes::Proc;
pub use ranks::{Comparison, Rank};
pub use triplets::Triplet;
