//! Reductions and scans: what a row of posts gives each member (MPI 4.1, sections 6.9 to 6.11).
//!
//! The items of the members are combined in rank order, item by item; of one contribution it is that contribution,
//! unchanged. Each kind's value stands in `specs/Folds.antt`.
#![tactic(auto)]

mod folds;

pub use folds::fold_value;
