//! Whether the posts of a call fit together: the verdict of a row.
//!
//! The standard leaves calls whose posts don't fit together undefined. Here every member gets the same [`Fault`]: what
//! differs, and the least rank at which it does. When posts agree stands in mpx_post's `specs/Agreement.antt`, one row for
//! each kind; what is asked of a row, and in which order, stands in `specs/Faults.antt` and `specs/Verdicts.antt`.
#![tactic(auto)]

mod amounts;
mod edges;
mod fault_texts;
mod faults;
mod fits;
mod groups;
mod verdicts;

pub use faults::{Fault, FaultKind, Verdict};
pub use verdicts::verdict;
