//! What a call gives each of its members: the fault of its posts, the value of its kind, or a new communicator.
//!
//! In the order of reading: [`Outcome`], [`outcome`], [`children`]. Which communicators a call makes stands in
//! `specs/Children.antt`, what a call gives in `specs/Values.antt`, and rows of a whole history of posts in
//! `specs/Histories.antt`. Laws of both are contracts: [`children_are_told_apart`], [`children_are_within`],
//! [`new_communicators_are_children`].
#![tactic(auto)]

mod births;
mod groups;
mod laws;
mod outcomes;
mod splits;
mod values;

pub use births::{children, makes_none};
pub use laws::{children_are_told_apart, children_are_within, new_communicators_are_children};
pub use mpx_match::{Fault, FaultKind};
pub use outcomes::Outcome;
pub use values::outcome;
