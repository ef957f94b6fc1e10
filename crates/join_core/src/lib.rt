//! State-based replicated values: states in an order in which each two have a least upper bound, their join.
//!
//! Updates only go up and replicas only join, so replicas that took the same updates are equal, in
//! whatever order and however often they took them. Read in this order: [`Exact`] (equality and
//! copies), [`Join`] (the order, the join and deltas), [`Key`], then the joins [`Max`], [`Flat`] and
//! [`Pair`]. What all of them keep is said by the calls [`same_laws`], [`join_laws`], [`leq_laws`],
//! [`joined_laws`], [`delta_laws`] and [`join_in_laws`]; of those whose deltas tell nothing where all is
//! known ([`EmptyDelta`]) also [`empty_delta_laws`]. What the last one comes to for the smallest joins: [`max_parts_laws`] and
//! [`flat_parts_laws`].
#![tactic(auto)]

mod flats;
mod laws;
mod max;
mod memory;
mod pairs;
mod values;

pub use flats::Flat;
pub use laws::{
    delta_laws, empty_delta_laws, flat_parts_laws, join_in_laws, join_laws, joined_laws, leq_laws,
    max_parts_laws, same_laws,
};
pub use max::Max;
pub use memory::OutOfMemory;
pub use pairs::Pair;
pub use values::{EmptyDelta, Exact, Join, Key};
