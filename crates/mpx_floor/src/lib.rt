//! How many calls each process of a context has harvested, and the floor: the least of these numbers over all members.
//!
//! Every member has stored the results of the calls below the floor, so nobody needs their posts any more. A member of which nothing
//! is known counts as 0. `specs/Fronts.antt` says what a version vector is seen as, and what the floor is.
#![tactic(auto)]

mod fronts;

pub use fronts::{VersionVector, floor, number_of};
