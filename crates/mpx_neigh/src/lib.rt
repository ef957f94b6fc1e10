//! Neighbourhood exchanges: what a row of posts gives each member of a distributed graph (MPI 4.1, section 8.6).
//!
//! Each kind's value stands in `specs/Neighbourhoods.antt`, over whole lists: all that the sources of a member give, in their
//! order, or from each source the block that is for the member. Which block that is, `mpx_birth` says.
#![tactic(auto)]

mod cursors;
mod neighbourhoods;

pub use neighbourhoods::neigh_value;
