//! How communicators come to be: a [`Birth`] has the members in rank order, and of a distributed graph its [`Topology`], the
//! neighbours of each rank (MPI 4.1 sections 7.2 and 8.5). Copies share both.
//!
//! Which places of two ranks' neighbours are the two ends of one edge is told too (section 8.6): the n-th occurrence of a rank among
//! another's destinations meets the n-th occurrence of that other among its own sources (`specs/Ends.antt`). A [`EdgePass`] finds them
//! one after the other; [`ends_meet`] says that each place has one that meets it, and no second.
#![tactic(auto)]

mod birth;
mod edge_pass;
mod edges;
mod laws;
mod limits;
mod pairs;
mod topology;

pub use birth::Birth;
pub use edge_pass::EdgePass;
pub use edges::{Edge, Neighbour};
pub use laws::ends_meet;
pub use topology::{Neighbours, Topology};
