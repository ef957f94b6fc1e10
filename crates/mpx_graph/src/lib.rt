//! Distributed graphs: the topologies that `MPI_DIST_GRAPH_CREATE` and `MPI_DIST_GRAPH_CREATE_ADJACENT` make of a row of posts,
//! and what is read of one (MPI 4.1 sections 8.5.4 and 8.5.5; `specs/Graphs.antt`).
#![tactic(auto)]

mod reading;
mod topologies;

pub use reading::{NeighbourCounts, counts, destinations, sources};
pub use topologies::{topology_adjacent, topology_general};
