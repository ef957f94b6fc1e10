//! What a rank asks of a topology.
ghost use Rattle.std.specs.Prelude.{◌≡◌};
ghost use Rattle.mpx_birth.specs.Topologies.{destinations_at, sources_at};
ghost use Rattle.mpx_graph.specs.Graphs.{counts_at};

use mpx_birth::{Neighbour, Topology};

/// How many sources and destinations a rank has, and whether edges have weights (`MPI_DIST_GRAPH_NEIGHBORS_COUNT`, MPI 4.1
/// section 8.5.5).
#[derive(Clone, Copy, Debug, PartialEq, Eq)]
pub struct NeighbourCounts {
    pub indegree: usize,
    pub outdegree: usize,
    pub weighted: bool,
}

/// From whom edges come to this rank, in order, each as often as there are edges (`MPI_DIST_GRAPH_NEIGHBORS`, MPI 4.1 section
/// 8.5.5).
pub fn sources(topology: &Topology, rank: u8) -> &[Neighbour]
    ensures { result.now ≡ sources_at topology.now rank }
{
    topology.sources(rank)
}

/// To whom edges go from this rank, in order, each as often as there are edges (MPI 4.1 section 8.5.5).
pub fn destinations(topology: &Topology, rank: u8) -> &[Neighbour]
    ensures { result.now ≡ destinations_at topology.now rank }
{
    topology.destinations(rank)
}

/// How many of both this rank has, and whether edges have weights.
pub fn counts(topology: &Topology, rank: u8) -> NeighbourCounts
    ensures { result ≡ counts_at topology.now rank }
{
    NeighbourCounts {
        indegree: topology.sources(rank).len(),
        outdegree: topology.destinations(rank).len(),
        weighted: topology.weighted(),
    }
}
