//! What a post says of a graph.
ghost use Rattle.std.specs.Prelude.{◌≡◌, IfOk};
ghost use Rattle.mpx_post.specs.Graphs.{AreEdges, AreNeighbours};

use join_core::OutOfMemory;
use mpx_birth::{Edge, Neighbour, Neighbours};
use std::alloc::Global;
use std::marker::Model;
use std::sync::Arc;

/// The edges that a member gives to `MPI_DIST_GRAPH_CREATE`, also between others, at most 512 (MPI 4.1 section 8.5.4).
/// Copies share them.
#[derive(Debug, Drop)]
pub struct Edges {
    shared: Arc<SharedEdges>,
}

#[derive(Debug, Drop)]
struct SharedEdges {
    weighted: bool,
    list: Vec<Edge>,
}

impl Model for Edges {
    ghost use Rattle.std.specs.Arc.{arc_value};
    ghost use Rattle.mpx_post.specs.Graphs.{AreEdges, EdgesView};

    ghost Value = { EdgesView };

    ghost view = { λ e. record { weighted = (arc_value e.shared).weighted; edges = (arc_value e.shared).list.items } };

    ghost invariant = { λ e. AreEdges (record { weighted = (arc_value e.shared).weighted; edges = (arc_value e.shared).list.items }) };
}

impl Edges {
    /// These edges.
    pub fn new(alloc: Global, weighted: bool, list: Vec<Edge>) -> Result<Edges, OutOfMemory>
        requires { AreEdges (record { weighted = weighted; edges = list.items }) }
        ensures { IfOk result (λ edges. edges ≡ record { weighted = weighted; edges = list.items }) }
    {
        match Arc::new(alloc, SharedEdges { weighted, list }) {
            Ok(shared) => Ok(Edges { shared }),
            Err(_) => Err(OutOfMemory),
        }
    }

    /// Whether they have weights.
    pub fn weighted(&self) -> bool
        ensures { result ≡ self.now.weighted }
    {
        self.shared.weighted
    }

    /// The edges, at most 512.
    pub fn as_slice(&self) -> &[Edge]
        ensures value { result.now ≡ self.now.edges }
        ensures edges { AreEdges self.now }
    {
        self.shared.list.as_slice()
    }

    // A copy, which shares the list of edges.
    pub(crate) fn copy(&self) -> Result<Edges, OutOfMemory>
        ensures { IfOk result (λ copied. copied ≡ self.now) }
    {
        Ok(Edges {
            shared: Arc::try_clone(&self.shared)?,
        })
    }
}

/// The sources and destinations that a member names as its own for `MPI_DIST_GRAPH_CREATE_ADJACENT`, at most 512 together
/// (MPI 4.1 section 8.5.4). Copies share them.
#[derive(Debug, Drop)]
pub struct OwnNeighbours {
    shared: Arc<SharedNeighbours>,
}

#[derive(Debug, Drop)]
struct SharedNeighbours {
    weighted: bool,
    near: Neighbours,
}

impl Model for OwnNeighbours {
    ghost use Rattle.std.specs.Arc.{arc_value};
    ghost use Rattle.mpx_post.specs.Graphs.{AreNeighbours, NeighboursView};

    ghost Value = { NeighboursView };

    ghost view = { λ n. record { weighted = (arc_value n.shared).weighted; sources = (arc_value n.shared).near.sources; destinations = (arc_value n.shared).near.destinations } };

    ghost invariant = { λ n. AreNeighbours (record { weighted = (arc_value n.shared).weighted; sources = (arc_value n.shared).near.sources; destinations = (arc_value n.shared).near.destinations }) };
}

impl OwnNeighbours {
    /// These neighbours.
    pub fn new(
        alloc: Global,
        weighted: bool,
        near: Neighbours,
    ) -> Result<OwnNeighbours, OutOfMemory>
        requires { AreNeighbours (record { weighted = weighted; sources = near.sources; destinations = near.destinations }) }
        ensures { IfOk result (λ own. own ≡ record { weighted = weighted; sources = near.sources; destinations = near.destinations }) }
    {
        match Arc::new(alloc, SharedNeighbours { weighted, near }) {
            Ok(shared) => Ok(OwnNeighbours { shared }),
            Err(_) => Err(OutOfMemory),
        }
    }

    /// Whether their edges have weights.
    pub fn weighted(&self) -> bool
        ensures { result ≡ self.now.weighted }
    {
        self.shared.weighted
    }

    /// From whom edges come, in the order given.
    pub fn sources(&self) -> &[Neighbour]
        ensures value { result.now ≡ self.now.sources }
        ensures neighbours { AreNeighbours self.now }
    {
        self.shared.near.sources()
    }

    /// To whom edges go, in the order given.
    pub fn destinations(&self) -> &[Neighbour]
        ensures value { result.now ≡ self.now.destinations }
        ensures neighbours { AreNeighbours self.now }
    {
        self.shared.near.destinations()
    }

    // A copy, which shares the lists of neighbours.
    pub(crate) fn copy(&self) -> Result<OwnNeighbours, OutOfMemory>
        ensures { IfOk result (λ copied. copied ≡ self.now) }
    {
        Ok(OwnNeighbours {
            shared: Arc::try_clone(&self.shared)?,
        })
    }
}
