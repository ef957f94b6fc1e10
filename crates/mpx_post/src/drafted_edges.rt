//! What a draft says of a graph, with numbers that nobody has checked yet.
ghost use Rattle.std.specs.Prelude.{◌≡◌, IfOk};

use join_core::OutOfMemory;
use std::marker::Model;

/// An edge of a draft.
#[derive(Clone, Copy, Debug, PartialEq, Eq)]
pub struct DraftedEdge {
    /// The rank from which it goes.
    pub source: i128,
    /// The rank to which it goes.
    pub destination: i128,
    /// Not looked at where edges have no weights.
    pub weight: i128,
}

/// A neighbour of a draft.
#[derive(Clone, Copy, Debug, PartialEq, Eq)]
pub struct DraftedNeighbour {
    /// Its rank.
    pub rank: i128,
    /// Not looked at where edges have no weights.
    pub weight: i128,
}

/// What a draft says of a graph: whether edges have weights, any edges (`MPI_DIST_GRAPH_CREATE`), and the caller's own
/// sources and destinations (`MPI_DIST_GRAPH_CREATE_ADJACENT`, MPI 4.1 section 8.5.4). A kind looks at its own part alone.
#[derive(Debug, Drop)]
pub struct DraftedGraph {
    weighted: bool,
    edges: Vec<DraftedEdge>,
    sources: Vec<DraftedNeighbour>,
    destinations: Vec<DraftedNeighbour>,
}

impl Model for DraftedGraph {
    ghost use Rattle.mpx_post.specs.Graphs.{GraphView};

    ghost Value = { GraphView };

    ghost view = { λ g. record { weighted = g.weighted; edges = g.edges.items; sources = g.sources.items; destinations = g.destinations.items } };
}

impl DraftedGraph {
    /// These edges and neighbours. It takes no memory.
    pub fn new(
        weighted: bool,
        edges: Vec<DraftedEdge>,
        sources: Vec<DraftedNeighbour>,
        destinations: Vec<DraftedNeighbour>,
    ) -> DraftedGraph
        ensures { result ≡ record { weighted = weighted; edges = edges.items; sources = sources.items; destinations = destinations.items } }
    {
        DraftedGraph {
            weighted,
            edges,
            sources,
            destinations,
        }
    }

    /// Whether its edges have weights.
    pub fn weighted(&self) -> bool
        ensures { result ≡ self.now.weighted }
    {
        self.weighted
    }

    /// The edges.
    pub fn edges(&self) -> &[DraftedEdge]
        ensures { result.now ≡ self.now.edges }
    {
        self.edges.as_slice()
    }

    /// The caller's sources.
    pub fn sources(&self) -> &[DraftedNeighbour]
        ensures { result.now ≡ self.now.sources }
    {
        self.sources.as_slice()
    }

    /// The caller's destinations.
    pub fn destinations(&self) -> &[DraftedNeighbour]
        ensures { result.now ≡ self.now.destinations }
    {
        self.destinations.as_slice()
    }

    // A copy of the graph, with lists of its own.
    pub(crate) fn copy(&self) -> Result<DraftedGraph, OutOfMemory>
        ensures { IfOk result (λ copied. copied ≡ self.now) }
    {
        let edges = self.edges.clone()?;
        let sources = self.sources.clone()?;
        let destinations = self.destinations.clone()?;
        Ok(DraftedGraph {
            weighted: self.weighted,
            edges,
            sources,
            destinations,
        })
    }
}
