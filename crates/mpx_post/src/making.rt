//! What a post says of the communicator that its call makes.
ghost use Rattle.std.specs.Prelude.{◌≡◌, IfOk};
ghost use Rattle.mpx_post.specs.Equality.{same_making};
ghost use Rattle.mpx_post.specs.Posts.{colour_in, destinations_in, edges_in, group_in, key_in, makes_of, sources_in, weighted_in};

use crate::graph_parts::{Edges, OwnNeighbours};
use crate::ranks::Ranks;
use join_core::OutOfMemory;
use mpx_birth::{Edge, Neighbour};
use mpx_kind::Makes;

/// What a post says of the communicator that its call makes.
#[derive(Debug, Drop)]
pub enum Making {
    /// Nothing: its kind makes none, or asks for no word about it.
    Nothing,
    /// Which of the new communicators the member wants, none for `MPI_UNDEFINED`, and the key by which its members are
    /// ordered (`MPI_COMM_SPLIT`, MPI 4.1 section 7.4.2).
    Split { colour: Option<u32>, key: i32 },
    /// The ranks of the members of the new communicator, in their order (`MPI_COMM_CREATE`, MPI 4.1 section 7.4.2).
    Group(Ranks),
    /// Any edges of the graph (`MPI_DIST_GRAPH_CREATE`, MPI 4.1 section 8.5.4).
    Edges(Edges),
    /// The member's own neighbours in the graph (`MPI_DIST_GRAPH_CREATE_ADJACENT`, MPI 4.1 section 8.5.4).
    Neighbours(OwnNeighbours),
}

impl Making {
    // A copy, which shares the lists.
    pub(crate) fn copy(&self) -> Result<Making, OutOfMemory>
        ensures { IfOk result (λ copied. copied ≡ self.now) }
    {
        match self {
            Making::Nothing => Ok(Making::Nothing),
            Making::Split { colour, key } => Ok(Making::Split {
                colour: *colour,
                key: *key,
            }),
            Making::Group(ranks) => Ok(Making::Group(ranks.copy()?)),
            Making::Edges(edges) => Ok(Making::Edges(edges.copy()?)),
            Making::Neighbours(own) => Ok(Making::Neighbours(own.copy()?)),
        }
    }

    // Of which sort it is.
    pub(crate) fn makes(&self) -> Makes
        ensures { result ≡ makes_of self.now }
    {
        match self {
            Making::Nothing => Makes::Nothing,
            Making::Split { .. } => Makes::Colour,
            Making::Group(_) => Makes::Group,
            Making::Edges(_) => Makes::Edges,
            Making::Neighbours(_) => Makes::Neighbours,
        }
    }

    // The colour, where there is one and it isn't undefined.
    pub(crate) fn colour(&self) -> Option<u32>
        ensures { result ≡ colour_in self.now }
    {
        match self {
            Making::Split { colour, .. } => *colour,
            _ => None,
        }
    }

    // The key, else 0.
    pub(crate) fn key(&self) -> i32
        ensures { result ≡ key_in self.now }
    {
        match self {
            Making::Split { key, .. } => *key,
            _ => 0,
        }
    }

    // The ranks of the group, else none.
    pub(crate) fn group(&self) -> &[u8]
        ensures { result.now ≡ group_in self.now }
    {
        match self {
            Making::Group(ranks) => ranks.as_slice(),
            _ => &[],
        }
    }

    // Whether edges have weights.
    pub(crate) fn weighted(&self) -> bool
        ensures { result ≡ weighted_in self.now }
    {
        match self {
            Making::Edges(edges) => edges.weighted(),
            Making::Neighbours(own) => own.weighted(),
            _ => false,
        }
    }

    // The edges, else none.
    pub(crate) fn edges(&self) -> &[Edge]
        ensures { result.now ≡ edges_in self.now }
    {
        match self {
            Making::Edges(edges) => edges.as_slice(),
            _ => &[],
        }
    }

    // The member's own sources, else none.
    pub(crate) fn sources(&self) -> &[Neighbour]
        ensures { result.now ≡ sources_in self.now }
    {
        match self {
            Making::Neighbours(own) => own.sources(),
            _ => &[],
        }
    }

    // The member's own destinations, else none.
    pub(crate) fn destinations(&self) -> &[Neighbour]
        ensures { result.now ≡ destinations_in self.now }
    {
        match self {
            Making::Neighbours(own) => own.destinations(),
            _ => &[],
        }
    }

    // Whether the same is said. Mostly nothing is.
    pub(crate) fn same(&self, other: &Making) -> bool
        ensures { result ≡ same_making self.now other.now }
    {
        match (self, other) {
            (Making::Nothing, Making::Nothing) => true,
            _ => self.has_same_parts(other),
        }
    }

    // Whether the same is said, part by part.
    fn has_same_parts(&self, other: &Making) -> bool
        ensures { result ≡ same_making self.now other.now }
    {
        (self.makes() == other.makes())
            & (self.colour() == other.colour())
            & (self.key() == other.key())
            & (self.group() == other.group())
            & (self.weighted() == other.weighted())
            & (self.edges() == other.edges())
            & (self.sources() == other.sources())
            & (self.destinations() == other.destinations())
    }
}
