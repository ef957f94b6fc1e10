//! Which topology the posts of a graph's call make.
ghost use Rattle.std.specs.Prelude.{◌≡◌, ◌<◌, ◌∷◌, [], IfOk, OnOk, vec_len};
ghost use Rattle.std.specs.List.{All};
ghost use Rattle.mpx_post.specs.Agreement.{IsFine};
ghost use Rattle.mpx_graph.specs.Graphs.{AddsEdges, adjacent, general, IsEdgeBetween};

use join_core::OutOfMemory;
use mpx_birth::{Edge, Neighbour, Neighbours, Topology};
use mpx_post::Row;
use std::alloc::Global;

/// The topology of all members' edges, of a fine row (`MPI_DIST_GRAPH_CREATE`, MPI 4.1 section 8.5.4).
pub fn topology_general(alloc: Global, row: &Row<'_>) -> Result<Topology, OutOfMemory>
    requires fine { IsFine row.now }
    ensures { IfOk result (λ topology. topology ≡ general row.now) }
{
    let mut ranks = Vec::new(alloc);
    for _rank in 0..row.len() {
        ranks.push(Neighbours::none(alloc))?;
    }
    for rank in 0..row.len() {
        put_all(&mut ranks, row.post(rank).edges())?;
    }
    Topology::from_neighbours(alloc, row.post(0).weighted(), ranks)
}

// Puts each edge at its two ends.
fn put_all(ranks: &mut Vec<Neighbours>, edges: &[Edge]) -> Result<(), OutOfMemory>
    requires within { All (IsEdgeBetween (vec_len ranks.old)) edges.now }
    ensures long { vec_len ranks.new ≡ vec_len ranks.old }
    ensures graph { OnOk result (AddsEdges (vec_len ranks.old) edges.now ranks.old.items ranks.new.items) }
{
    for edge in edges {
        put(ranks, *edge)?;
    }
    Ok(())
}

// Puts an edge at its two ends.
fn put(ranks: &mut Vec<Neighbours>, edge: Edge) -> Result<(), OutOfMemory>
    requires { IsEdgeBetween (vec_len ranks.old) edge }
    ensures long { vec_len ranks.new ≡ vec_len ranks.old }
    ensures graph { OnOk result (AddsEdges (vec_len ranks.old) (edge ∷ []) ranks.old.items ranks.new.items) }
{
    let destination = Neighbour {
        rank: edge.destination,
        weight: edge.weight,
    };
    ranks[usize::from(edge.source)].add_destination(destination)?;
    let source = Neighbour {
        rank: edge.source,
        weight: edge.weight,
    };
    ranks[usize::from(edge.destination)].add_source(source)?;
    Ok(())
}

/// The topology of the neighbours that the members name as their own, of a fine row (`MPI_DIST_GRAPH_CREATE_ADJACENT`, MPI 4.1
/// section 8.5.4).
pub fn topology_adjacent(alloc: Global, row: &Row<'_>) -> Result<Topology, OutOfMemory>
    requires fine { IsFine row.now }
    ensures { IfOk result (λ topology. topology ≡ adjacent row.now) }
{
    let mut ranks = Vec::new(alloc);
    for rank in 0..row.len() {
        let post = row.post(rank);
        ranks.push(Neighbours::copied(alloc, post.sources(), post.destinations())?)?;
    }
    Topology::from_neighbours(alloc, row.post(0).weighted(), ranks)
}
