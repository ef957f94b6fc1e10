//! What a draft says of a graph, and what a post says of it then.
ghost use Rattle.std.specs.Prelude.{◌≡◌, ◌<◌, ◌≤◌, ◌+◌, cond, map, true, unwrap_or, IfOk};
ghost use Rattle.std.specs.List.{list_all};
ghost use Rattle.mpx_post.specs.Drafts.{are_edges as are_edges_of, edge_count as edge_count_of, edge_of, edges_given, is_edge as is_edge_of, is_neighbour as is_neighbour_of, is_rank as is_rank_of, is_weight as is_weight_of, natural, neighbour_of, neighbours_given};
ghost use Rattle.mpx_post.specs.Graphs.{most_edges, no_graph};
ghost use Rattle.mpx_kind.specs.declared.kinds.Makes.TheVariants as M;

use crate::drafted_edges::{DraftedEdge, DraftedGraph, DraftedNeighbour};
use crate::graph_parts::{Edges, OwnNeighbours};
use crate::post_fields::is_rank;
use join_core::OutOfMemory;
use mpx_birth::{Edge, Neighbour, Neighbours};
use mpx_kind::Makes;
use std::alloc::Global;

// Whether the edges that are looked at are between ranks of so many, with weights within their limits.
pub(crate) fn are_edges(makes: Makes, size: usize, graph: &Option<DraftedGraph>) -> bool
    ensures { result ≡ are_edges_of makes size (unwrap_or graph.now no_graph) }
{
    let Some(graph) = graph else {
        return true;
    };
    match makes {
        Makes::Nothing => true,
        Makes::Colour => true,
        Makes::Group => true,
        Makes::Edges => all_edges(size, graph.weighted(), graph.edges()),
        Makes::Neighbours => {
            all_neighbours(size, graph.weighted(), graph.sources())
                && all_neighbours(size, graph.weighted(), graph.destinations())
        }
    }
}

// How many edges are looked at.
pub(crate) fn edge_count(makes: Makes, graph: &Option<DraftedGraph>) -> usize
    ensures { result ≡ edge_count_of makes (unwrap_or graph.now no_graph) }
{
    let Some(graph) = graph else {
        return 0;
    };
    match makes {
        Makes::Nothing => 0,
        Makes::Colour => 0,
        Makes::Group => 0,
        Makes::Edges => graph.edges().len(),
        Makes::Neighbours => graph.sources().len() + graph.destinations().len(),
    }
}

fn all_edges(size: usize, weighted: bool, edges: &[DraftedEdge]) -> bool
    ensures { result ≡ list_all (is_edge_of size weighted) edges.now }
{
    edges.iter().all(|edge| is_edge(size, weighted, *edge))
}

fn all_neighbours(size: usize, weighted: bool, neighbours: &[DraftedNeighbour]) -> bool
    ensures { result ≡ list_all (is_neighbour_of size weighted) neighbours.now }
{
    neighbours
        .iter()
        .all(|neighbour| is_neighbour(size, weighted, *neighbour))
}

fn is_edge(size: usize, weighted: bool, edge: DraftedEdge) -> bool
    ensures { result ≡ is_edge_of size weighted edge }
{
    is_rank(size, edge.source)
        && (is_rank(size, edge.destination) && is_weight(weighted, edge.weight))
}

fn is_neighbour(size: usize, weighted: bool, neighbour: DraftedNeighbour) -> bool
    ensures { result ≡ is_neighbour_of size weighted neighbour }
{
    is_rank(size, neighbour.rank) && is_weight(weighted, neighbour.weight)
}

fn is_weight(weighted: bool, weight: i128) -> bool
    ensures { result ≡ is_weight_of weighted weight }
{
    if weighted {
        0 <= weight && weight < 2_147_483_648
    } else {
        true
    }
}

// The edges.
pub(crate) fn given_edges(alloc: Global, graph: &Option<DraftedGraph>) -> Result<Edges, OutOfMemory>
    requires edges { are_edges_of M.Edges 64 (unwrap_or graph.now no_graph) ≡ true }
    requires few { edge_count_of M.Edges (unwrap_or graph.now no_graph) ≤ most_edges }
    ensures { IfOk result (λ edges. edges ≡ edges_given (unwrap_or graph.now no_graph)) }
{
    let Some(graph) = graph else {
        return Edges::new(alloc, false, Vec::new(alloc));
    };
    let list = edge_list(alloc, graph.weighted(), graph.edges())?;
    Edges::new(alloc, graph.weighted(), list)
}

// The member's own neighbours.
pub(crate) fn given_neighbours(
    alloc: Global,
    graph: &Option<DraftedGraph>,
) -> Result<OwnNeighbours, OutOfMemory>
    requires edges { are_edges_of M.Neighbours 64 (unwrap_or graph.now no_graph) ≡ true }
    requires few { edge_count_of M.Neighbours (unwrap_or graph.now no_graph) ≤ most_edges }
    ensures { IfOk result (λ own. own ≡ neighbours_given (unwrap_or graph.now no_graph)) }
{
    let Some(graph) = graph else {
        return OwnNeighbours::new(alloc, false, Neighbours::none(alloc));
    };
    let sources = neighbour_list(alloc, graph.weighted(), graph.sources())?;
    let destinations = neighbour_list(alloc, graph.weighted(), graph.destinations())?;
    let near = Neighbours::new(sources, destinations);
    OwnNeighbours::new(alloc, graph.weighted(), near)
}

fn edge_list(alloc: Global, weighted: bool, edges: &[DraftedEdge]) -> Result<Vec<Edge>, OutOfMemory>
    requires { list_all (is_edge_of 64 weighted) edges.now ≡ true }
    ensures { IfOk result (λ list. list.items ≡ map (edge_of weighted) edges.now) }
{
    let mut list = Vec::new(alloc);
    for edge in edges {
        list.push(given_edge(weighted, *edge))?;
    }
    Ok(list)
}

fn neighbour_list(
    alloc: Global,
    weighted: bool,
    neighbours: &[DraftedNeighbour],
) -> Result<Vec<Neighbour>, OutOfMemory>
    requires { list_all (is_neighbour_of 64 weighted) neighbours.now ≡ true }
    ensures { IfOk result (λ list. list.items ≡ map (neighbour_of weighted) neighbours.now) }
{
    let mut list = Vec::new(alloc);
    for neighbour in neighbours {
        list.push(given_neighbour(weighted, *neighbour))?;
    }
    Ok(list)
}

fn given_edge(weighted: bool, edge: DraftedEdge) -> Edge
    requires { is_edge_of 64 weighted edge ≡ true }
    ensures { result ≡ edge_of weighted edge }
{
    Edge {
        source: given_rank(edge.source),
        destination: given_rank(edge.destination),
        weight: given_weight(weighted, edge.weight),
    }
}

fn given_neighbour(weighted: bool, neighbour: DraftedNeighbour) -> Neighbour
    requires { is_neighbour_of 64 weighted neighbour ≡ true }
    ensures { result ≡ neighbour_of weighted neighbour }
{
    Neighbour {
        rank: given_rank(neighbour.rank),
        weight: given_weight(weighted, neighbour.weight),
    }
}

// The rank.
pub(crate) fn given_rank(rank: i128) -> u8
    requires { is_rank_of 64 rank ≡ true }
    ensures value { result ≡ natural rank }
    ensures small { result < 64 }
{
    rank as u8
}

// The weight, 0 where edges have none.
fn given_weight(weighted: bool, weight: i128) -> u32
    requires { is_weight_of weighted weight ≡ true }
    ensures { result ≡ cond weighted (natural weight) 0 }
{
    if weighted { weight as u32 } else { 0 }
}
