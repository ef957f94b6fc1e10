//! Drafts and posts of plain data, for the tests of the crates above `mpx_post`. Tests that own no draft are proved
//! quickly: each exit of a function walks the drop of all that it owns.
#![tactic(auto)]

pub mod contexts;
pub mod kinds;

use join_core::OutOfMemory;
use mpx_birth::Birth;
use mpx_group::Proc;
use mpx_kind::{Call, Kind};
use mpx_num::{Numbers, Op, Ops, Ty};
use mpx_post::{At, Draft, DraftedEdge, DraftedGraph, DraftedNeighbour, Post, PostError};
use std::alloc::Global;

/// What a process drafts.
#[derive(Clone, Copy)]
pub struct Drafted<'a> {
    pub call: Call,
    pub root: i128,
    pub op: Op,
    pub ty: Ty,
    pub scounts: &'a [i128],
    pub rcounts: &'a [i128],
    pub items: &'a [i128],
    pub colour: Option<i128>,
    pub key: i128,
    pub group: &'a [i128],
    pub graph: Option<GraphDraft<'a>>,
}

/// The part of a graph that a process drafts: edges by their source, destination and weight, and neighbours by their rank
/// and weight.
#[derive(Clone, Copy)]
pub struct GraphDraft<'a> {
    pub weighted: bool,
    pub edges: &'a [(i128, i128, i128)],
    pub sources: &'a [(i128, i128)],
    pub destinations: &'a [(i128, i128)],
}

const NO: &[i128] = &[];

/// The blocking call of the kind, whose root is rank 0, with the sum and 32 bits, and nothing in its lists.
pub fn just(kind: Kind) -> Drafted<'static> {
    Drafted {
        call: Call::blocking(kind),
        root: 0,
        op: Op::Sum,
        ty: Ty::I32,
        scounts: NO,
        rcounts: NO,
        items: NO,
        colour: None,
        key: 0,
        group: NO,
        graph: None,
    }
}

/// The sum over all ranks of these items of 32 bits.
pub fn sum_of(items: &[i128]) -> Drafted<'_> {
    Drafted {
        items,
        ..just(kinds::ALLREDUCE)
    }
}

fn numbers(alloc: Global, list: &[i128]) -> Result<Numbers, OutOfMemory> {
    Ok(Numbers::new(alloc, Vec::from_slice(alloc, list)?)?)
}

fn edge_list(alloc: Global, list: &[(i128, i128, i128)]) -> Result<Vec<DraftedEdge>, OutOfMemory> {
    let mut edges = Vec::new(alloc);
    for &(source, destination, weight) in list {
        edges.push(DraftedEdge {
            source,
            destination,
            weight,
        })?;
    }
    Ok(edges)
}

fn neighbour_list(
    alloc: Global,
    list: &[(i128, i128)],
) -> Result<Vec<DraftedNeighbour>, OutOfMemory> {
    let mut neighbours = Vec::new(alloc);
    for &(rank, weight) in list {
        neighbours.push(DraftedNeighbour { rank, weight })?;
    }
    Ok(neighbours)
}

fn graph_of(
    alloc: Global,
    part: Option<GraphDraft<'_>>,
) -> Result<Option<DraftedGraph>, OutOfMemory> {
    let Some(part) = part else {
        return Ok(None);
    };
    let edges = edge_list(alloc, part.edges)?;
    let sources = neighbour_list(alloc, part.sources)?;
    let destinations = neighbour_list(alloc, part.destinations)?;
    let graph = DraftedGraph::new(part.weighted, edges, sources, destinations);
    Ok(Some(graph))
}

/// The draft of this data.
pub fn draft(alloc: Global, drafted: &Drafted<'_>) -> Result<Draft, OutOfMemory> {
    Ok(Draft {
        call: drafted.call,
        root: drafted.root,
        op: drafted.op,
        ty: drafted.ty,
        scounts: numbers(alloc, drafted.scounts)?,
        rcounts: numbers(alloc, drafted.rcounts)?,
        items: numbers(alloc, drafted.items)?,
        colour: drafted.colour,
        key: drafted.key,
        group: numbers(alloc, drafted.group)?,
        graph: graph_of(alloc, drafted.graph)?,
    })
}

/// The draft of a sum over all ranks, to which the rank gives this number.
pub fn a_sum(alloc: Global, number: i128) -> Result<Draft, OutOfMemory> {
    let items = [number];
    draft(alloc, &sum_of(&items))
}

/// The post of this data, or why the process may not post it there, in a job with these operations of its own.
pub fn check(
    alloc: Global,
    birth: &Birth,
    me: Proc,
    at: &At,
    drafted: &Drafted<'_>,
    ops: &Ops,
) -> Result<Post, PostError> {
    match draft(alloc, drafted) {
        Ok(draft) => draft.check(alloc, birth, me, at, ops),
        Err(OutOfMemory) => Err(PostError::OutOfMemory),
    }
}

/// The post of this data whatever the communicator, or none where it is out of the limits of all.
pub fn bare(alloc: Global, drafted: &Drafted<'_>) -> Result<Option<Post>, OutOfMemory> {
    draft(alloc, drafted)?.bare(alloc)
}

fn has_graph(graph: &DraftedGraph, part: &GraphDraft<'_>) -> bool {
    (graph.weighted() == part.weighted)
        && graph.edges().len() == part.edges.len()
        && graph.edges().iter().zip(part.edges).all(|(edge, told)| {
            (edge.source, edge.destination, edge.weight) == *told
        })
        && have_neighbours(graph.sources(), part.sources)
        && have_neighbours(graph.destinations(), part.destinations)
}

fn have_neighbours(neighbours: &[DraftedNeighbour], told: &[(i128, i128)]) -> bool {
    neighbours.len() == told.len()
        && neighbours
            .iter()
            .zip(told)
            .all(|(near, told)| (near.rank, near.weight) == *told)
}

fn is_graph(graph: &Option<DraftedGraph>, part: &Option<GraphDraft<'_>>) -> bool {
    match (graph, part) {
        (None, None) => true,
        (Some(graph), Some(part)) => has_graph(graph, part),
        (None, Some(_)) => false,
        (Some(_), None) => false,
    }
}

/// Whether the draft has this data.
pub fn says(draft: &Draft, drafted: &Drafted<'_>) -> bool {
    (draft.call == drafted.call)
        & (draft.root == drafted.root)
        & (draft.op == drafted.op)
        & (draft.ty == drafted.ty)
        & (draft.scounts.as_slice() == drafted.scounts)
        & (draft.rcounts.as_slice() == drafted.rcounts)
        & (draft.items.as_slice() == drafted.items)
        & (draft.colour == drafted.colour)
        & (draft.key == drafted.key)
        & (draft.group.as_slice() == drafted.group)
        & is_graph(&draft.graph, &drafted.graph)
}

/// The communicator of these members, where there are 1 to 64 of them, none twice, and there is memory.
pub fn birth(alloc: Global, members: Vec<Proc>) -> Option<Birth> {
    Birth::new(alloc, members, None).ok()?
}

/// The process with this number, which is below 64.
pub fn proc(number: u8) -> Proc {
    if number < 64 {
        return Proc::new(number);
    }
    Proc::new(0)
}
