//! Shortest paths by relaxation: each rank is a vertex of a directed graph with weights, and finds how far it is from rank 0.
use crate::why::Why;
use mpx_job::RankProgram;
use mpx_num::Op;
use mpx_post::DraftedEdge;
use mpx_program_rank::{Comm, Host, Rank};

// Farther than any path leads.
const FAR: u32 = 1_000_000;

pub struct Paths;

impl RankProgram for Paths {
    type Answer = String;

    type Error = Why;

    fn run<H: Host>(&self, rank: &mut Rank<'_, H>) -> Result<String, Why> {
        let graph = graph_of(rank)?;
        let distance = relaxed(rank, &graph)?;
        Ok(format!(in rank.alloc; "{distance} from rank 0")?)
    }
}

// The graph in which each rank r has edges to the ranks 2r and 2r + 1, modulo their number. Each gives its own.
fn graph_of<H: Host>(rank: &mut Rank<'_, H>) -> Result<Comm, Why> {
    let (number, ranks) = (i128::from(rank.number()), i128::from(rank.size()));
    let edges = [
        edge(number, 2 * number, ranks, 5),
        edge(number, 2 * number + 1, ranks, 7 - number % 3),
    ];
    Ok(rank.dist_graph(rank.world(), true, &edges)?)
}

// From the rank to another, modulo their number.
fn edge(source: i128, to: i128, ranks: i128, weight: i128) -> DraftedEdge {
    let destination = to.checked_rem(ranks).unwrap_or(0);
    DraftedEdge {
        source,
        destination,
        weight,
    }
}

// Hears from its sources how far they are, round by round, until all say that nothing came nearer. Each round lets its results go.
fn relaxed<H: Host>(rank: &mut Rank<'_, H>, graph: &Comm) -> Result<u32, Why> {
    let mut distance = if graph.rank() == 0 { 0 } else { FAR };
    for _round in 0..graph.size() {
        let near = nearest(rank, graph, distance)?;
        let are_done = rank.allreduce_one(graph, Op::Land, u8::from(distance <= near))?;
        distance = distance.min(near);
        rank.desk.forget(graph);
        if are_done == 1 {
            break;
        }
    }
    Ok(distance)
}

// The shortest way over a source.
fn nearest<H: Host>(rank: &mut Rank<'_, H>, graph: &Comm, distance: u32) -> Result<u32, Why> {
    let heard = rank.neighbor_allgather(graph, 1, &[distance])?;
    let mut near = FAR;
    for (distance, source) in heard.iter().zip(rank.desk.sources(graph)?) {
        near = near.min(distance.saturating_add(source.weight));
    }
    Ok(near)
}
