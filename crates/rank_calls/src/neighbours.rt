//! Calls along the edges of a graph in which each of the two ranks hears the other.
use mpx_post::DraftedNeighbour;
use mpx_program_rank::{CallError, Comm, Host, Rank};

/// What they give.
pub fn calls<H: Host>(rank: &mut Rank<'_, H>) -> Result<String, CallError> {
    let graph = graph(rank)?;
    let blocking = blocking(rank, &graph);
    let later = later(rank, &graph);
    drop(graph);
    Ok(format!(in rank.alloc; "{}, {}", blocking?, later?)?)
}

fn graph<H: Host>(rank: &mut Rank<'_, H>) -> Result<Comm, CallError> {
    let other = DraftedNeighbour {
        rank: 1 - i128::from(rank.number()),
        weight: 0,
    };
    rank.dist_graph_adjacent(rank.world(), false, &[other], &[other])
}

fn blocking<H: Host>(rank: &mut Rank<'_, H>, graph: &Comm) -> Result<String, CallError> {
    let heard = heard(rank, graph)?;
    let parts = parts(rank, graph)?;
    let block = block(rank, graph)?;
    let blocks = blocks(rank, graph)?;
    Ok(format!(in rank.alloc; "{heard:?} {parts:?} {block:?} {blocks:?}")?)
}

fn later<H: Host>(rank: &mut Rank<'_, H>, graph: &Comm) -> Result<String, CallError> {
    let heard = heard_later(rank, graph)?;
    let parts = parts_later(rank, graph)?;
    let block = block_later(rank, graph)?;
    let blocks = blocks_later(rank, graph)?;
    Ok(format!(in rank.alloc; "{heard:?} {parts:?} {block:?} {blocks:?}")?)
}

// One number of rank 0, and two of rank 1.
fn own<H: Host>(rank: &Rank<'_, H>) -> &'static [u16] {
    if rank.number() == 0 { &[1] } else { &[2, 3] }
}

// How many the rank sends, and how many it takes.
fn sent<H: Host>(rank: &Rank<'_, H>) -> [u32; 1] {
    if rank.number() == 0 { [1] } else { [2] }
}

fn taken<H: Host>(rank: &Rank<'_, H>) -> [u32; 1] {
    if rank.number() == 0 { [2] } else { [1] }
}

fn heard<H: Host>(rank: &mut Rank<'_, H>, graph: &Comm) -> Result<Vec<u8>, CallError> {
    rank.neighbor_allgather(graph, 1, &[rank.number()])
}

fn heard_later<H: Host>(rank: &mut Rank<'_, H>, graph: &Comm) -> Result<Vec<u8>, CallError> {
    let pending = rank.ineighbor_allgather(graph, 1, &[rank.number()])?;
    rank.wait(pending)
}

fn parts<H: Host>(rank: &mut Rank<'_, H>, graph: &Comm) -> Result<Vec<u16>, CallError> {
    rank.neighbor_allgatherv(graph, &taken(rank), own(rank))
}

fn parts_later<H: Host>(rank: &mut Rank<'_, H>, graph: &Comm) -> Result<Vec<u16>, CallError> {
    let pending = rank.ineighbor_allgatherv(graph, &taken(rank), own(rank))?;
    rank.wait(pending)
}

fn block<H: Host>(rank: &mut Rank<'_, H>, graph: &Comm) -> Result<Vec<u8>, CallError> {
    rank.neighbor_alltoall(graph, 1, 1, &[rank.number()])
}

fn block_later<H: Host>(rank: &mut Rank<'_, H>, graph: &Comm) -> Result<Vec<u8>, CallError> {
    let pending = rank.ineighbor_alltoall(graph, 1, 1, &[rank.number()])?;
    rank.wait(pending)
}

fn blocks<H: Host>(rank: &mut Rank<'_, H>, graph: &Comm) -> Result<Vec<u16>, CallError> {
    rank.neighbor_alltoallv(graph, &sent(rank), &taken(rank), own(rank))
}

fn blocks_later<H: Host>(rank: &mut Rank<'_, H>, graph: &Comm) -> Result<Vec<u16>, CallError> {
    let pending = rank.ineighbor_alltoallv(graph, &sent(rank), &taken(rank), own(rank))?;
    rank.wait(pending)
}
