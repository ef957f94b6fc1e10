//! Calls with a count for each rank, reductions whose blocks go to the ranks, and the barrier.
use mpx_num::Op;
use mpx_program_rank::{CallError, Host, Rank};

/// What they give.
pub fn calls<H: Host>(rank: &mut Rank<'_, H>) -> Result<String, CallError> {
    let gathered = gathered(rank)?;
    let scattered = scattered(rank)?;
    let all = all(rank)?;
    let swapped = swapped(rank)?;
    let block = block(rank)?;
    let part = part(rank)?;
    rank.barrier(rank.world())?;
    Ok(format!(in rank.alloc; "{gathered:?} {scattered:?} {all:?} {swapped:?} {block:?} {part:?}")?)
}

// One number of rank 0, and two of rank 1.
fn mine<H: Host>(rank: &Rank<'_, H>) -> &'static [u16] {
    if rank.number() == 0 { &[1] } else { &[2, 3] }
}

fn gathered<H: Host>(rank: &mut Rank<'_, H>) -> Result<Vec<u16>, CallError> {
    let counts: &[u32] = if rank.number() == 1 { &[1, 2] } else { &[] };
    rank.gatherv(rank.world(), 1, counts, mine(rank))
}

fn scattered<H: Host>(rank: &mut Rank<'_, H>) -> Result<Vec<u16>, CallError> {
    let (counts, items): (&[u32], &[u16]) = if rank.number() == 0 {
        (&[1, 2], &[7, 8, 9])
    } else {
        (&[], &[])
    };
    rank.scatterv(rank.world(), 0, counts, mine(rank).len(), items)
}

fn all<H: Host>(rank: &mut Rank<'_, H>) -> Result<Vec<u16>, CallError> {
    rank.allgatherv(rank.world(), &[1, 2], mine(rank))
}

// Rank 0 gives one number to each, and rank 1 one to rank 1.
fn swapped<H: Host>(rank: &mut Rank<'_, H>) -> Result<Vec<u16>, CallError> {
    if rank.number() == 0 {
        return rank.alltoallv(rank.world(), &[1, 1], &[1, 0], &[4, 5]);
    }
    rank.alltoallv(rank.world(), &[0, 1], &[1, 1], &[6])
}

fn block<H: Host>(rank: &mut Rank<'_, H>) -> Result<Vec<i64>, CallError> {
    let mine = i64::from(rank.number());
    rank.reduce_scatter_block(rank.world(), Op::Sum, 1, &[mine, 5])
}

fn part<H: Host>(rank: &mut Rank<'_, H>) -> Result<Vec<i64>, CallError> {
    rank.reduce_scatter(rank.world(), Op::Sum, &[1, 2], &[1, 2, 3])
}
