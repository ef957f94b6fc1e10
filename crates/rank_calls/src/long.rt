//! Calls of more than 4,096 items.
use mpx_num::Op;
use mpx_program_rank::{CallError, Host, Rank};

/// Whether each call gives what it has to.
pub fn calls<H: Host>(rank: &mut Rank<'_, H>) -> Result<Vec<bool>, CallError> {
    let list = numbers(rank)?;
    let mut right = Vec::new(rank.alloc);
    right.push(is_summed(rank, &list)?)?;
    right.push(is_most(rank, &list)?)?;
    right.push(is_scanned(rank, &list)?)?;
    right.push(is_gathered(rank, &list)?)?;
    right.push(is_all(rank, &list)?)?;
    right.push(is_swapped(rank, &list)?)?;
    right.push(is_cast(rank, &list)?)?;
    right.push(is_scattered(rank, &list)?)?;
    Ok(right)
}

// 10,000 numbers, from the rank's own on.
fn numbers<H: Host>(rank: &Rank<'_, H>) -> Result<Vec<u32>, CallError> {
    let first = u32::from(rank.number());
    let mut list = Vec::new(rank.alloc);
    for i in 0..10_000u32 {
        list.push(i + first)?;
    }
    Ok(list)
}

// Whether this number is in this place.
fn is_at(list: &[u32], place: usize, number: u32) -> bool {
    list.get(place) == Some(&number)
}

fn is_summed<H: Host>(rank: &mut Rank<'_, H>, list: &[u32]) -> Result<bool, CallError> {
    let sum = rank.allreduce(rank.world(), Op::Sum, list)?;
    Ok(sum.len() == 10_000 && is_at(&sum, 4_096, 8_193) && is_at(&sum, 9_999, 19_999))
}

fn is_most<H: Host>(rank: &mut Rank<'_, H>, list: &[u32]) -> Result<bool, CallError> {
    let most = rank.reduce(rank.world(), 1, Op::Max, list)?;
    let is_root = rank.number() == 1;
    Ok(most.is_empty() != is_root && is_at(&most, 9_000, 9_001) == is_root)
}

// Rank 0 gets its own numbers, and rank 1 the sums.
fn is_scanned<H: Host>(rank: &mut Rank<'_, H>, list: &[u32]) -> Result<bool, CallError> {
    let sums = rank.scan(rank.world(), Op::Sum, list)?;
    let last = if rank.number() == 0 { 9_999 } else { 19_999 };
    Ok(sums.len() == 10_000 && is_at(&sums, 9_999, last))
}

fn is_gathered<H: Host>(rank: &mut Rank<'_, H>, list: &[u32]) -> Result<bool, CallError> {
    let all = rank.gather(rank.world(), 1, list)?;
    let is_root = rank.number() == 1;
    Ok(all.is_empty() != is_root && is_at(&all, 14_096, 4_097) == is_root)
}

fn is_all<H: Host>(rank: &mut Rank<'_, H>, list: &[u32]) -> Result<bool, CallError> {
    let all = rank.allgather(rank.world(), list)?;
    Ok(all.len() == 20_000 && is_at(&all, 9_999, 9_999) && is_at(&all, 14_096, 4_097))
}

// Each rank gives the first half of its numbers to rank 0, and the other to rank 1.
fn is_swapped<H: Host>(rank: &mut Rank<'_, H>, list: &[u32]) -> Result<bool, CallError> {
    let got = rank.alltoall(rank.world(), 5_000, list)?;
    let first = 5_000 * u32::from(rank.number());
    Ok(got.len() == 10_000 && is_at(&got, 4_999, first + 4_999) && is_at(&got, 5_000, first + 1))
}

fn is_cast<H: Host>(rank: &mut Rank<'_, H>, list: &[u32]) -> Result<bool, CallError> {
    let mine = if rank.number() == 1 {
        list.get(..9_000).unwrap_or(&[])
    } else {
        &[]
    };
    let cast = rank.bcast(rank.world(), 1, 9_000, mine)?;
    Ok(cast.len() == 9_000 && is_at(&cast, 8_999, 9_000))
}

fn is_scattered<H: Host>(rank: &mut Rank<'_, H>, list: &[u32]) -> Result<bool, CallError> {
    let mine = if rank.number() == 0 { list } else { &[] };
    let part = rank.scatter(rank.world(), 0, 5_000, mine)?;
    let first = 5_000 * u32::from(rank.number());
    Ok(part.len() == 5_000 && is_at(&part, 4_500, first + 4_500))
}
