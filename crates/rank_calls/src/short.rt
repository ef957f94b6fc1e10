//! Calls of few items.
use mpx_num::Op;
use mpx_program_rank::{CallError, Host, Rank, Tested};

/// What calls that block give.
pub fn calls<H: Host>(rank: &mut Rank<'_, H>) -> Result<String, CallError> {
    let total = total(rank)?;
    let all = all(rank)?;
    let swapped = swapped(rank)?;
    let best = best(rank)?;
    let half = half(rank)?;
    let ones = ones(rank)?;
    Ok(format!(in rank.alloc; "{total:?} {all:?} {swapped:?} {best:?} {half:?} {ones:?}")?)
}

/// What calls that don't block give.
pub fn calls_without_waiting<H: Host>(rank: &mut Rank<'_, H>) -> Result<String, CallError> {
    let polled = polled(rank)?;
    let tested = tested(rank)?;
    let later = later(rank)?;
    let closed = closed(rank)?;
    Ok(format!(in rank.alloc; "{polled:?} {tested:?} {later:?} {closed}")?)
}

// The rank's own number, from 1 on.
fn mine<H: Host>(rank: &Rank<'_, H>) -> i64 {
    i64::from(rank.number()) + 1
}

fn total<H: Host>(rank: &mut Rank<'_, H>) -> Result<Vec<i64>, CallError> {
    let mine = mine(rank);
    rank.allreduce(rank.world(), Op::Sum, &[mine])
}

fn all<H: Host>(rank: &mut Rank<'_, H>) -> Result<Vec<i64>, CallError> {
    let mine = mine(rank);
    rank.gather(rank.world(), 0, &[mine, 7])
}

fn swapped<H: Host>(rank: &mut Rank<'_, H>) -> Result<Vec<u8>, CallError> {
    rank.alltoall(rank.world(), 1, &[1u8, 2])
}

fn best<H: Host>(rank: &mut Rank<'_, H>) -> Result<Vec<(i32, i32)>, CallError> {
    rank.allreduce(rank.world(), Op::Maxloc, &[(5, 1), (2, 3)])
}

// The rank's number in a communicator of its own, and how many ranks that has.
fn half<H: Host>(rank: &mut Rank<'_, H>) -> Result<(u8, u8), CallError> {
    let mine = mine(rank);
    let half = rank.split_by(rank.world(), mine % 2, 0)?;
    Ok((half.rank(), half.size()))
}

// The sum of all numbers, and rank 1's.
fn ones<H: Host>(rank: &mut Rank<'_, H>) -> Result<(i64, i64), CallError> {
    let mine = mine(rank);
    let sum = rank.allreduce_one(rank.world(), Op::Sum, mine)?;
    let cast = rank.bcast_one(rank.world(), 1, mine)?;
    Ok((sum, cast))
}

// The product of all numbers. The rank asks after each piece of its own work, and each question makes a turn.
fn polled<H: Host>(rank: &mut Rank<'_, H>) -> Result<Vec<i64>, CallError> {
    let mine = mine(rank);
    let pending = rank.iallreduce(rank.world(), Op::Prod, &[mine])?;
    for _ in 0..1_000_000 {
        if rank.status(&pending)? {
            break;
        }
        // here stands a piece of the rank's own work
    }
    rank.wait(pending)
}

// The least of all numbers, by tests: each makes a turn.
fn tested<H: Host>(rank: &mut Rank<'_, H>) -> Result<Vec<i64>, CallError> {
    let mine = mine(rank);
    let mut pending = rank.iallreduce(rank.world(), Op::Min, &[mine])?;
    for _ in 0..1_000_000 {
        match rank.test(pending)? {
            Tested::Done(list) => return Ok(list),
            Tested::NotYet(again) | Tested::LetGo(again) => pending = again,
        }
    }
    Ok(Vec::new(rank.alloc))
}

fn later<H: Host>(rank: &mut Rank<'_, H>) -> Result<Vec<i64>, CallError> {
    let mine = mine(rank);
    let pending = rank.iallgather(rank.world(), &[mine])?;
    rank.wait(pending)
}

// How many of two open calls tests have closed: each makes a turn.
fn closed<H: Host>(rank: &mut Rank<'_, H>) -> Result<usize, CallError> {
    let mine = mine(rank);
    let _all = rank.iallgather(rank.world(), &[mine])?;
    let _most = rank.iallreduce(rank.world(), Op::Max, &[mine])?;
    let mut closed: usize = 0;
    for _ in 0..1_000_000 {
        closed = closed.saturating_add(rank.testsome()?.len());
        if closed == 2 {
            break;
        }
    }
    Ok(closed)
}
