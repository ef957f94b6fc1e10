//! Calls that don't block, each waited for at once; and what else there is for requests.
use mpx_num::Op;
use mpx_program_rank::{CallError, Host, Pending, Rank};

/// What those of lists give, and those that combine.
pub fn calls<H: Host>(rank: &mut Rank<'_, H>) -> Result<String, CallError> {
    let lists = lists(rank)?;
    let parts = parts(rank)?;
    let combined = combined(rank)?;
    let requests = requests(rank)?;
    Ok(format!(in rank.alloc; "{lists}, {parts}, {combined}, {requests}")?)
}

fn lists<H: Host>(rank: &mut Rank<'_, H>) -> Result<String, CallError> {
    let cast = cast(rank)?;
    let gathered = gathered(rank)?;
    let scattered = scattered(rank)?;
    let swapped = swapped(rank)?;
    Ok(format!(in rank.alloc; "{cast:?} {gathered:?} {scattered:?} {swapped:?}")?)
}

fn parts<H: Host>(rank: &mut Rank<'_, H>) -> Result<String, CallError> {
    let gathered = gathered_parts(rank)?;
    let scattered = scattered_parts(rank)?;
    let all = all_parts(rank)?;
    let swapped = swapped_parts(rank)?;
    Ok(format!(in rank.alloc; "{gathered:?} {scattered:?} {all:?} {swapped:?}")?)
}

fn combined<H: Host>(rank: &mut Rank<'_, H>) -> Result<String, CallError> {
    let most = most(rank)?;
    let block = block(rank)?;
    let part = part(rank)?;
    let scanned = scanned(rank)?;
    let before = before(rank)?;
    Ok(format!(in rank.alloc; "{most:?} {block:?} {part:?} {scanned:?} {before:?}")?)
}

fn requests<H: Host>(rank: &mut Rank<'_, H>) -> Result<String, CallError> {
    let met = met(rank)?;
    let turned = turned(rank)?;
    let is_first = is_first(rank)?;
    Ok(format!(in rank.alloc; "{met:?} {turned:?} {is_first}")?)
}

// The rank's own number, from 1 on.
fn mine<H: Host>(rank: &Rank<'_, H>) -> u32 {
    u32::from(rank.number()) + 1
}

// One number of rank 0, and two of rank 1.
fn own<H: Host>(rank: &Rank<'_, H>) -> &'static [u16] {
    if rank.number() == 0 { &[1] } else { &[2, 3] }
}

// These at the rank, and none elsewhere.
fn at<'i, T, H: Host>(rank: &Rank<'_, H>, root: u8, items: &'i [T]) -> &'i [T] {
    if rank.number() == root { items } else { &[] }
}

fn cast<H: Host>(rank: &mut Rank<'_, H>) -> Result<Vec<u16>, CallError> {
    let pending = rank.ibcast(rank.world(), 1, 2, at(rank, 1, &[8, 9]))?;
    rank.wait(pending)
}

fn gathered<H: Host>(rank: &mut Rank<'_, H>) -> Result<Vec<u32>, CallError> {
    let pending = rank.igather(rank.world(), 0, &[mine(rank)])?;
    rank.wait(pending)
}

fn scattered<H: Host>(rank: &mut Rank<'_, H>) -> Result<Vec<u16>, CallError> {
    let pending = rank.iscatter(rank.world(), 0, 1, at(rank, 0, &[6, 7]))?;
    rank.wait(pending)
}

fn swapped<H: Host>(rank: &mut Rank<'_, H>) -> Result<Vec<u32>, CallError> {
    let pending = rank.ialltoall(rank.world(), 1, &[mine(rank), 5])?;
    rank.wait(pending)
}

fn gathered_parts<H: Host>(rank: &mut Rank<'_, H>) -> Result<Vec<u16>, CallError> {
    let pending = rank.igatherv(rank.world(), 1, at(rank, 1, &[1, 2]), own(rank))?;
    rank.wait(pending)
}

fn scattered_parts<H: Host>(rank: &mut Rank<'_, H>) -> Result<Vec<u16>, CallError> {
    let (counts, items) = (at(rank, 0, &[1, 2]), at(rank, 0, &[7, 8, 9]));
    let pending = rank.iscatterv(rank.world(), 0, counts, own(rank).len(), items)?;
    rank.wait(pending)
}

fn all_parts<H: Host>(rank: &mut Rank<'_, H>) -> Result<Vec<u16>, CallError> {
    let pending = rank.iallgatherv(rank.world(), &[1, 2], own(rank))?;
    rank.wait(pending)
}

// Each rank gives the other its numbers, and itself none.
fn swapped_parts<H: Host>(rank: &mut Rank<'_, H>) -> Result<Vec<u16>, CallError> {
    let (sent, taken) = if rank.number() == 0 {
        ([0, 1], [0, 2])
    } else {
        ([2, 0], [1, 0])
    };
    let pending = rank.ialltoallv(rank.world(), &sent, &taken, own(rank))?;
    rank.wait(pending)
}

fn most<H: Host>(rank: &mut Rank<'_, H>) -> Result<Vec<u32>, CallError> {
    let pending = rank.ireduce(rank.world(), 1, Op::Max, &[mine(rank)])?;
    rank.wait(pending)
}

fn block<H: Host>(rank: &mut Rank<'_, H>) -> Result<Vec<u32>, CallError> {
    let pending = rank.ireduce_scatter_block(rank.world(), Op::Sum, 1, &[mine(rank), 5])?;
    rank.wait(pending)
}

fn part<H: Host>(rank: &mut Rank<'_, H>) -> Result<Vec<u32>, CallError> {
    let pending = rank.ireduce_scatter(rank.world(), Op::Sum, &[1, 2], &[1, 2, 3])?;
    rank.wait(pending)
}

fn scanned<H: Host>(rank: &mut Rank<'_, H>) -> Result<Vec<u32>, CallError> {
    let pending = rank.iscan(rank.world(), Op::Sum, &[mine(rank)])?;
    rank.wait(pending)
}

fn before<H: Host>(rank: &mut Rank<'_, H>) -> Result<Vec<u32>, CallError> {
    let pending = rank.iexscan(rank.world(), Op::Sum, &[mine(rank)])?;
    rank.wait(pending)
}

// A barrier gives no items.
fn met<H: Host>(rank: &mut Rank<'_, H>) -> Result<Vec<u8>, CallError> {
    let pending = rank.ibarrier(rank.world())?;
    rank.wait(pending)
}

fn summed<H: Host>(rank: &mut Rank<'_, H>) -> Result<Pending<u32>, CallError> {
    rank.iallreduce(rank.world(), Op::Sum, &[mine(rank)])
}

// Between the call and its wait the rank makes turns for the others.
fn turned<H: Host>(rank: &mut Rank<'_, H>) -> Result<Vec<u32>, CallError> {
    let pending = summed(rank)?;
    rank.turn(2)?;
    rank.wait(pending)
}

// Whether of open calls the one that is done is this one.
fn is_first<H: Host>(rank: &mut Rank<'_, H>) -> Result<bool, CallError> {
    let pending = summed(rank)?;
    match rank.waitany()? {
        Some(done) => Ok(done.is(&pending)),
        None => Ok(false),
    }
}
