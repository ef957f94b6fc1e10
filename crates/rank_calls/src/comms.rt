//! Calls that make communicators, and errors.
use mpx_num::Op;
use mpx_program_rank::{CallError, Comm, Host, Rank};

/// The rank's number in each, and how many ranks that has.
pub fn calls<H: Host>(rank: &mut Rank<'_, H>) -> Result<String, CallError> {
    let dup = dup(rank)?;
    let split = split(rank)?;
    let created = created(rank)?;
    let group = group(rank)?;
    Ok(format!(in rank.alloc; "{dup:?} {split:?} {created:?} {group:?}")?)
}

fn place(comm: &Comm) -> (u8, u8) {
    (comm.rank(), comm.size())
}

fn dup<H: Host>(rank: &mut Rank<'_, H>) -> Result<(u8, u8), CallError> {
    let comm = rank.dup(rank.world())?;
    let place = place(&comm);
    rank.free(&comm)?;
    Ok(place)
}

// Rank 0 gives no colour.
fn split<H: Host>(rank: &mut Rank<'_, H>) -> Result<Option<(u8, u8)>, CallError> {
    let colour = if rank.number() == 0 { None } else { Some(3) };
    let comm = rank.split(rank.world(), colour, 0)?;
    Ok(comm.map(|comm| place(&comm)))
}

fn created<H: Host>(rank: &mut Rank<'_, H>) -> Result<Option<(u8, u8)>, CallError> {
    let comm = rank.create(rank.world(), &[1])?;
    Ok(comm.map(|comm| place(&comm)))
}

// Only the ranks of the list call it.
fn group<H: Host>(rank: &mut Rank<'_, H>) -> Result<(u8, u8), CallError> {
    let comm = rank.create_group(rank.world(), 5, &[1, 0])?;
    Ok(place(&comm))
}

/// What errors say. These are the first calls.
pub fn errors<H: Host>(rank: &mut Rank<'_, H>) -> Result<String, CallError> {
    let refusal = refusal(rank)?;
    let fault = fault(rank)?;
    let question = question(rank)?;
    Ok(format!(in rank.alloc; "{refusal}; {fault}; {question}")?)
}

fn refusal<H: Host>(rank: &mut Rank<'_, H>) -> Result<String, CallError> {
    match rank.reduce(rank.world(), 9, Op::Sum, &[1u8]) {
        Ok(list) => Ok(format!(in rank.alloc; "{list:?}")?),
        Err(e) => Ok(format!(in rank.alloc; "{e}")?),
    }
}

// Rank 1 gives two items, and the other one.
fn fault<H: Host>(rank: &mut Rank<'_, H>) -> Result<String, CallError> {
    let items: &[u8] = if rank.number() == 0 { &[1] } else { &[1, 2] };
    match rank.allreduce(rank.world(), Op::Sum, items) {
        Ok(list) => Ok(format!(in rank.alloc; "{list:?}")?),
        Err(e) => Ok(format!(in rank.alloc; "{e}, a fault: {}", e.fault().is_some())?),
    }
}

// How many ranks this one hears.
fn sources<H: Host>(rank: &Rank<'_, H>, comm: &Comm) -> Result<usize, CallError> {
    Ok(rank.desk.sources(comm)?.len())
}

// The communicator of all ranks has no graph.
fn question<H: Host>(rank: &Rank<'_, H>) -> Result<String, CallError> {
    match sources(rank, rank.world()) {
        Ok(count) => Ok(format!(in rank.alloc; "{count}")?),
        Err(e) => Ok(format!(in rank.alloc; "{e}")?),
    }
}
