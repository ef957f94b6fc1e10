//! The calls of one rank, over any host: requests that overlap, calls that make communicators, and calls on what they made.
ghost use Rattle.std.specs.Prelude.{◌≡◌, IfOk, Some};
ghost use Rattle.mpx_comm.specs.Comms.{comm_of};
ghost use Rattle.mpx_request.specs.Requests.{result_of};

use crate::TURNS;
use crate::desks::number_in;
use crate::why::Why;
use mpx_comm::{Comm, Desk, Host, Request, Tested};
use mpx_node::Finished;
use mpx_num::{Numbers, Op, Ops, Ty};
use mpx_post::DraftedNeighbour;
use mpx_ranks::Program;
use std::alloc::Global;

/// Each rank makes all of these calls.
pub struct Calls;

impl Program for Calls {
    type Answer = Result<String, Why>;

    fn run<H: Host>(
        &self,
        alloc: Global,
        desk: &mut Desk<H>,
        world: &Comm,
        ops: &Ops,
    ) -> Result<String, Why> {
        let (first, last) = two_sums(alloc, desk, world, ops)?;
        let split = split_by_key(alloc, desk, world, ops)?;
        let group = group_of_two(alloc, desk, world, ops)?;
        let heard = heard_in_ring(alloc, desk, world, ops)?;
        Ok(format!(in alloc;
            "sums {first} {last}, split {split:?}, group {group:?}, ring {heard}"
        )?)
    }

    fn gives_up(&self, answer: &Result<String, Why>) -> bool {
        answer.is_err()
    }
}

/// Posts the sum of all ranks' numbers. It waits for nobody.
pub fn post_sum<H: Host>(
    alloc: Global,
    desk: &mut Desk<H>,
    comm: &Comm,
    number: i128,
    ops: &Ops,
) -> Result<Request, Why> {
    let items = Numbers::one(number);
    Ok(desk.iallreduce(alloc, comm, Op::Sum, Ty::I32, items, ops)?)
}

// The result of a call that is done: the stored one.
fn tested<H: Host>(
    alloc: Global,
    desk: &mut Desk<H>,
    request: Request,
    ops: &Ops,
) -> Result<Finished, Why>
    ensures { IfOk result (λ finished. result_of (H.node desk.new.host) request ≡ Some finished) }
{
    match desk.test(alloc, request, ops)? {
        Tested::Done(finished) => Ok(finished),
        Tested::NotYet(_) | Tested::LetGo(_) => Err(Why::NoAnswer),
    }
}

// The number that a call gives, which may be waited for.
fn waited<H: Host>(
    alloc: Global,
    desk: &mut Desk<H>,
    request: Request,
    ops: &Ops,
) -> Result<i128, Why> {
    number_in(desk.wait(alloc, request, TURNS, ops)?)
}

// Two sums at once. The last one is asked for first.
fn two_sums<H: Host>(
    alloc: Global,
    desk: &mut Desk<H>,
    world: &Comm,
    ops: &Ops,
) -> Result<(i128, i128), Why> {
    let rank = i128::from(world.rank());
    let first = post_sum(alloc, desk, world, rank + 1, ops)?;
    let last = post_sum(alloc, desk, world, rank + 2, ops)?;
    let last = waited(alloc, desk, last, ops)?;
    let first = number_in(tested(alloc, desk, first, ops)?)?;
    Ok((first, last))
}

// The communicator that a call gave, or none where the rank is in none.
fn comm_in(alloc: Global, finished: Finished) -> Result<Option<Comm>, Why>
    ensures { IfOk result (λ comm. comm ≡ comm_of finished.outcome) }
{
    let comm = Comm::of(alloc, &finished);
    drop(finished);
    Ok(comm?)
}

// Its size, and the rank there.
fn place_in(alloc: Global, finished: Finished) -> Result<Option<(u8, u8)>, Why> {
    match comm_in(alloc, finished)? {
        Some(comm) => Ok(Some((comm.size(), comm.rank()))),
        None => Ok(None),
    }
}

// Ranks 0 and 1 in one communicator, ordered by key, and the others in none.
fn split_by_key<H: Host>(
    alloc: Global,
    desk: &mut Desk<H>,
    world: &Comm,
    ops: &Ops,
) -> Result<Option<(u8, u8)>, Why> {
    let colour = if world.rank() < 2 { Some(7) } else { None };
    let key = 5 - i128::from(world.rank());
    let made = desk.split(alloc, world, colour, key, TURNS, ops)?;
    place_in(alloc, made)
}

// By the members alone, in the order of the list.
fn group_of_two<H: Host>(
    alloc: Global,
    desk: &mut Desk<H>,
    world: &Comm,
    ops: &Ops,
) -> Result<Option<(u8, u8)>, Why> {
    if world.rank() > 1 {
        return Ok(None);
    }
    let ranks = Numbers::from_slice(alloc, &[1u8, 0])?;
    let made = desk.create_group(alloc, world, 9, ranks, TURNS, ops)?;
    place_in(alloc, made)
}

// A ring: each rank hears of the one before it, and is heard by the one behind it.
fn ring_of<H: Host>(
    alloc: Global,
    desk: &mut Desk<H>,
    world: &Comm,
    ops: &Ops,
) -> Result<Comm, Why> {
    let (rank, last) = (i128::from(world.rank()), i128::from(world.size()) - 1);
    let source = DraftedNeighbour {
        rank: if rank > 0 { rank - 1 } else { last },
        weight: 0,
    };
    let destination = DraftedNeighbour {
        rank: if rank < last { rank + 1 } else { 0 },
        weight: 0,
    };
    let (sources, destinations) = (vec![in alloc; source]?, vec![in alloc; destination]?);
    let made = desk.dist_graph_adjacent(alloc, world, false, sources, destinations, TURNS, ops)?;
    comm_in(alloc, made)?.ok_or(Why::NoAnswer)
}

// What a rank hears of its neighbour in the ring.
fn heard_in<H: Host>(
    alloc: Global,
    desk: &mut Desk<H>,
    ring: &Comm,
    number: i128,
    ops: &Ops,
) -> Result<i128, Why> {
    let items = Numbers::one(number);
    number_in(desk.neighbor_allgather(alloc, ring, Ty::I32, 1, items, TURNS, ops)?)
}

fn heard_in_ring<H: Host>(
    alloc: Global,
    desk: &mut Desk<H>,
    world: &Comm,
    ops: &Ops,
) -> Result<i128, Why> {
    let ring = ring_of(alloc, desk, world, ops)?;
    let heard = heard_in(alloc, desk, &ring, 20 + i128::from(world.rank()), ops);
    drop(ring);
    heard
}
