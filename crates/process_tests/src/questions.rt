//! What the only rank of a communicator is told of it, and of a result in integers of a type.
use crate::calls::{exchange, reduction};
use mpx_comm::{AskError, CallError, Comm, Desk, Relation, integer_of, integers_of};
use mpx_group::Rank;
use mpx_kind::{Exchange, Reduction};
use mpx_node::{Finished, Node};
use mpx_num::Ops;
use std::alloc::Global;

// Whether the call gave the item as integers of a type, in a list.
fn gives_list(alloc: Global, answer: Result<Finished, CallError>) -> bool {
    match answer {
        Ok(finished) => {
            let list = integers_of::<i64>(alloc, &finished);
            let is_so = match &list {
                Ok(list) => list.as_slice() == [7].as_slice(),
                Err(_) => false,
            };
            drop(list);
            drop(finished);
            is_so
        }
        Err(refused) => {
            drop(refused);
            false
        }
    }
}

// Whether it gave it alone.
fn gives_one(answer: Result<Finished, CallError>) -> bool {
    match answer {
        Ok(finished) => integer_of::<u8>(&finished) == Some(7),
        Err(refused) => {
            drop(refused);
            false
        }
    }
}

pub fn as_integers(alloc: Global, desk: &mut Desk<Node>, comm: &Comm, ops: &Ops) -> bool {
    let listed = exchange(alloc, desk, comm, Exchange::Allgather, ops);
    let summed = reduction(alloc, desk, comm, Reduction::Allreduce, ops);
    gives_list(alloc, listed) & gives_one(summed)
}

// Whether the communicator is the same as its copy.
fn is_as_its_copy(alloc: Global, desk: &Desk<Node>, comm: &Comm) -> bool {
    let copy = comm.copy(alloc);
    let same = match &copy {
        Ok(twin) => desk.compare(comm, twin) == Ok(Relation::Ident),
        Err(_) => false,
    };
    drop(copy);
    same
}

// Whether the rank is the only member, as of the world.
fn is_alone(alloc: Global, desk: &Desk<Node>, comm: &Comm, world: &Comm) -> Result<bool, AskError> {
    let is_like = desk.compare(comm, world)? == Relation::Congruent;
    let count = desk.members(comm)?.len();
    let group = desk.group(alloc, comm)?;
    let same = usize::from(group.size()) == count;
    drop(group);
    Ok(is_like && same && count == 1)
}

fn is_translated(
    alloc: Global,
    desk: &Desk<Node>,
    comm: &Comm,
    world: &Comm,
) -> Result<bool, AskError> {
    let ranks = desk.translate(alloc, comm, &[Rank::At(0), Rank::At(1)], world)?;
    let is_so = ranks.as_slice() == [Rank::At(0), Rank::Undefined].as_slice();
    drop(ranks);
    Ok(is_so)
}

// Whether the rank is its own neighbour, and the world has no graph.
fn is_graph(desk: &Desk<Node>, comm: &Comm, world: &Comm) -> Result<bool, AskError> {
    let (sources, destinations) = (desk.sources(comm)?, desk.destinations(comm)?);
    let is_so = sources.len() == 1 && sources[0].weight == 4 && destinations.len() == 1;
    let has_none = matches!(desk.sources(world), Err(AskError::NoTopology));
    Ok(is_so && desk.is_weighted(comm)? && has_none)
}

// What the rank is told of the graph's communicator.
pub fn asks(alloc: Global, desk: &Desk<Node>, comm: &Comm, world: &Comm) -> Result<bool, AskError> {
    Ok(
        is_as_its_copy(alloc, desk, comm)
            && is_alone(alloc, desk, comm, world)?
            && is_translated(alloc, desk, comm, world)?
            && is_graph(desk, comm, world)?,
    )
}
