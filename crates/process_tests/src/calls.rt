//! Each call by its name, blocking and nonblocking, by the only rank of a communicator that has an edge to itself.
use crate::questions::{as_integers, asks};
use mpx_comm::{CallError, Comm, Desk, Request};
use mpx_group::Proc;
use mpx_kind::{Exchange, Kind, Neighbourhood, NewCommunicator, Reduction};
use mpx_node::{Finished, Node};
use mpx_num::{Numbers, Op, Ops, Ty};
use mpx_post::{DraftedEdge, DraftedNeighbour, PostError};
use mpx_value::Outcome;
use std::alloc::Global;
use std::test::Fail;
use test_drafts::{draft, just, kinds};

const KINDS: [Kind; 21] = [
    kinds::BARRIER,
    kinds::BCAST,
    kinds::GATHER,
    kinds::GATHERV,
    kinds::SCATTER,
    kinds::SCATTERV,
    kinds::ALLGATHER,
    kinds::ALLGATHERV,
    kinds::ALLTOALL,
    kinds::ALLTOALLV,
    kinds::REDUCE,
    kinds::ALLREDUCE,
    kinds::REDUCE_SCATTER_BLOCK,
    kinds::REDUCE_SCATTER,
    kinds::SCAN,
    kinds::EXSCAN,
    kinds::NEIGHBOR_ALLGATHER,
    kinds::NEIGHBOR_ALLGATHERV,
    kinds::NEIGHBOR_ALLTOALL,
    kinds::NEIGHBOR_ALLTOALLV,
    kinds::CREATE_GROUP,
];

// The kinds that only block. Behind the last one the communicator is closed.
const BLOCKING: [Kind; 6] = [
    kinds::DIST_GRAPH,
    kinds::DIST_GRAPH_ADJACENT,
    kinds::DUP,
    kinds::SPLIT,
    kinds::CREATE,
    Kind::Free,
];

const SEVEN: &[i128] = &[7];

// The one item that is given.
fn seven() -> Numbers {
    Numbers::one(7)
}

// How many items there are.
fn one() -> Numbers {
    Numbers::one(1)
}

pub fn exchange(
    alloc: Global,
    desk: &mut Desk<Node>,
    comm: &Comm,
    kind: Exchange,
    ops: &Ops,
) -> Result<Finished, CallError> {
    match kind {
        Exchange::Barrier => desk.barrier(alloc, comm, 0, ops),
        Exchange::Bcast => desk.bcast(alloc, comm, 0, Ty::I64, 1, seven(), 0, ops),
        Exchange::Gather => desk.gather(alloc, comm, 0, Ty::I64, seven(), 0, ops),
        Exchange::Gatherv => desk.gatherv(alloc, comm, 0, Ty::I64, one(), seven(), 0, ops),
        Exchange::Scatter => desk.scatter(alloc, comm, 0, Ty::I64, 1, seven(), 0, ops),
        Exchange::Scatterv => desk.scatterv(alloc, comm, 0, Ty::I64, one(), 1, seven(), 0, ops),
        Exchange::Allgather => desk.allgather(alloc, comm, Ty::U8, seven(), 0, ops),
        Exchange::Allgatherv => desk.allgatherv(alloc, comm, Ty::U8, one(), seven(), 0, ops),
        Exchange::Alltoall => desk.alltoall(alloc, comm, Ty::U8, 1, seven(), 0, ops),
        Exchange::Alltoallv => desk.alltoallv(alloc, comm, Ty::U8, one(), one(), seven(), 0, ops),
    }
}

fn start_exchange(
    alloc: Global,
    desk: &mut Desk<Node>,
    comm: &Comm,
    kind: Exchange,
    ops: &Ops,
) -> Result<Request, PostError> {
    match kind {
        Exchange::Barrier => desk.ibarrier(alloc, comm, ops),
        Exchange::Bcast => desk.ibcast(alloc, comm, 0, Ty::I64, 1, seven(), ops),
        Exchange::Gather => desk.igather(alloc, comm, 0, Ty::I64, seven(), ops),
        Exchange::Gatherv => desk.igatherv(alloc, comm, 0, Ty::I64, one(), seven(), ops),
        Exchange::Scatter => desk.iscatter(alloc, comm, 0, Ty::I64, 1, seven(), ops),
        Exchange::Scatterv => desk.iscatterv(alloc, comm, 0, Ty::I64, one(), 1, seven(), ops),
        Exchange::Allgather => desk.iallgather(alloc, comm, Ty::U8, seven(), ops),
        Exchange::Allgatherv => desk.iallgatherv(alloc, comm, Ty::U8, one(), seven(), ops),
        Exchange::Alltoall => desk.ialltoall(alloc, comm, Ty::U8, 1, seven(), ops),
        Exchange::Alltoallv => desk.ialltoallv(alloc, comm, Ty::U8, one(), one(), seven(), ops),
    }
}

pub fn reduction(
    alloc: Global,
    desk: &mut Desk<Node>,
    comm: &Comm,
    kind: Reduction,
    ops: &Ops,
) -> Result<Finished, CallError> {
    let (op, ty) = (Op::Sum, Ty::I64);
    match kind {
        Reduction::Reduce => desk.reduce(alloc, comm, 0, op, ty, seven(), 0, ops),
        Reduction::Allreduce => desk.allreduce(alloc, comm, op, ty, seven(), 0, ops),
        Reduction::ReduceScatterBlock => {
            desk.reduce_scatter_block(alloc, comm, op, ty, 1, seven(), 0, ops)
        }
        Reduction::ReduceScatter => {
            desk.reduce_scatter(alloc, comm, op, ty, one(), seven(), 0, ops)
        }
        Reduction::Scan => desk.scan(alloc, comm, op, ty, seven(), 0, ops),
        Reduction::Exscan => desk.exscan(alloc, comm, op, ty, seven(), 0, ops),
    }
}

fn start_reduction(
    alloc: Global,
    desk: &mut Desk<Node>,
    comm: &Comm,
    kind: Reduction,
    ops: &Ops,
) -> Result<Request, PostError> {
    let (op, ty) = (Op::Sum, Ty::I64);
    match kind {
        Reduction::Reduce => desk.ireduce(alloc, comm, 0, op, ty, seven(), ops),
        Reduction::Allreduce => desk.iallreduce(alloc, comm, op, ty, seven(), ops),
        Reduction::ReduceScatterBlock => {
            desk.ireduce_scatter_block(alloc, comm, op, ty, 1, seven(), ops)
        }
        Reduction::ReduceScatter => desk.ireduce_scatter(alloc, comm, op, ty, one(), seven(), ops),
        Reduction::Scan => desk.iscan(alloc, comm, op, ty, seven(), ops),
        Reduction::Exscan => desk.iexscan(alloc, comm, op, ty, seven(), ops),
    }
}

fn along_edges(
    alloc: Global,
    desk: &mut Desk<Node>,
    comm: &Comm,
    kind: Neighbourhood,
    ops: &Ops,
) -> Result<Finished, CallError> {
    let ty = Ty::I8;
    match kind {
        Neighbourhood::Allgather => desk.neighbor_allgather(alloc, comm, ty, 1, seven(), 0, ops),
        Neighbourhood::Allgatherv => {
            desk.neighbor_allgatherv(alloc, comm, ty, one(), seven(), 0, ops)
        }
        Neighbourhood::Alltoall => desk.neighbor_alltoall(alloc, comm, ty, 1, 1, seven(), 0, ops),
        Neighbourhood::Alltoallv => {
            desk.neighbor_alltoallv(alloc, comm, ty, one(), one(), seven(), 0, ops)
        }
    }
}

fn start_along_edges(
    alloc: Global,
    desk: &mut Desk<Node>,
    comm: &Comm,
    kind: Neighbourhood,
    ops: &Ops,
) -> Result<Request, PostError> {
    let ty = Ty::I8;
    match kind {
        Neighbourhood::Allgather => desk.ineighbor_allgather(alloc, comm, ty, 1, seven(), ops),
        Neighbourhood::Allgatherv => {
            desk.ineighbor_allgatherv(alloc, comm, ty, one(), seven(), ops)
        }
        Neighbourhood::Alltoall => desk.ineighbor_alltoall(alloc, comm, ty, 1, 1, seven(), ops),
        Neighbourhood::Alltoallv => {
            desk.ineighbor_alltoallv(alloc, comm, ty, one(), one(), seven(), ops)
        }
    }
}

// By an edge of the rank to itself.
fn of_edges(
    alloc: Global,
    desk: &mut Desk<Node>,
    comm: &Comm,
    ops: &Ops,
) -> Result<Finished, CallError> {
    let mut edges = Vec::new(alloc);
    let _ = edges.push(DraftedEdge {
        source: 0,
        destination: 0,
        weight: 0,
    });
    desk.dist_graph(alloc, comm, false, edges, 0, ops)
}

// By the rank as its own neighbour.
fn of_neighbours(
    alloc: Global,
    desk: &mut Desk<Node>,
    comm: &Comm,
    ops: &Ops,
) -> Result<Finished, CallError> {
    let near = DraftedNeighbour { rank: 0, weight: 4 };
    let (mut sources, mut destinations) = (Vec::new(alloc), Vec::new(alloc));
    let _ = sources.push(near);
    let _ = destinations.push(near);
    desk.dist_graph_adjacent(alloc, comm, true, sources, destinations, 0, ops)
}

fn make(
    alloc: Global,
    desk: &mut Desk<Node>,
    comm: &Comm,
    kind: NewCommunicator,
    ops: &Ops,
) -> Result<Finished, CallError> {
    match kind {
        NewCommunicator::Dup => desk.dup(alloc, comm, 0, ops),
        NewCommunicator::Split => desk.split(alloc, comm, Some(3), -1, 0, ops),
        NewCommunicator::Create => desk.create(alloc, comm, Numbers::one(0), 0, ops),
        NewCommunicator::CreateGroup => {
            desk.create_group(alloc, comm, 9, Numbers::one(0), 0, ops)
        }
        NewCommunicator::DistGraph => of_edges(alloc, desk, comm, ops),
        NewCommunicator::DistGraphAdjacent => of_neighbours(alloc, desk, comm, ops),
    }
}

pub fn make_call(
    alloc: Global,
    desk: &mut Desk<Node>,
    comm: &Comm,
    kind: Kind,
    ops: &Ops,
) -> Result<Finished, CallError> {
    match kind {
        Kind::Exchange(kind) => exchange(alloc, desk, comm, kind, ops),
        Kind::Reduction(kind) => reduction(alloc, desk, comm, kind, ops),
        Kind::NewCommunicator(kind) => make(alloc, desk, comm, kind, ops),
        Kind::Neighbourhood(kind) => along_edges(alloc, desk, comm, kind, ops),
        Kind::Free => desk.free(alloc, comm, 0, ops),
    }
}

fn start_call(
    alloc: Global,
    desk: &mut Desk<Node>,
    comm: &Comm,
    kind: Kind,
    ops: &Ops,
) -> Result<Request, PostError> {
    match kind {
        Kind::Exchange(kind) => start_exchange(alloc, desk, comm, kind, ops),
        Kind::Reduction(kind) => start_reduction(alloc, desk, comm, kind, ops),
        Kind::Neighbourhood(kind) => start_along_edges(alloc, desk, comm, kind, ops),
        _ => desk.start_create_group(alloc, comm, 5, Numbers::one(0), ops),
    }
}

// A post on a gathering that was opened before.
fn start_gathered(
    alloc: Global,
    desk: &mut Desk<Node>,
    comm: &Comm,
    ops: &Ops,
) -> Result<Request, PostError> {
    let gathering = desk.open_gathering(alloc, comm, 4, Numbers::one(0))?;
    let request = match draft(alloc, &just(kinds::CREATE_GROUP)) {
        Ok(draft) => desk.post_gathered(alloc, &gathering, draft, ops),
        Err(_) => Err(PostError::OutOfMemory),
    };
    drop(gathering);
    request
}

// Whether the call gave just the item; a barrier and a free give nothing, nothing is below rank 0, and the others make a communicator of
// the rank alone.
fn is_right(kind: Kind, finished: &Finished) -> bool {
    match &finished.outcome {
        Outcome::Items(items) => items.nums() == SEVEN,
        Outcome::Nothing => kind == kinds::BARRIER || kind == Kind::Free,
        Outcome::Absent => kind == kinds::EXSCAN,
        Outcome::NewComm {
            name: _,
            size,
            rank,
        } => { matches!(kind, Kind::NewCommunicator(_)) && *size == 1 && *rank == 0 }
        _ => false,
    }
}

fn gives<E: Drop>(kind: Kind, answer: Result<Finished, E>) -> bool {
    let is_so = match &answer {
        Ok(finished) => is_right(kind, finished),
        Err(_) => false,
    };
    drop(answer);
    is_so
}

// Whether the request does, without a turn.
fn gives_later(
    alloc: Global,
    desk: &mut Desk<Node>,
    kind: Kind,
    answer: Result<Request, PostError>,
    ops: &Ops,
) -> bool {
    match answer {
        Ok(request) => gives(kind, desk.wait(alloc, request, 0, ops)),
        Err(_) => false,
    }
}

// The communicator of a call.
fn made(alloc: Global, answer: Result<Finished, CallError>) -> Option<Comm> {
    let made = match &answer {
        Ok(finished) => Comm::of(alloc, finished),
        Err(_) => Ok(None),
    };
    drop(answer);
    made.ok()?
}

// One by any edges, and then one by the own neighbours.
fn with_edges(alloc: Global, desk: &mut Desk<Node>, world: &Comm, ops: &Ops) -> Option<Comm> {
    let general = made(alloc, of_edges(alloc, desk, world, ops))?;
    let near = of_neighbours(alloc, desk, &general, ops);
    drop(general);
    made(alloc, near)
}

// Whether a call of the kind gives what it should, blocking and nonblocking.
fn both_give(alloc: Global, desk: &mut Desk<Node>, comm: &Comm, kind: Kind, ops: &Ops) -> bool {
    let called = gives(kind, make_call(alloc, desk, comm, kind, ops));
    let started = start_call(alloc, desk, comm, kind, ops);
    called & gives_later(alloc, desk, kind, started, ops)
}

// The first kind whose calls don't, if there is one.
fn first_wrong(alloc: Global, desk: &mut Desk<Node>, comm: &Comm, ops: &Ops) -> Option<Kind> {
    for kind in KINDS {
        if !both_give(alloc, desk, comm, kind, ops) {
            return Some(kind);
        }
    }
    for kind in BLOCKING {
        if !gives(kind, make_call(alloc, desk, comm, kind, ops)) {
            return Some(kind);
        }
    }
    None
}

fn gathers(alloc: Global, desk: &mut Desk<Node>, comm: &Comm, ops: &Ops) -> bool {
    let started = start_gathered(alloc, desk, comm, ops);
    gives_later(alloc, desk, kinds::CREATE_GROUP, started, ops)
}

fn is_closed(alloc: Global, desk: &mut Desk<Node>, comm: &Comm, ops: &Ops) -> bool {
    let closed = start_call(alloc, desk, comm, kinds::BARRIER, ops);
    closed.err() == Some(PostError::Closed)
}

// Whether the rank is told what it asks, in integers too, and a post on a gathering gives what it should; the first kind whose calls don't;
// and whether the communicator is closed then.
fn come_out(
    alloc: Global,
    desk: &mut Desk<Node>,
    world: &Comm,
    ops: &Ops,
) -> Option<(bool, Option<Kind>, bool)> {
    let comm = with_edges(alloc, desk, world, ops)?;
    let asked = asks(alloc, desk, &comm, world) == Ok(true);
    let given = as_integers(alloc, desk, &comm, ops);
    let gathered = gathers(alloc, desk, &comm, ops);
    let wrong = first_wrong(alloc, desk, &comm, ops);
    let closed = is_closed(alloc, desk, &comm, ops);
    drop(comm);
    Some((asked && given && gathered, wrong, closed))
}

#[test]
fn calls_by_name(rt: HostRuntime) -> Result<(), Fail> {
    let ops = Ops::none(rt.alloc());
    let mut desk = Desk::new(rt.alloc(), Node::new(rt.alloc(), Proc::new(0), 1, 1)?);
    let came = come_out(rt.alloc(), &mut desk, &Comm::world(rt.alloc(), 1, 0), &ops);
    drop(desk);
    assert_eq!(rt; came, Some((true, None, true)));
    Ok(())
}
