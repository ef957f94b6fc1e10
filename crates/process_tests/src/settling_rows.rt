//! Two ranks and a relay harvest, and drop the posts that both ranks have harvested.
use join_core::{Exact, OutOfMemory};
use mpx_group::Proc;
use mpx_kind::Kind;
use mpx_name::Name;
use mpx_node::{Node, drop_nodes};
use mpx_num::Ops;
use mpx_post::Draft;
use std::alloc::Global;
use std::process::Abort;
use std::test::Fail;
use test_drafts::{a_sum, draft, just};

// What a process does, on the context of all.
#[derive(Clone, Copy)]
enum Act {
    // It posts a sum.
    Sum,
    // It posts a free.
    Free,
    // It takes the board of this process.
    Takes(usize),
    // It harvests all that can be had: so many calls are harvested then.
    HarvestsAll(u32),
    // It is to drop the posts of so many calls.
    IsToDrop(Option<u32>),
    // It drops them, where there are any.
    Drops(bool),
    // It harvests all, and then drops, where there are any.
    Settles(bool),
    // The context is dead there.
    IsDead,
}

// Which process, ranks 0 and 1 or relay 2, what it does, and of how many calls it has dropped the posts then.
type Row = (usize, Act, u32);

const ROWS: &[Row] = &[
    (0, Act::Sum, 0),
    (0, Act::Sum, 0),
    (1, Act::Sum, 0),
    (0, Act::HarvestsAll(0), 0),
    (0, Act::IsToDrop(None), 0),
    (0, Act::Takes(1), 0),
    (0, Act::HarvestsAll(1), 0),
    (0, Act::IsToDrop(None), 0),
    (0, Act::Drops(false), 0),
    (1, Act::Takes(0), 0),
    (1, Act::IsToDrop(None), 0),
    (1, Act::Settles(true), 1),
    (1, Act::IsToDrop(None), 1),
    (1, Act::Sum, 1),
    (1, Act::Settles(false), 1),
    (0, Act::Takes(1), 1),
    (0, Act::IsToDrop(None), 1),
    (0, Act::HarvestsAll(2), 1),
    (2, Act::Takes(0), 1),
    (2, Act::IsToDrop(Some(2)), 1),
    (2, Act::Settles(true), 2),
    (2, Act::Settles(false), 2),
    (0, Act::IsToDrop(Some(2)), 1),
    (0, Act::Drops(true), 2),
    (0, Act::Drops(false), 2),
    (0, Act::Free, 2),
    (1, Act::Takes(0), 2),
    (1, Act::Free, 2),
    (1, Act::HarvestsAll(3), 2),
    (1, Act::IsToDrop(None), 2),
    (0, Act::Takes(1), 2),
    (0, Act::HarvestsAll(3), 2),
    // The relay drops the posts of the free, and knows no result of it. Where rank 1 takes that, the context isn't dead yet.
    (2, Act::Takes(0), 2),
    (2, Act::IsToDrop(Some(3)), 2),
    (2, Act::Drops(true), 3),
    (1, Act::Takes(2), 3),
    (1, Act::IsToDrop(Some(3)), 3),
    (1, Act::Settles(true), 0),
    (1, Act::IsDead, 0),
    (1, Act::Settles(false), 0),
    (0, Act::IsToDrop(Some(3)), 2),
    (0, Act::Drops(true), 0),
    (0, Act::IsDead, 0),
];

fn posts(alloc: Global, node: &mut Node, world: &Name, draft: Draft, ops: &Ops) -> bool {
    node.post(alloc, world, draft, ops).is_ok()
}

// Whether it comes out so.
fn does(
    alloc: Global,
    node: &mut Node,
    world: &Name,
    act: Act,
    ops: &Ops,
) -> Result<bool, OutOfMemory> {
    match act {
        Act::Sum => Ok(posts(alloc, node, world, a_sum(alloc, 1)?, ops)),
        Act::Free => Ok(posts(alloc, node, world, draft(alloc, &just(Kind::Free))?, ops)),
        Act::Takes(_) => Ok(false),
        Act::HarvestsAll(front) => {
            node.harvest_all(alloc, world, ops)?;
            Ok(node.front(world) == front)
        }
        Act::IsToDrop(number) => Ok(node.to_drop(world) == number),
        Act::Drops(some) => Ok(node.prune_to_floor(world) == some),
        Act::Settles(some) => Ok(node.settle(alloc, world, ops)? == some),
        Act::IsDead => Ok(node.board().is_dead(world)),
    }
}

// Whether a process takes the board of another.
fn takes(alloc: Global, nodes: &mut [Node], to: usize, from: usize) -> Result<bool, OutOfMemory> {
    let Some(other) = nodes.get(from) else {
        return Ok(false);
    };
    let part = other.board().copy(alloc)?;
    let took = match nodes.get_mut(to) {
        Some(node) => node.take(alloc, &part),
        None => Ok(()),
    };
    drop(part);
    took?;
    Ok(true)
}

// Whether the row comes out so.
fn is_so(
    alloc: Global,
    nodes: &mut [Node],
    world: &Name,
    row: Row,
    ops: &Ops,
) -> Result<bool, OutOfMemory> {
    let (at, act, dropped) = row;
    if let Act::Takes(from) = act {
        if !takes(alloc, nodes, at, from)? {
            return Ok(false);
        }
    } else if let Some(node) = nodes.get_mut(at) {
        if !does(alloc, node, world, act, ops)? {
            return Ok(false);
        }
    }
    match nodes.get(at) {
        Some(node) => Ok(node.board().dropped(world) == dropped),
        None => Ok(false),
    }
}

// The place of the first row that comes out otherwise.
fn first_wrong(
    alloc: Global,
    nodes: &mut [Node],
    world: &Name,
    ops: &Ops,
) -> Result<Option<usize>, OutOfMemory> {
    for (place, &row) in ROWS.iter().enumerate() {
        if !is_so(alloc, nodes, world, row, ops)? {
            return Ok(Some(place));
        }
    }
    Ok(None)
}

// Two ranks and a relay.
fn processes(alloc: Global) -> Result<Vec<Node>, OutOfMemory> {
    let mut nodes = Vec::new(alloc);
    for me in 0..3u8 {
        nodes.push(Node::new(alloc, Proc::new(me), 2, 3)?)?;
    }
    Ok(nodes)
}

#[test]
fn processes_settle_so(rt: HostRuntime) -> Result<(), Fail> {
    let ops = Ops::none(rt.alloc());
    let world = Name::world(rt.alloc());
    let mut nodes = processes(rt.alloc())?;
    let wrong = first_wrong(rt.alloc(), &mut nodes, &world, &ops);
    drop_nodes(nodes);
    assert_eq!(rt; wrong, Ok(None));
    Ok(())
}
