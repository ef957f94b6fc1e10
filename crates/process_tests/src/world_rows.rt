//! Worlds: a relay, cuts and refusals, parts in any order, hostile schedules, and a long list of events.
ghost use Rattle.std.specs.Prelude.{◌≡◌, []};

use crate::looks::{Look, is_seen};
use crate::worlds::{Act, Row, Told, first_wrong};
use join_core::Exact;
use mpx_num::{Listing, Ops};
use mpx_world::World;
use std::alloc::Global;
use std::marker::Brand;
use std::process::Abort;
use std::test::Fail;
use test_drafts::contexts::WORLD;
use test_drafts::proc;

// Two ranks, whose posts go through a relay. There is no process 3.
const RELAY: &[Row] = &[
    (1, 0, Act::Sum(1), Told::Posted(0)),
    (1, 1, Act::Sum(2), Told::Posted(0)),
    (1, 0, Act::Send, Told::Sent(0)),
    (1, 1, Act::Send, Told::Sent(1)),
    (1, 2, Act::Take(0), Told::Taken),
    (1, 2, Act::Take(1), Told::Taken),
    (1, 2, Act::Send, Told::Sent(2)),
    (2, 0, Act::Take(2), Told::Taken),
    (1, 1, Act::Take(2), Told::Taken),
    (1, 0, Act::Harvest, Told::Harvested(0)),
    (1, 1, Act::Harvest, Told::Harvested(0)),
    (1, 0, Act::Harvest, Told::NotYet),
    (1, 0, Act::Take(9), Told::NoSuchPart),
    (1, 3, Act::Send, Told::NoSuchProcess),
];

// Three ranks post, and of three relays the first two take two parts in another order, the second one a part twice. All of a rank
// is what a relay has that took all.
const PARTS: &[Row] = &[
    (1, 0, Act::Sum(1), Told::Posted(0)),
    (1, 1, Act::Sum(2), Told::Posted(0)),
    (1, 2, Act::Sum(3), Told::Posted(0)),
    (1, 0, Act::Send, Told::Sent(0)),
    (1, 1, Act::Send, Told::Sent(1)),
    (1, 2, Act::Send, Told::Sent(2)),
    (1, 3, Act::Take(0), Told::Taken),
    (1, 3, Act::Take(1), Told::Taken),
    (1, 4, Act::Take(1), Told::Taken),
    (1, 4, Act::Take(0), Told::Taken),
    (1, 4, Act::Take(1), Told::Taken),
    (1, 5, Act::Take(0), Told::Taken),
    (1, 5, Act::Take(1), Told::Taken),
    (1, 5, Act::Take(2), Told::Taken),
    (1, 2, Act::Take(1), Told::Taken),
    (1, 2, Act::Take(0), Told::Taken),
    (1, 2, Act::Take(1), Told::Taken),
];

// What else a rank of three may do: it opens a gathering, and drops what all have harvested. A relay is no rank, and a part that tells of
// no context tells nothing.
const OTHERS: &[Row] = &[
    (2, 0, Act::Gather, Told::Opened),
    (1, 3, Act::Harvest, Told::NotOpened),
    (1, 0, Act::Prune(1), Told::AboveFloor(0)),
    (1, 0, Act::Prune(0), Told::Pruned),
    (1, 0, Act::SendNothing, Told::Sent(0)),
    (1, 3, Act::Take(0), Told::Taken),
    // No such process is asked before no such part.
    (1, 4, Act::Take(9), Told::NoSuchProcess),
];

// All post 20 barriers, and of 1,000 parts none is taken. Then one whole part of each is enough for all 20.
const NONE_TAKEN: &[Row] = &[
    (20, 0, Act::Barrier, Told::Posted(0)),
    (20, 1, Act::Barrier, Told::Posted(0)),
    (20, 2, Act::Barrier, Told::Posted(0)),
    (334, 0, Act::Send, Told::Sent(0)),
    (333, 1, Act::Send, Told::Sent(334)),
    (333, 2, Act::Send, Told::Sent(667)),
    (1, 0, Act::Harvest, Told::NotYet),
    (1, 0, Act::Send, Told::Sent(1000)),
    (1, 1, Act::Send, Told::Sent(1001)),
    (1, 2, Act::Send, Told::Sent(1002)),
    (1, 0, Act::Take(1001), Told::Taken),
    (1, 0, Act::Take(1002), Told::Taken),
    (1, 1, Act::Take(1000), Told::Taken),
    (1, 1, Act::Take(1002), Told::Taken),
    (1, 2, Act::Take(1000), Told::Taken),
    (1, 2, Act::Take(1001), Told::Taken),
    (20, 0, Act::Harvest, Told::Harvested(0)),
    (20, 1, Act::Harvest, Told::Harvested(0)),
    (20, 2, Act::Harvest, Told::Harvested(0)),
    (1, 0, Act::Harvest, Told::NotYet),
    (1, 1, Act::Harvest, Told::NotYet),
    (1, 2, Act::Harvest, Told::NotYet),
];

// Rank 1 posts five calls, sends once and stops. The others harvest all five, and drop none, also once they know of each other that they
// have. What they let go are results, and never the newest.
const STOPS: &[Row] = &[
    (5, 1, Act::Barrier, Told::Posted(0)),
    (1, 1, Act::Send, Told::Sent(0)),
    (5, 0, Act::Barrier, Told::Posted(0)),
    (5, 2, Act::Barrier, Told::Posted(0)),
    (1, 0, Act::Send, Told::Sent(1)),
    (1, 2, Act::Send, Told::Sent(2)),
    (1, 0, Act::Take(0), Told::Taken),
    (1, 0, Act::Take(2), Told::Taken),
    (1, 2, Act::Take(0), Told::Taken),
    (1, 2, Act::Take(1), Told::Taken),
    (5, 0, Act::Harvest, Told::Harvested(0)),
    (5, 2, Act::Harvest, Told::Harvested(0)),
    (1, 0, Act::Forget(9), Told::Forgot),
    (1, 2, Act::Forget(2), Told::Forgot),
    (1, 3, Act::Forget(2), Told::NoSuchProcess),
    (1, 0, Act::Prune(1), Told::AboveFloor(0)),
    (1, 2, Act::Prune(1), Told::AboveFloor(0)),
    (1, 0, Act::Send, Told::Sent(3)),
    (1, 2, Act::Send, Told::Sent(4)),
    (1, 0, Act::Take(4), Told::Taken),
    (1, 2, Act::Take(3), Told::Taken),
    (1, 0, Act::Prune(1), Told::AboveFloor(0)),
    (1, 2, Act::Prune(1), Told::AboveFloor(0)),
    (1, 0, Act::Prune(0), Told::Pruned),
    (1, 0, Act::Harvest, Told::NotYet),
];

// A post, its part, and then the same take again and again.
const TEN_THOUSAND: &[Row] = &[
    (1, 0, Act::Sum(1), Told::Posted(0)),
    (1, 0, Act::Send, Told::Sent(0)),
    (9_998, 1, Act::Take(0), Told::Taken),
];

// What is seen then of a process, on the context of all, and which two have one board.
type Seen = (&'static [(u8, Look)], &'static [(u8, u8)]);

const NOTHING: Seen = (&[], &[]);

// The whole board of each of three ranks that have posted is its one part.
const ONE_PART_EACH: &[(u8, Look)] = &[(0, Look::OnePart), (1, Look::OnePart), (2, Look::OnePart)];

// How many results the ranks let go that harvested five.
const LET_GO: &[(u8, Look)] = &[(0, Look::Forgotten(4)), (2, Look::Forgotten(2))];

// Of a rank and of a relay that have done nothing.
const TOO_LONG: &[(u8, Look)] = &[(1, Look::DoesNotFit), (3, Look::DoesNotFit)];

// What the rows show, how many ranks and processes the world has, the rows, and what is seen then.
const WORLDS: [(&str, u8, u8, &[Row], Seen); 6] = [
    (
        "a relay carries posts",
        2,
        3,
        RELAY,
        (&[(0, Look::Sum(3)), (1, Look::Sum(3))], &[]),
    ),
    (
        "parts come in any order",
        3,
        6,
        PARTS,
        (ONE_PART_EACH, &[(3, 4), (2, 5)]),
    ),
    (
        "gatherings, prunings and cuts",
        3,
        4,
        OTHERS,
        (TOO_LONG, &[]),
    ),
    (
        "a thousand parts of which none is taken",
        3,
        3,
        NONE_TAKEN,
        NOTHING,
    ),
    ("a rank that stops", 3, 3, STOPS, (LET_GO, &[])),
    ("ten thousand events", 2, 2, TEN_THOUSAND, NOTHING),
];

fn have_one_board(world: &World<Brand>, one: u8, other: u8) -> bool {
    match (world.node(proc(one)), world.node(proc(other))) {
        (Some(one), Some(other)) => one.board().same(other.board()),
        _ => false,
    }
}

fn is_all_seen(alloc: Global, world: &World<Brand>, seen: Seen) -> Result<bool, Fail> {
    let mut all = true;
    for &(number, look) in seen.0 {
        let node = world.node(proc(number)).ok_or("no node")?;
        all = is_seen(alloc, node, WORLD, look)? && all;
    }
    for &(one, other) in seen.1 {
        all = have_one_board(world, one, other) && all;
    }
    Ok(all)
}

// The place of the first event that isn't answered as it should be, if there is one, and whether all is seen then.
fn came_out(
    alloc: Global,
    world: &mut World<Brand>,
    rows: &[Row],
    seen: Seen,
    ops: &Ops,
) -> Result<(Option<usize>, bool), Fail>
    requires list { ⟦<Ops as Listing>⟧.operations ops.now ≡ [] }
{
    let wrong = first_wrong(alloc, world, rows, ops)?;
    Ok((wrong, is_all_seen(alloc, world, seen)?))
}

// The same of a new world of so many ranks and processes.
fn run(
    alloc: Global,
    ranks: u8,
    processes: u8,
    rows: &[Row],
    seen: Seen,
    ops: &Ops,
) -> Result<(Option<usize>, bool), Fail>
    requires list { ⟦<Ops as Listing>⟧.operations ops.now ≡ [] }
{
    if ranks == 0 || ranks > processes || processes > 64 {
        return Err(Fail::from("no world"));
    }
    let mut world = World::<Brand>::new(alloc, ranks, processes)?;
    let came = came_out(alloc, &mut world, rows, seen, ops);
    drop(world);
    came
}

// What the first rows show that come out otherwise, and the place of the first such event, if there are any.
fn first_other(alloc: Global, ops: &Ops) -> Result<Option<(&'static str, Option<usize>)>, Fail>
    requires list { ⟦<Ops as Listing>⟧.operations ops.now ≡ [] }
{
    for (shown, ranks, processes, rows, seen) in WORLDS {
        let (wrong, is_seen) = run(alloc, ranks, processes, rows, seen, ops)?;
        if wrong.is_some() || !is_seen {
            return Ok(Some((shown, wrong)));
        }
    }
    Ok(None)
}

#[test]
fn worlds_go_so(rt: HostRuntime) -> Result<(), Fail> {
    let ops = Ops::none(rt.alloc());
    assert_eq!(rt; first_other(rt.alloc(), &ops)?, None);
    Ok(())
}
