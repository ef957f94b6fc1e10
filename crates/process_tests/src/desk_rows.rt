//! Desks: requests that are tested, the own post, posts before a birth, deltas, and frames that no process sent.
ghost use Rattle.std.specs.Prelude.{◌<◌, ◌≤◌};

use crate::boards::{By, give, swap};
use crate::desks::{Act, Member, Told, does};
use crate::looks::Look;
use join_core::OutOfMemory;
use mpx_board::PruneError;
use mpx_comm::{Comm, Desk};
use mpx_group::Proc;
use mpx_node::{Harvest, Node};
use mpx_num::Ops;
use mpx_post::PostError;
use std::alloc::Global;
use std::process::Abort;
use std::test::Fail;
use test_drafts::contexts::{FRAME, On, WORLD};
use test_drafts::kinds;

#[derive(Clone, Copy)]
enum Row {
    Left(Act),
    Right(Act),
    // Each takes the other's board.
    Swap,
    // The other one takes all boards or frames of the one's deltas, of which so many have the first post of process 0.
    ToRight(By, usize),
    ToLeft(By, usize),
}

const NOT_MEMBER: Act = Act::MayNot(PostError::NotMember);

// The left rank posts two sums, the right one its part of the first: all are handed back, and the first open one is it. A
// request that was closed is still answered. The second sum is done once the right rank has posted its part: all that is open
// is done then by one turn. A third sum is the first open one.
const TESTED: &[Row] = &[
    Row::Left(Act::WaitsAny(Told::None)),
    Row::Left(Act::Starts(1)),
    Row::Left(Act::Starts(10)),
    Row::Left(Act::Awaits(0, Some(1))),
    Row::Left(Act::WaitsAny(Told::NotYet)),
    Row::Right(Act::Starts(2)),
    Row::Swap,
    Row::Left(Act::Turns),
    Row::Left(Act::Awaits(0, None)),
    Row::Left(Act::Awaits(1, Some(1))),
    Row::Left(Act::TestsAll(Told::NotYet)),
    Row::Left(Act::TestsAny(Told::First(0))),
    Row::Left(Act::Tests(1, Told::NotYet)),
    Row::Left(Act::Waits(1, Told::NotYet)),
    Row::Left(Act::Waits(0, Told::Sum(1, 3))),
    Row::Left(Act::TestsAny(Told::None)),
    Row::Right(Act::Starts(20)),
    Row::Swap,
    Row::Left(Act::WaitsAll(Told::Sum(10, 30))),
    Row::Left(Act::Starts(100)),
    Row::Right(Act::Starts(200)),
    Row::Swap,
    Row::Left(Act::WaitsAny(Told::First(2))),
    Row::Left(Act::Waits(0, Told::Sum(100, 300))),
    Row::Left(Act::WaitsAny(Told::None)),
    Row::Right(Act::Tests(0, Told::Sum(2, 3))),
    Row::Right(Act::TestsAll(Told::Sum(20, 30))),
];

// Each has its own post beside the sum.
const OWN: &[Row] = &[
    Row::Left(Act::Starts(7)),
    Row::Right(Act::Starts(8)),
    Row::Swap,
    Row::Left(Act::Tests(0, Told::Sum(7, 15))),
    Row::Right(Act::Tests(0, Told::Sum(8, 15))),
];

const CHILD: On = On::Below(1);

// On the child of the world's first call: of call 0 the dups of processes 0 and 1.
const DUPS_OF_CHILD: &[u8] = &[
    0x4d, 0x50, 0x58, 0x47, 1, 0, 1, 1, 0, 0, 0, 0, 0, 0, 0, 0, 0, 0, 0, 0, 0, 0, 0, 0, 0, 0, 1, 0,
    0, 0, 0, 2, 0, 1, 16, 0, 1, 1, 16, 0, 0,
];

// On the world: the same.
const DUPS_OF_WORLD: &[u8] = &[
    0x4d, 0x50, 0x58, 0x47, 1, 0, 1, 0, 0, 0, 0, 0, 0, 0, 0, 0, 0, 1, 0, 0, 0, 0, 2, 0, 1, 16, 0,
    1, 1, 16, 0, 0,
];

// Rank 2 of three, which has posted a dup of the world, hears of posts on the child before it knows of the child's birth. Once the birth
// is known these posts count.
const EARLY: &[Row] = &[
    Row::Right(Act::Calls(kinds::DUP)),
    Row::Right(Act::Takes(DUPS_OF_CHILD)),
    Row::Right(Act::Sees(CHILD, Look::Holds(0, 0))),
    Row::Right(Act::Sees(CHILD, Look::Holds(0, 1))),
    Row::Right(Act::Sees(CHILD, Look::Unborn)),
    Row::Right(Act::Harvests(CHILD, Harvest::NotOpened)),
    Row::Right(Act::Prunes(CHILD, 0, Err(PruneError::NoBirth))),
    Row::Right(Act::Takes(DUPS_OF_WORLD)),
    Row::Right(Act::Harvests(WORLD, Harvest::Done(0))),
    Row::Right(Act::Sees(CHILD, Look::Born)),
    Row::Right(Act::Sees(CHILD, Look::Holds(0, 1))),
    Row::Right(Act::Harvests(CHILD, Harvest::NotYet)),
];

// A post that both have is in no delta any more, and stays on the board.
const DELTAS: &[Row] = &[
    Row::Left(Act::Calls(kinds::BARRIER)),
    Row::ToRight(By::Boards, 1),
    Row::ToLeft(By::Boards, 0),
    Row::ToRight(By::Boards, 0),
    Row::ToLeft(By::Boards, 0),
    Row::Left(Act::Sees(WORLD, Look::Holds(0, 0))),
];

// Nor is it in a frame. Until the other one says that it has the post, each list of frames has it, be it made ahead or not.
const FRAMES: &[Row] = &[
    Row::Left(Act::Calls(kinds::BARRIER)),
    Row::ToRight(By::FramesAhead, 1),
    Row::ToRight(By::Frames, 1),
    Row::Right(Act::Sees(WORLD, Look::Holds(0, 0))),
    Row::ToLeft(By::Frames, 0),
    Row::ToRight(By::FramesAhead, 0),
    Row::Left(Act::Sees(WORLD, Look::Holds(0, 0))),
];

// On world, where all is that is said below: of call 0 the post of process 1, a nonblocking sum of the one item 2 of type i64.
const POST_OF_RANK_1: &[u8] = &[
    0x4d, 0x50, 0x58, 0x47, 1, 0, 1, 0, 0, 0, 0, 0, 0, 0, 0, 0, 0, 1, 0, 0, 0, 0, 1, 1, 1, 11, 1,
    3, 4, 0, 1, 0, 0, 0, 0, 0, 0, 0, 2, 0,
];

// Members 0, 1 and 2, without a topology.
const THREE_MEMBERS: &[u8] = &[
    0x4d, 0x50, 0x58, 0x47, 1, 0, 1, 0, 1, 3, 0, 1, 2, 0, 0, 0, 0, 0, 0, 0, 0, 0, 0, 0,
];

// World is dead.
const DEAD: &[u8] = &[0x4d, 0x50, 0x58, 0x47, 2, 0, 1, 0, 1, 0];

// A post of a frame that no process sent clashes with the own one, which is never harvested then. Later calls go on.
const OTHER_POST: &[Row] = &[
    Row::Left(Act::Takes(FRAME)),
    Row::Left(Act::Sees(WORLD, Look::Holds(0, 0))),
    Row::Left(Act::Starts(1)),
    Row::Left(Act::Sees(WORLD, Look::Lacks(0, 0))),
    Row::Left(Act::Takes(POST_OF_RANK_1)),
    Row::Left(Act::Sees(WORLD, Look::Holds(0, 1))),
    Row::Left(Act::Harvests(WORLD, Harvest::NotYet)),
    Row::Left(Act::Starts(2)),
    Row::Left(Act::Sees(WORLD, Look::Holds(1, 0))),
    Row::Left(Act::Harvests(WORLD, Harvest::NotYet)),
    Row::Left(Act::Sees(WORLD, Look::OnePart)),
];

// A birth that such a frame made a clash refuses posts.
const OTHER_BIRTH: &[Row] = &[
    Row::Left(Act::Starts(1)),
    Row::Left(Act::Takes(POST_OF_RANK_1)),
    Row::Left(Act::Takes(THREE_MEMBERS)),
    Row::Left(Act::Sees(WORLD, Look::Unborn)),
    Row::Left(NOT_MEMBER),
    Row::Left(Act::Harvests(WORLD, Harvest::NotYet)),
    Row::Left(Act::Prunes(WORLD, 0, Err(PruneError::NoBirth))),
    Row::Left(Act::Sees(WORLD, Look::Holds(0, 0))),
];

// Of a dead context nothing is known, nothing comes back, and nothing is left to drop.
const DEAD_EARLY: &[Row] = &[
    Row::Left(Act::Starts(1)),
    Row::Left(Act::Takes(DEAD)),
    Row::Left(Act::Sees(WORLD, Look::Unborn)),
    Row::Left(Act::Sees(WORLD, Look::Lacks(0, 0))),
    Row::Left(NOT_MEMBER),
    Row::Left(Act::Harvests(WORLD, Harvest::NotYet)),
    Row::Left(Act::Prunes(WORLD, 7, Ok(()))),
    Row::Left(Act::Takes(POST_OF_RANK_1)),
    Row::Left(Act::Sees(WORLD, Look::Lacks(0, 1))),
];

// The left rank closes its first request, and lets its result go, since an open one is for the second call. Who hands the closed one in again is
// told so, and gets it back, as does who hands in all. Each wait that lets go keeps the results of open requests, and the newest.
const LET_GO: &[Row] = &[
    Row::Left(Act::Starts(1)),
    Row::Left(Act::Starts(10)),
    Row::Right(Act::Starts(2)),
    Row::Right(Act::Starts(20)),
    Row::Left(Act::WaitsAndForgets(0, Told::NotYet)),
    Row::Swap,
    Row::Left(Act::IsDone(0, true)),
    Row::Left(Act::Forgets(0)),
    Row::Left(Act::TestsAny(Told::First(0))),
    Row::Left(Act::Forgets(1)),
    Row::Left(Act::Tests(1, Told::LetGo)),
    Row::Left(Act::Waits(1, Told::LetGo)),
    Row::Left(Act::WaitsAndForgets(1, Told::LetGo)),
    Row::Left(Act::IsDone(1, true)),
    Row::Left(Act::TestsAll(Told::LetGo)),
    Row::Left(Act::WaitsAll(Told::LetGo)),
    Row::Left(Act::Starts(100)),
    Row::Left(Act::TestsAll(Told::LetGo)),
    Row::Left(Act::WaitsAll(Told::LetGo)),
    Row::Left(Act::WaitsAndForgets(2, Told::NotYet)),
    Row::Right(Act::Starts(200)),
    Row::Swap,
    Row::Left(Act::WaitsAndForgets(2, Told::Sum(100, 300))),
    Row::Left(Act::Sees(WORLD, Look::Forgotten(1))),
    Row::Left(Act::WaitsAndForgets(0, Told::Sum(10, 30))),
    Row::Left(Act::Sees(WORLD, Look::Forgotten(2))),
    Row::Left(Act::WaitsAndForgets(0, Told::LetGo)),
    Row::Right(Act::WaitsAndForgets(0, Told::Sum(2, 3))),
    Row::Right(Act::Sees(WORLD, Look::Forgotten(0))),
    Row::Right(Act::TestsSome(2)),
    Row::Right(Act::Forgets(2)),
    Row::Right(Act::TestsSome(0)),
    Row::Right(Act::WaitsSome(0)),
    Row::Right(Act::Starts(2000)),
    Row::Left(Act::Starts(1000)),
    Row::Swap,
    Row::Right(Act::WaitsSome(1)),
    Row::Right(Act::WaitsAny(Told::None)),
];

// What the rows show, how many ranks there are, and the rows.
const DESKS: [(&str, u8, &[Row]); 9] = [
    ("tests close all or none", 2, TESTED),
    ("results have the own post", 2, OWN),
    ("results are let go", 2, LET_GO),
    ("posts come before a birth", 3, EARLY),
    ("what both acknowledge is not sent again", 2, DELTAS),
    ("nor is it in frames", 2, FRAMES),
    ("another post", 2, OTHER_POST),
    ("another birth", 2, OTHER_BIRTH),
    ("a dead context", 2, DEAD_EARLY),
];

fn member_of(alloc: Global, me: u8, ranks: u8) -> Result<Member, OutOfMemory>
    requires me { me < ranks }
    requires few { ranks ≤ 64 }
{
    let node = Node::new(alloc, Proc::new(me), ranks, ranks)?;
    Ok(Member {
        desk: Desk::new(alloc, node),
        comm: Comm::world(alloc, ranks, me),
        requests: Vec::new(alloc),
    })
}

// Does what the row says, and answers whether it comes out so.
fn is_so(
    alloc: Global,
    left: &mut Member,
    right: &mut Member,
    row: Row,
    ops: &Ops,
) -> Result<bool, Fail> {
    match row {
        Row::Left(act) => does(alloc, left, act, ops),
        Row::Right(act) => does(alloc, right, act, ops),
        Row::Swap => Ok(swap(alloc, &mut left.desk, &mut right.desk)?),
        Row::ToRight(by, posts) => Ok(give(alloc, &mut left.desk, &mut right.desk, by)? == posts),
        Row::ToLeft(by, posts) => Ok(give(alloc, &mut right.desk, &mut left.desk, by)? == posts),
    }
}

// The place of the first row that doesn't come out so, if there is one.
fn first_wrong(
    alloc: Global,
    left: &mut Member,
    right: &mut Member,
    rows: &[Row],
    ops: &Ops,
) -> Result<Option<usize>, Fail> {
    for (at, row) in rows.iter().enumerate() {
        if !is_so(alloc, left, right, *row, ops)? {
            return Ok(Some(at));
        }
    }
    Ok(None)
}

// The same of this rank, on the left, and the last one of so many.
fn run_with(
    alloc: Global,
    left: &mut Member,
    ranks: u8,
    rows: &[Row],
    ops: &Ops,
) -> Result<Option<usize>, Fail>
    requires some { 0 < ranks }
    requires few { ranks ≤ 64 }
{
    let mut right = member_of(alloc, ranks - 1, ranks)?;
    let wrong = first_wrong(alloc, left, &mut right, rows, ops);
    drop(right);
    wrong
}

// The same of the first and the last rank of so many.
fn run(alloc: Global, ranks: u8, rows: &[Row], ops: &Ops) -> Result<Option<usize>, Fail> {
    if ranks == 0 || ranks > 64 {
        return Err(Fail::from("no ranks"));
    }
    let mut left = member_of(alloc, 0, ranks)?;
    let wrong = run_with(alloc, &mut left, ranks, rows, ops);
    drop(left);
    wrong
}

// What the first rows show that come out otherwise, and the place of the first such row, if there are any.
fn first_other(alloc: Global, ops: &Ops) -> Result<Option<(&'static str, usize)>, Fail> {
    for (shown, ranks, rows) in DESKS {
        if let Some(at) = run(alloc, ranks, rows, ops)? {
            return Ok(Some((shown, at)));
        }
    }
    Ok(None)
}

#[test]
fn desks_go_so(rt: HostRuntime) -> Result<(), Fail> {
    let ops = Ops::none(rt.alloc());
    assert_eq!(rt; first_other(rt.alloc(), &ops)?, None);
    Ok(())
}
