//! Joins of boards, at once and made ready first, and cuts.
use crate::board_rows::{BoardStep, boards_of};
use join_core::{Exact, Join, OutOfMemory};
use mpx_board::Board;
use mpx_name::Name;
use std::alloc::Global;
use std::test::Fail;
use test_drafts::contexts::On;

// Posts of calls 3 and 6.
const LATE: &[BoardStep] = &[
    BoardStep::Adds(3, 1, &[7], Ok(())),
    BoardStep::Adds(6, 1, &[7], Ok(())),
];

const DROPPED: &[BoardStep] = &[
    BoardStep::Members(3),
    BoardStep::Front(0, 5),
    BoardStep::Front(1, 5),
    BoardStep::Front(2, 5),
    BoardStep::Prunes(5, Ok(())),
];

const STAYS_DROPPED: &[BoardStep] = &[
    BoardStep::Members(3),
    BoardStep::Front(0, 5),
    BoardStep::Front(1, 5),
    BoardStep::Front(2, 5),
    BoardStep::Prunes(5, Ok(())),
    BoardStep::Adds(6, 1, &[7], Ok(())),
    BoardStep::HasDropped(5),
    BoardStep::Lacks(3, 1),
];

const HARVESTED: &[BoardStep] = &[
    BoardStep::Members(3),
    BoardStep::Front(0, 1),
    BoardStep::Front(2, 2),
];

const LATE_AND_HARVESTED: &[BoardStep] = &[
    BoardStep::Members(3),
    BoardStep::Front(0, 1),
    BoardStep::Front(2, 2),
    BoardStep::Adds(3, 1, &[7], Ok(())),
    BoardStep::Adds(6, 1, &[7], Ok(())),
];

// A part of a context that the board has, of one that it lacks, and of acknowledgements.
const OF_TWO: &[BoardStep] = &[
    BoardStep::Front(1, 4),
    BoardStep::Acknowledges(0, 1, 2),
    BoardStep::On(On::Below(1)),
    BoardStep::Adds(4, 1, &[7], Ok(())),
];

const OF_TWO_AND_HARVESTED: &[BoardStep] = &[
    BoardStep::Members(3),
    BoardStep::Front(0, 1),
    BoardStep::Front(1, 4),
    BoardStep::Front(2, 2),
    BoardStep::Acknowledges(0, 1, 2),
    BoardStep::On(On::Below(1)),
    BoardStep::Adds(4, 1, &[7], Ok(())),
];

// The first child is dead: its posts come to nothing.
pub const DEAD_CHILD: &[BoardStep] = &[
    BoardStep::On(On::Below(1)),
    BoardStep::Members(2),
    BoardStep::Kills(Ok(())),
    BoardStep::Lacks(0, 0),
];

const POSTS_ON_THE_CHILD: &[BoardStep] = &[
    BoardStep::On(On::Below(1)),
    BoardStep::Adds(0, 0, &[7], Ok(())),
    BoardStep::Adds(0, 1, &[8], Ok(())),
];

// A whole board that has dropped calls of the world and killed the first child.
const BURIED: &[BoardStep] = &[
    BoardStep::Members(3),
    BoardStep::Front(0, 5),
    BoardStep::Front(1, 5),
    BoardStep::Front(2, 5),
    BoardStep::Prunes(5, Ok(())),
    BoardStep::Acknowledges(0, 1, 5),
    BoardStep::On(On::Below(1)),
    BoardStep::Members(2),
    BoardStep::Adds(0, 0, &[7], Ok(())),
    BoardStep::Kills(Ok(())),
    BoardStep::Acknowledges(0, 1, 1),
];

// A whole board that has heard of neither, with a child of that child.
const UNAWARE: &[BoardStep] = &[
    BoardStep::Members(3),
    BoardStep::Front(0, 4),
    BoardStep::Adds(3, 1, &[7], Ok(())),
    BoardStep::Adds(6, 1, &[7], Ok(())),
    BoardStep::On(On::Below(1)),
    BoardStep::Members(2),
    BoardStep::Front(1, 1),
    BoardStep::Adds(0, 0, &[7], Ok(())),
    BoardStep::Adds(0, 1, &[8], Ok(())),
    BoardStep::Acknowledges(1, 0, 1),
    BoardStep::On(On::Below(2)),
    BoardStep::Members(2),
    BoardStep::Adds(4, 1, &[7], Ok(())),
];

// The child is dead and says nothing but what is acknowledged, the world's early call is dropped, and its late one and the
// child's own child are kept.
const BURIED_FOR_BOTH: &[BoardStep] = &[
    BoardStep::Members(3),
    BoardStep::Front(0, 5),
    BoardStep::Front(1, 5),
    BoardStep::Front(2, 5),
    BoardStep::Prunes(5, Ok(())),
    BoardStep::Adds(6, 1, &[7], Ok(())),
    BoardStep::Acknowledges(0, 1, 5),
    BoardStep::HasDropped(5),
    BoardStep::Lacks(3, 1),
    BoardStep::On(On::Below(1)),
    BoardStep::Members(2),
    BoardStep::Kills(Ok(())),
    BoardStep::Acknowledges(0, 1, 1),
    BoardStep::Acknowledges(1, 0, 1),
    BoardStep::IsDead(true),
    BoardStep::HasBirth(false),
    BoardStep::HasFront(1, 0),
    BoardStep::Lacks(0, 0),
    BoardStep::Lacks(0, 1),
    BoardStep::On(On::Below(2)),
    BoardStep::Members(2),
    BoardStep::Adds(4, 1, &[7], Ok(())),
    BoardStep::Holds(4, 1),
];

// Two boards, and their join.
const JOINS: [(&str, [&[BoardStep]; 3]); 5] = [
    (
        "what is dropped stays dropped",
        [DROPPED, LATE, STAYS_DROPPED],
    ),
    ("a part", [HARVESTED, LATE, LATE_AND_HARVESTED]),
    ("two contexts", [HARVESTED, OF_TWO, OF_TWO_AND_HARVESTED]),
    (
        "what is dead stays dead",
        [DEAD_CHILD, POSTS_ON_THE_CHILD, DEAD_CHILD],
    ),
    (
        "two whole boards, of which one has killed a child",
        [BURIED, UNAWARE, BURIED_FOR_BOTH],
    ),
];

// Whether the join of both is this board, whichever way it is made.
fn is_join(alloc: Global, a: &Board, b: &Board, wanted: &Board) -> Result<bool, OutOfMemory> {
    Ok(wanted.same(&a.joined(alloc, b)?) && wanted.same(&b.joined(alloc, a)?))
}

// Whether the part, taken once and once more, makes this board.
fn is_taken(alloc: Global, a: &Board, part: &Board, wanted: &Board) -> Result<bool, OutOfMemory> {
    let mut board = a.copy(alloc)?;
    board.take(alloc, part)?;
    board.take(alloc, part)?;
    Ok(board.same(wanted))
}

// Whether the part, made ready, which changes nothing, and then put in, makes this board.
fn is_prepared(
    alloc: Global,
    a: &Board,
    part: &Board,
    wanted: &Board,
) -> Result<bool, OutOfMemory> {
    let mut board = a.copy(alloc)?;
    let prepared = board.prepare(alloc, part)?;
    let stays = board.same(a);
    board.put_prepared(prepared);
    Ok(stays && board.same(wanted))
}

// Whether the join of these boards is this one.
fn is_of_all(alloc: Global, parts: &[&Board], wanted: &Board) -> Result<bool, OutOfMemory> {
    let mut boards = Vec::new(alloc);
    for part in parts {
        boards.push(part.copy(alloc)?)?;
    }
    Ok(wanted.same(&Board::take_all(alloc, &boards)?))
}

// Whether a board lacks nothing of itself, and the join with what the other lacks of it is as large.
fn is_served(alloc: Global, a: &Board, b: &Board, wanted: &Board) -> Result<bool, OutOfMemory> {
    let nothing = a.delta(alloc, a)?.same(&Board::new(alloc));
    let lacking = a.delta(alloc, b)?;
    Ok(nothing && wanted.same(&b.joined(alloc, &lacking)?))
}

// Whether this is the least board above both.
fn is_least_above(
    alloc: Global,
    a: &Board,
    b: &Board,
    wanted: &Board,
) -> Result<bool, OutOfMemory> {
    Ok(
        a.leq(wanted)
            && b.leq(wanted)
            && is_join(alloc, a, b, wanted)?
            && is_taken(alloc, a, b, wanted)?
            && is_prepared(alloc, a, b, wanted)?
            && is_of_all(alloc, &[a, b, a], wanted)?
            && is_of_all(alloc, &[b, a], wanted)?
            && is_served(alloc, a, b, wanted)?,
    )
}

// What the board knows of the world is the other board, of one context.
fn is_cut_to(alloc: Global, board: &Board, wanted: &Board) -> Result<bool, Fail> {
    let names = vec![in alloc; Name::world(alloc)]?;
    let cut = board.cut(alloc, &names)?;
    Ok(cut.same(wanted) && cut.pair().first.len() == 1)
}

const WITH_THE_CHILD: &[BoardStep] = &[
    BoardStep::Members(3),
    BoardStep::Front(0, 1),
    BoardStep::Front(2, 2),
    BoardStep::On(On::Below(1)),
    BoardStep::Adds(4, 1, &[7], Ok(())),
];

#[test]
fn boards_as_whole_values(rt: HostRuntime) -> Result<(), Fail> {
    for &(shown, steps) in JOINS.iter() {
        let boards = boards_of(&rt, rt.alloc(), shown, &steps)?;
        let [a, b, wanted] = boards.as_slice() else {
            return Err(Fail::from("three boards"));
        };
        assert!(rt; is_least_above(rt.alloc(), a, b, wanted)?, "{shown}");
    }
    Ok(())
}

#[test]
fn cuts_have_just_their_contexts(rt: HostRuntime) -> Result<(), Fail> {
    let boards = boards_of(&rt, rt.alloc(), "a cut", &[WITH_THE_CHILD, HARVESTED])?;
    let [board, wanted] = boards.as_slice() else {
        return Err(Fail::from("two boards"));
    };
    assert!(rt; is_cut_to(rt.alloc(), board, wanted)?);
    Ok(())
}
