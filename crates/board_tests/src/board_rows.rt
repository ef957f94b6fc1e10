//! Rows of what is done to a board and then seen of it: calls that add to one, and prunes.
use join_core::Exact;
use mpx_birth::Birth;
use mpx_board::{AddPostError, Board, Digest, KillError, PruneError};
use mpx_delta::{common, deltas, digest_of};
use mpx_name::Name;
use std::alloc::Global;
use std::process::Abort;
use std::test::Fail;
use test_drafts::contexts::{On, name_of, post_of};
use test_drafts::proc;

#[derive(Clone, Copy)]
pub enum BoardStep {
    // What comes next is of this context, and not of the world.
    On(On),
    // It is told that there are so many members.
    Members(u8),
    // It is told that a process has harvested so many calls.
    Front(u8, u32),
    // It is told that a process has so many calls of another.
    Acknowledges(u8, u8, u32),
    // It is told that a process has what the board has.
    AcknowledgesAll(u8),
    // A process acknowledges what the board has, which others may lack in one part.
    Sends(u8),
    // A process's post of a call, of these numbers, is added or refused.
    Adds(u16, u8, &'static [i128], Result<(), AddPostError>),
    // It is joined to call 0.
    Joins(u8, &'static [i128]),
    Prunes(u32, Result<(), PruneError>),
    // The prune changes nothing.
    PrunesInVain(u32),
    Kills(Result<(), KillError>),
    IsDead(bool),
    HasFloor(Option<u32>),
    HasDropped(u32),
    HasFront(u8, u32),
    Holds(u32, u8),
    Lacks(u32, u8),
    // The posts of all members to call 0 are there, or not.
    HasRow(bool),
    // How the context came to be is known, or not.
    HasBirth(bool),
    // The digest has so many calls of process 0.
    HasDigest(Option<u32>),
    // So many processes all acknowledge so many calls of process 0.
    HasCommon(u8, Option<u32>),
}

fn adds(
    alloc: Global,
    board: &mut Board,
    name: &Name,
    call: u16,
    process: u8,
    items: &[i128],
) -> Result<Result<(), AddPostError>, Fail> {
    let post = post_of(alloc, items)?;
    Ok(board.add_post(alloc, name, u32::from(call), proc(process), post))
}

fn joins(
    alloc: Global,
    board: &mut Board,
    name: &Name,
    process: u8,
    items: &[i128],
) -> Result<bool, Fail> {
    let post = post_of(alloc, items)?;
    board.join_post(alloc, name, 0, proc(process), post)?;
    Ok(true)
}

fn has_members(alloc: Global, board: &mut Board, name: &Name, count: u8) -> Result<bool, Fail> {
    if count == 0 || count > 64 {
        return Ok(false);
    }
    board.add_birth(alloc, name, Birth::world(alloc, count)?)?;
    Ok(true)
}

fn acknowledges_all(alloc: Global, board: &mut Board, by: u8) -> Result<bool, Fail> {
    let digest = digest_of(alloc, board)?;
    board.raise_acks(alloc, proc(by), &digest)?;
    Ok(true)
}

fn prunes_in_vain(
    alloc: Global,
    board: &mut Board,
    name: &Name,
    number: u32,
) -> Result<bool, Fail> {
    let before = board.copy(alloc)?;
    let is_same = board.prune(name, number) == Ok(()) && board.same(&before);
    drop(before);
    Ok(is_same)
}

// Whether this is the number of process 0 on the context.
fn has_number(numbers: &Digest, name: &Name, told: Option<u32>) -> bool {
    match numbers.get(name) {
        None => told.is_none(),
        Some(numbers) => match numbers.get(&proc(0)) {
            None => told.is_none(),
            Some(number) => told == Some(number.0),
        },
    }
}

// Does the step, and answers whether it comes out so.
fn is_so(alloc: Global, board: &mut Board, name: &Name, step: BoardStep) -> Result<bool, Fail> {
    match step {
        BoardStep::On(_) => {}
        BoardStep::Members(count) => return has_members(alloc, board, name, count),
        BoardStep::Front(process, number) => board.raise_front(alloc, name, proc(process), number)?,
        BoardStep::Acknowledges(by, of, number) => {
            board.raise_ack(alloc, proc(by), name, proc(of), number)?;
        }
        BoardStep::AcknowledgesAll(by) => return acknowledges_all(alloc, board, by),
        BoardStep::Sends(by) => {
            return Ok(deltas(alloc, board, proc(by), 3, 524_288)?.len() == 1);
        }
        BoardStep::Adds(call, process, items, told) => {
            return Ok(adds(alloc, board, name, call, process, items)? == told);
        }
        BoardStep::Joins(process, items) => return joins(alloc, board, name, process, items),
        BoardStep::Prunes(number, told) => return Ok(board.prune(name, number) == told),
        BoardStep::PrunesInVain(number) => return prunes_in_vain(alloc, board, name, number),
        BoardStep::Kills(told) => return Ok(board.kill(name) == told),
        _ => return is_seen(alloc, board, name, step),
    }
    Ok(true)
}

// Whether this is seen of the board.
fn is_seen(alloc: Global, board: &Board, name: &Name, step: BoardStep) -> Result<bool, Fail> {
    match step {
        BoardStep::IsDead(told) => Ok(board.is_dead(name) == told),
        BoardStep::HasFloor(floor) => Ok(board.floor(name) == floor),
        BoardStep::HasDropped(number) => Ok(board.dropped(name) == number),
        BoardStep::HasFront(process, number) => Ok(board.front(name, proc(process)) == number),
        BoardStep::Holds(call, by) => Ok(board.holds(name, call, proc(by)).is_some()),
        BoardStep::Lacks(call, by) => Ok(board.holds(name, call, proc(by)).is_none()),
        BoardStep::HasRow(told) => {
            let row = board.row(alloc, name, 0)?.is_some();
            Ok((row == told) & (board.has_row(name, 0) == told))
        }
        BoardStep::HasBirth(told) => Ok(board.birth(name).is_some() == told),
        BoardStep::HasDigest(told) => Ok(has_number(&digest_of(alloc, board)?, name, told)),
        BoardStep::HasCommon(processes, told) => {
            if processes == 0 || processes > 64 {
                return Ok(false);
            }
            Ok(has_number(&common(alloc, board, processes)?, name, told))
        }
        _ => Ok(false),
    }
}

// All steps come out so.
fn go_on(
    rt: &impl Abort,
    alloc: Global,
    board: &mut Board,
    shown: &str,
    steps: &[BoardStep],
) -> Result<(), Fail> {
    let mut name = Name::world(alloc);
    for (at, step) in steps.iter().enumerate() {
        if let BoardStep::On(on) = *step {
            name = name_of(alloc, on)?;
        }
        assert!(rt; is_so(alloc, board, &name, *step)?, "{shown}: step {at}");
    }
    Ok(())
}

// The board after these steps.
pub fn board_of(
    rt: &impl Abort,
    alloc: Global,
    shown: &str,
    steps: &[BoardStep],
) -> Result<Board, Fail> {
    let mut board = Board::new(alloc);
    match go_on(rt, alloc, &mut board, shown, steps) {
        Ok(()) => Ok(board),
        Err(error) => {
            drop(board);
            Err(error)
        }
    }
}

// The boards after these steps each.
pub fn boards_of(
    rt: &impl Abort,
    alloc: Global,
    shown: &str,
    lists: &[&[BoardStep]],
) -> Result<Vec<Board>, Fail> {
    let mut boards = Vec::new(alloc);
    for steps in lists {
        boards.push(board_of(rt, alloc, shown, steps)?)?;
    }
    Ok(boards)
}

// Three members, of whom each has harvested so many calls.
const FLOOR: &[BoardStep] = &[
    BoardStep::Members(3),
    BoardStep::Front(0, 2),
    BoardStep::Front(1, 2),
    BoardStep::Front(2, 1),
    BoardStep::HasFloor(Some(1)),
    BoardStep::Prunes(2, Err(PruneError::AboveFloor(1))),
    BoardStep::HasDropped(0),
    BoardStep::Prunes(1, Ok(())),
    BoardStep::HasDropped(1),
    BoardStep::HasFront(1, 2),
    BoardStep::HasFront(9, 0),
    BoardStep::Adds(0, 2, &[7], Err(AddPostError::AlreadyPosted)),
];

// At the dropped front and below it, which are 3.
const IN_VAIN: &[BoardStep] = &[
    BoardStep::Members(3),
    BoardStep::Front(0, 4),
    BoardStep::Front(1, 3),
    BoardStep::Front(2, 5),
    BoardStep::Prunes(3, Ok(())),
    BoardStep::PrunesInVain(3),
    BoardStep::PrunesInVain(2),
    BoardStep::PrunesInVain(0),
];

const NO_BIRTH: &[BoardStep] = &[BoardStep::Prunes(0, Err(PruneError::NoBirth))];

const IN_TWO_WAYS: &[BoardStep] = &[
    BoardStep::Members(3),
    BoardStep::HasRow(false),
    BoardStep::Adds(0, 0, &[0], Ok(())),
    BoardStep::HasRow(false),
    BoardStep::Adds(0, 1, &[1], Ok(())),
    BoardStep::HasRow(false),
    BoardStep::Adds(0, 2, &[2], Ok(())),
    BoardStep::HasRow(true),
    BoardStep::Adds(0, 1, &[1], Err(AddPostError::AlreadyPosted)),
    BoardStep::Joins(1, &[1]),
    BoardStep::HasRow(true),
    BoardStep::Joins(1, &[2]),
    BoardStep::Lacks(0, 1),
    BoardStep::HasRow(false),
    BoardStep::HasBirth(true),
    BoardStep::Members(2),
    BoardStep::HasBirth(false),
];

// A dead world says nothing else, and nothing that is joined later is told. A world that nobody told of can't die.
const DEAD: &[BoardStep] = &[
    BoardStep::Kills(Err(KillError::NoBirth)),
    BoardStep::IsDead(false),
    BoardStep::Members(2),
    BoardStep::Front(0, 1),
    BoardStep::Adds(0, 0, &[7], Ok(())),
    BoardStep::Kills(Ok(())),
    BoardStep::IsDead(true),
    BoardStep::HasBirth(false),
    BoardStep::HasFront(0, 0),
    BoardStep::HasFloor(None),
    BoardStep::Lacks(0, 0),
    BoardStep::Members(2),
    BoardStep::Front(1, 3),
    BoardStep::Joins(1, &[7]),
    BoardStep::Adds(4, 0, &[7], Err(AddPostError::AlreadyPosted)),
    BoardStep::HasBirth(false),
    BoardStep::HasFront(1, 0),
    BoardStep::Lacks(0, 1),
    BoardStep::PrunesInVain(3),
    BoardStep::HasDropped(0),
    BoardStep::Kills(Ok(())),
    BoardStep::IsDead(true),
];

// Calls 0, 1 and 3 of process 0. Process 1 acknowledges what the board has, and then process 0.
const WITH_A_GAP: &[BoardStep] = &[
    BoardStep::HasDigest(None),
    BoardStep::Members(3),
    BoardStep::Adds(0, 0, &[1], Ok(())),
    BoardStep::Adds(1, 0, &[2], Ok(())),
    BoardStep::Adds(3, 0, &[3], Ok(())),
    BoardStep::HasDigest(Some(2)),
    BoardStep::AcknowledgesAll(1),
    BoardStep::HasCommon(2, None),
    BoardStep::Sends(0),
    BoardStep::HasCommon(2, Some(2)),
];

// Three processes acknowledge 3, 2 and no calls of process 0, and then 2.
const ACKNOWLEDGED: &[BoardStep] = &[
    BoardStep::Acknowledges(0, 0, 3),
    BoardStep::Acknowledges(1, 0, 2),
    BoardStep::HasCommon(3, None),
    BoardStep::Acknowledges(2, 0, 2),
    BoardStep::HasCommon(3, Some(2)),
];

const BOARDS: [(&str, &[BoardStep]); 7] = [
    ("prunes to the floor", FLOOR),
    ("prunes in vain", IN_VAIN),
    ("no birth", NO_BIRTH),
    ("told in two ways", IN_TWO_WAYS),
    ("dead", DEAD),
    ("with a gap", WITH_A_GAP),
    ("acknowledged", ACKNOWLEDGED),
];

#[test]
fn boards_go_so(rt: HostRuntime) -> Result<(), Fail> {
    for &(shown, steps) in BOARDS.iter() {
        board_of(&rt, rt.alloc(), shown, steps)?;
    }
    Ok(())
}
