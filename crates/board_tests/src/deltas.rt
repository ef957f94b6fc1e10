//! What deltas leave out, and boards over the limit of a frame, in parts.
ghost use Rattle.std.specs.Prelude.{◌≤◌};

use crate::board_rows::{BoardStep, boards_of};
use join_core::Exact;
use mpx_board::Board;
use mpx_delta::{delta_for, digest_of, parts};
use mpx_name::Name;
use mpx_wire::{EncodeError, encode, frame_len};
use std::alloc::Global;
use std::test::Fail;
use test_drafts::contexts::post_of;
use test_drafts::proc;

const TWO_CALLS: &[BoardStep] = &[
    BoardStep::Members(2),
    BoardStep::Front(1, 1),
    BoardStep::Acknowledges(1, 0, 2),
    BoardStep::Adds(0, 0, &[1], Ok(())),
    BoardStep::Adds(1, 0, &[2], Ok(())),
];

const FIRST_CALL: &[BoardStep] = &[BoardStep::Members(2), BoardStep::Adds(0, 0, &[1], Ok(()))];

const SECOND_CALL: &[BoardStep] = &[
    BoardStep::Members(2),
    BoardStep::Front(1, 1),
    BoardStep::Acknowledges(1, 0, 2),
    BoardStep::Adds(1, 0, &[2], Ok(())),
];

// Whether the board without the posts of the known one's digest is this one, in one part.
fn is_delta(alloc: Global, board: &Board, known: &Board, wanted: &Board) -> Result<bool, Fail> {
    let digest = digest_of(alloc, known)?;
    let made = delta_for(alloc, board, &digest, 524_288)?;
    Ok(made.len() == 1 && made.iter().all(|part| part.same(wanted)))
}

#[test]
fn deltas_leave_out_what_is_known(rt: HostRuntime) -> Result<(), Fail> {
    let boards = boards_of(
        &rt,
        rt.alloc(),
        "a delta",
        &[TWO_CALLS, FIRST_CALL, SECOND_CALL],
    )?;
    let [board, known, wanted] = boards.as_slice() else {
        return Err(Fail::from("three boards"));
    };
    assert!(rt; is_delta(rt.alloc(), board, known, wanted)?);
    Ok(())
}

// A board of so many posts with 4,096 items of 64 bits.
fn long_board(alloc: Global, processes: u8) -> Result<Board, Fail>
    requires { processes ≤ 64 }
{
    let mut board = Board::new(alloc);
    let items = vec![in alloc; -5i128; 4096]?;
    for process in 0..processes {
        board.join_post(
            alloc,
            &Name::world(alloc),
            0,
            proc(process),
            post_of(alloc, &items)?,
        )?;
    }
    Ok(board)
}

// Whether the board has no frame, more than one part, which are joined to it, and one without the posts that it has itself.
fn is_too_long(alloc: Global, board: &Board) -> Result<bool, Fail> {
    let refused = matches!(encode(alloc, board), Err(EncodeError::TooLong));
    let made = parts(alloc, board, 1_048_576)?;
    let joined = Board::take_all(alloc, &made)?.same(board);
    let lean = delta_for(alloc, board, &digest_of(alloc, board)?, 1_048_576)?;
    let lengths = (made.len() > 1, lean.len(), frame_len(board));
    Ok(refused && joined && lengths == (true, 1, 1_048_577))
}

#[test]
fn boards_over_the_limit_have_parts(rt: HostRuntime) -> Result<(), Fail> {
    let board = long_board(rt.alloc(), 33)?;
    assert!(rt; is_too_long(rt.alloc(), &board)?);
    Ok(())
}
