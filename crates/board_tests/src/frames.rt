//! Frames of boards that are written out byte by byte, and a frame with other bytes. Frames of each kind, and what is said of
//! damaged ones, are lines of `frame_text`.
ghost use Rattle.std.specs.Prelude.{◌<◌};

use crate::board_rows::{BoardStep, board_of};
use crate::joins::DEAD_CHILD;
use join_core::Exact;
use mpx_board::Board;
use mpx_name::Name;
use mpx_wire::{WireError, decode, encode, frame_len};
use std::alloc::Global;
use std::test::Fail;
use test_drafts::contexts::FRAME;
use test_drafts::proc;

const EMPTY: &[u8] = &[0x4d, 0x50, 0x58, 0x47, 2, 0, 0, 0];

const WORLD_WITH_A_POST: &[BoardStep] = &[
    BoardStep::Members(2),
    BoardStep::Front(1, 258),
    BoardStep::Adds(0, 0, &[-2, 1000], Ok(())),
];

// The magic, the version and one name, of no step, which isn't dead; a birth of processes 0 and 1 without a topology, and one
// front; nothing dropped, and one call, number 0, with a post of process 0: an allreduce that blocks, by sums, of two items at
// 64 bits; and nobody acknowledges anything.
const WRITTEN_OUT: &[u8] = &[
    0x4d, 0x50, 0x58, 0x47, 0x02, 0x00, 0x01, 0x00, 0x00, 0x01, 0x02, 0x00, 0x01, 0x00, 0x01, 0x01,
    0x00, 0x00, 0x01, 0x02, 0x00, 0x00, 0x00, 0x00, 0x00, 0x00, 0x00, 0x01, 0x00, 0x00, 0x00, 0x00,
    0x01, 0x00, 0x01, 0x0b, 0x00, 0x03, 0x04, 0x00, 0x02, 0xff, 0xff, 0xff, 0xff, 0xff, 0xff, 0xff,
    0xfe, 0x00, 0x00, 0x00, 0x00, 0x00, 0x00, 0x03, 0xe8, 0x00,
];

const FREED_WORLD: &[BoardStep] = &[
    BoardStep::Members(2),
    BoardStep::Acknowledges(1, 0, 1),
    BoardStep::Adds(0, 0, &[7], Ok(())),
    BoardStep::Kills(Ok(())),
];

// One name, of no step, which is dead; and one process, number 1, that acknowledges one call of process 0 there.
const WRITTEN_FREED: &[u8] = &[
    0x4d, 0x50, 0x58, 0x47, 0x02, 0x00, 0x01, 0x00, 0x01, 0x01, 0x01, 0x00, 0x01, 0x00, 0x01, 0x00,
    0x00, 0x00, 0x00, 0x01,
];

// One name, of one step, which is dead.
const WRITTEN_DEAD: &[u8] = &[
    0x4d, 0x50, 0x58, 0x47, 0x02, 0x00, 0x01, 0x01, 0x00, 0x00, 0x00, 0x00, 0x00, 0x00, 0x00, 0x00,
    0x00, 0x01, 0x00,
];

// Boards and their frames.
const WRITTEN: [(&str, &[BoardStep], &[u8]); 4] = [
    ("nothing", &[], EMPTY),
    ("a post", WORLD_WITH_A_POST, WRITTEN_OUT),
    ("a world that was freed", FREED_WORLD, WRITTEN_FREED),
    ("a dead child", DEAD_CHILD, WRITTEN_DEAD),
];

// Whether the board is written so.
fn is_written(alloc: Global, board: &Board, wanted: &[u8]) -> Result<bool, Fail> {
    let bytes = encode(alloc, board)?;
    Ok(bytes.as_slice() == wanted && frame_len(board) == wanted.len())
}

// Whether the bytes are read as the board, as a board of its own and into one.
fn is_read(alloc: Global, bytes: &[u8], board: &Board) -> Result<bool, Fail> {
    let read = decode(alloc, bytes)?;
    let mut taken = Board::new(alloc);
    taken.take(alloc, &read)?;
    Ok(read.same(board) && taken.same(board))
}

// The length of the frame of so many names of contexts, or none, and what `frame_len` says.
fn lengths(alloc: Global, count: u32) -> Result<(Option<usize>, usize), Fail>
    requires { count < 4294967295 }
{
    let mut board = Board::new(alloc);
    for call in 0..count {
        let name = Name::world(alloc).child(alloc, call, 0)?;
        board.raise_front(alloc, &name, proc(0), 1)?;
    }
    let length = match encode(alloc, &board) {
        Ok(bytes) => Some(bytes.len()),
        Err(_) => None,
    };
    Ok((length, frame_len(&board)))
}

// Four boards, and as many names as a list may have, and one more.
#[test]
fn boards_are_written_out(rt: HostRuntime) -> Result<(), Fail> {
    for &(shown, steps, wanted) in WRITTEN.iter() {
        let board = board_of(&rt, rt.alloc(), shown, steps)?;
        assert!(rt; is_written(rt.alloc(), &board, wanted)?, "{shown}");
        assert!(rt; is_read(rt.alloc(), wanted, &board)?, "{shown}");
    }
    let most = 8 + 4096 * 26;
    assert!(rt; lengths(rt.alloc(), 4096)? == (Some(most), most));
    assert!(rt; lengths(rt.alloc(), 4097)? == (None, 1_048_577));
    Ok(())
}

// Whether the frame with another byte at this place gives a board; and whether that has just that frame, or else the frame is
// refused, and not for want of memory.
fn gives_a_board(alloc: Global, at: usize, byte: u8) -> Result<(bool, bool), Fail> {
    let mut frame = Vec::from_slice(alloc, FRAME)?;
    if let Some(place) = frame.get_mut(at) {
        *place = byte;
    }
    match decode(alloc, &frame) {
        Ok(board) => Ok((true, encode(alloc, &board)? == frame)),
        Err(fault) => Ok((false, fault != WireError::OutOfMemory)),
    }
}

// Each other byte at each place. The item's bytes may be any, and the first five bytes no others.
#[test]
fn one_other_byte_is_refused_or_spells_another_board(rt: HostRuntime) -> Result<(), Fail> {
    let item = FRAME.len().saturating_sub(5);
    for at in 0..FRAME.len() {
        let mut boards: u16 = 0;
        for byte in 0..=255 {
            let (is_board, is_right) = gives_a_board(rt.alloc(), at, byte)?;
            assert!(rt; is_right, "byte {byte} at {at}");
            if is_board {
                boards = boards.saturating_add(1);
            }
        }
        assert!(rt; boards >= 1 && (at >= 5 || boards == 1), "{boards} at {at}");
        assert!(rt;
            at < item || at >= item.saturating_add(4) || boards == 256,
            "{boards} at {at}"
        );
    }
    let most = vec![in rt.alloc(); 0u8; 1_048_577]?;
    assert!(rt; decode(rt.alloc(), &most).err() == Some(WireError::TooLong));
    Ok(())
}
