//! Runs of a board: whole entries that stand one behind another, as boards of their own where their frames are short.
ghost use Rattle.std.specs.Prelude.{◌≡◌, ◌≤◌, ◌<◌, length, All, IfOk, IfSome, IsTrue};
ghost use Rattle.std.specs.Ordering.{nat_cmp};
ghost use Rattle.std.specs.FinMap.{from_sorted, is_sorted};
ghost use Rattle.join_nest.specs.Seen.{seen};
ghost use Rattle.mpx_name.specs.Order.{name_cmp};
ghost use Rattle.mpx_board.specs.Looks.{parts_of};
ghost use Rattle.mpx_board.specs.Tidy.{is_tidy_acks, is_tidy_lifted, is_tidy_numbers};
ghost use Rattle.mpx_board.specs.Views.{view_of_acks, view_of_lifted, view_of_numbers};
ghost use Rattle.mpx_format.specs.Encoding.{length_told};
ghost use Rattle.mpx_delta.specs.Facts.{SaysAcks, SaysLifted, SaysNumbers};
ghost use Rattle.mpx_delta.specs.Pieces.{IsPiece, IsEntryRun, most_of_piece};

use crate::bounds::{room_after_acks, room_after_contexts, room_after_names};
use crate::pieces::one;
use join_core::{Exact, Key, OutOfMemory, Pair};
use join_nest::{Keyed, push_copy};
use mpx_board::{Board, Digest, Lifted, VersionVector};
use mpx_encode::frame_len;
use mpx_group::Proc;
use mpx_name::Name;
use std::alloc::Global;

// The greatest number of bytes of a piece's frame.
const MOST_OF_PIECE: usize = 524_288;

// The map of copies of these entries.
fn copied<K: Key, J: Exact>(alloc: Global, entries: &[(K, J)]) -> Result<Keyed<K, J>, OutOfMemory>
    requires { IsTrue (is_sorted K.cmp entries.now) }
    ensures { IfOk result (λ made. ⟦<Keyed<K, J> as Exact>⟧.view made ≡ from_sorted (seen J.view entries.now)) }
{
    let mut made = Vec::with_capacity(alloc, entries.len())?;
    for entry in entries {
        push_copy(alloc, &mut made, entry)?;
    }
    Ok(Keyed::from_rising(made))
}

// The board, where its frame is short.
fn short(board: Board) -> Option<Board>
    ensures same { IfSome result (λ piece. parts_of piece ≡ parts_of board) }
    ensures fits { IfSome result (λ piece. length_told (parts_of piece) ≤ most_of_piece) }
{
    if frame_len(&board) <= MOST_OF_PIECE {
        Some(board)
    } else {
        None
    }
}

// What is known of these contexts, where that is short.
pub fn contexts_piece(
    alloc: Global,
    contexts: &[(Name, Lifted)],
) -> Result<Option<Board>, OutOfMemory>
    requires { IsEntryRun name_cmp view_of_lifted (λ e. is_tidy_lifted e.1) contexts.now }
    ensures { IfOk result (λ found. IfSome found (IsPiece (λ P. All (SaysLifted P) (seen view_of_lifted contexts.now)))) }
{
    if room_after_contexts(MOST_OF_PIECE, contexts) == 0 {
        return Ok(None);
    }
    let parts = Pair {
        first: copied(alloc, contexts)?,
        second: Keyed::new(alloc),
    };
    Ok(short(Board::from_tidy(parts)))
}

// What these processes acknowledge, where that is short.
pub fn acks_piece(alloc: Global, processes: &[(Proc, Digest)]) -> Result<Option<Board>, OutOfMemory>
    requires { IsEntryRun nat_cmp view_of_acks (λ e. is_tidy_acks e.1) processes.now }
    ensures { IfOk result (λ found. IfSome found (IsPiece (λ P. All (SaysAcks P) (seen view_of_acks processes.now)))) }
{
    if room_after_acks(MOST_OF_PIECE, processes) == 0 {
        return Ok(None);
    }
    let parts = Pair {
        first: Keyed::new(alloc),
        second: copied(alloc, processes)?,
    };
    Ok(short(Board::from_tidy(parts)))
}

// What the process acknowledges of these contexts, of which there are some, where that is short.
pub fn names_piece(
    alloc: Global,
    process: Proc,
    names: &[(Name, VersionVector)],
) -> Result<Option<Board>, OutOfMemory>
    requires some { 0 < length names.now }
    requires run { IsEntryRun name_cmp view_of_numbers (λ e. is_tidy_numbers e.1) names.now }
    ensures { IfOk result (λ found. IfSome found (IsPiece (λ P. All (SaysNumbers P process) (seen view_of_numbers names.now)))) }
{
    if room_after_names(MOST_OF_PIECE, names) == 0 {
        return Ok(None);
    }
    let of_process = copied(alloc, names)?;
    let parts = Pair {
        first: Keyed::new(alloc),
        second: one(alloc, process, of_process)?,
    };
    Ok(short(Board::from_tidy(parts)))
}
