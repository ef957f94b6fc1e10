//! Pieces put together again, as far as frames reach.
ghost use Rattle.std.specs.Prelude.{◌≡◌, ◌≤◌, ◌<◌, ◌++◌, ◌∷◌, [], All, length, map, slice_set, OnOk, IfOk, IfSome};
ghost use Rattle.mpx_board.specs.Boards.{join_all};
ghost use Rattle.mpx_board.specs.Looks.{look, parts_of};
ghost use Rattle.mpx_format.specs.Encoding.{length_told};
ghost use Rattle.mpx_delta.specs.Facts.{OnlyFactsOf};
ghost use Rattle.mpx_delta.specs.Pieces.{NoNeighboursFit, SayTogether};

use crate::walk::pieces;
use join_core::{Exact, Join, OutOfMemory};
use mpx_board::Board;
use mpx_encode::frame_len;
use std::alloc::Global;

// How many bytes neighbours share, at most: their head, and a process or a context with a call that stands in both.
const MOST_SHARED: usize = 1024;

/// The board in parts, each of which has only facts of the board and a frame of at most `limit` bytes, from 524,288 to 1,048,576, and
/// whose join is the board: the board itself where it fits. Else it is taken apart into runs of contexts and runs of what processes
/// acknowledge, by halves until a run has a frame of at most 524,288 bytes; into single posts, and what is said of a context
/// beside its posts, only where one context alone is too long. Neighbours among these are joined until no two of them fit one
/// frame. An `Err` is want of memory.
///
/// It takes memory in the order of the board's size, and time too where no context is too long alone: a run is copied only
/// where a count of its least bytes doesn't tell that it is too long, and runs are joined a few times. The posts of a context
/// that is too long alone are joined half by half from the smallest boards, in the logarithm of their number times its size.
pub fn parts(alloc: Global, board: &Board, limit: usize) -> Result<Vec<Board>, OutOfMemory>
    requires least { 524288 ≤ limit }
    requires most { limit ≤ 1048576 }
    ensures facts { IfOk result (λ made. All (λ part. OnlyFactsOf (look part) (look board.now)) made.items) }
    ensures fit { IfOk result (λ made. All (λ part. length_told (parts_of part) ≤ limit) made.items) }
    ensures join { IfOk result (λ made. join_all (map look made.items) ≡ look board.now) }
    ensures whole { IfOk result (λ made. length_told (parts_of board.now) ≤ limit → map look made.items ≡ look board.now ∷ []) }
    ensures few { IfOk result (λ made. NoNeighboursFit limit made.items) }
{
    if frame_len(board) <= limit {
        let mut whole = Vec::new(alloc);
        whole.push(board.copy(alloc)?)?;
        return Ok(whole);
    }
    let pieces = pieces(alloc, board)?;
    let packed = pack(alloc, pieces, limit)?;
    fused(alloc, packed, limit)
}

// These boards, of which neighbours are joined until no two of them fit one frame.
fn fused(alloc: Global, boards: Vec<Board>, limit: usize) -> Result<Vec<Board>, OutOfMemory>
    ensures says { IfOk result (λ made. SayTogether limit boards.items made.items) }
    ensures few { IfOk result (λ made. NoNeighboursFit limit made.items) }
{
    let mut made = Vec::new(alloc);
    for board in boards {
        fuse(alloc, &mut made, board, limit)?;
    }
    Ok(made)
}

// Adds the board behind the others, joined with the last of them as far as that fits.
fn fuse(alloc: Global, made: &mut Vec<Board>, board: Board, limit: usize) -> Result<(), OutOfMemory>
    ensures says { OnOk result (SayTogether limit (made.old.items ++ board ∷ []) made.new.items) }
    ensures few { OnOk result (NoNeighboursFit limit made.old.items → NoNeighboursFit limit made.new.items) }
{
    let Some(last) = made.pop() else {
        made.push(board)?;
        return Ok(());
    };
    let both = last.joined(alloc, &board)?;
    if frame_len(&both) <= limit {
        return fuse(alloc, made, both, limit);
    }
    made.push(last)?;
    made.push(board)?;
    Ok(())
}

// These boards, of which neighbours are joined as far as their frames have so many bytes at most.
fn pack(alloc: Global, mut boards: Vec<Board>, limit: usize) -> Result<Vec<Board>, OutOfMemory>
    ensures { IfOk result (λ made. SayTogether limit boards.items made.items) }
{
    if boards.len() <= 1 {
        return Ok(boards);
    }
    let half = boards.len() / 2;
    let others = boards.split_off(half)?;
    let mut made = pack(alloc, boards, limit)?;
    let rest = pack(alloc, others, limit)?;
    add_behind(alloc, &mut made, rest, limit)?;
    Ok(made)
}

// Adds the boards behind the others, the first of them joined with the last of those where that fits.
fn add_behind(
    alloc: Global,
    made: &mut Vec<Board>,
    mut rest: Vec<Board>,
    limit: usize,
) -> Result<(), OutOfMemory>
    ensures { OnOk result (SayTogether limit (made.old.items ++ rest.items) made.new.items) }
{
    if let Some(last) = made.pop() {
        match seam(alloc, &last, &rest, limit)? {
            None => made.push(last)?,
            Some(both) => rest[0] = both,
        }
    }
    made.append(&mut rest)?;
    Ok(())
}

// The board joined with the first of the others, where there is one and that fits.
fn seam(
    alloc: Global,
    last: &Board,
    rest: &[Board],
    limit: usize,
) -> Result<Option<Board>, OutOfMemory>
    ensures { IfOk result (λ seam. IfSome seam (λ both. (0 < length rest.now) × SayTogether limit (last.now ∷ rest.now) (slice_set rest.now 0 both))) }
{
    if rest.len() < 1 {
        return Ok(None);
    }
    let first = &rest[0];
    if is_surely_over(last, first, limit) {
        return Ok(None);
    }
    let both = last.joined(alloc, first)?;
    if limit < frame_len(&both) {
        return Ok(None);
    }
    Ok(Some(both))
}

// Whether the two together are over the limit, whatever they share. It only saves a join: whether they fit is told by its frame.
fn is_surely_over(left: &Board, right: &Board, limit: usize) -> bool {
    let bytes = frame_len(left).saturating_add(frame_len(right));
    limit.saturating_add(MOST_SHARED) < bytes
}
