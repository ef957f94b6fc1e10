//! What a process says that it has, and gives of its board.
ghost use Rattle.std.specs.Prelude.{◌≡◌, ◌<◌, ◌≤◌, All, map, IfOk, IsTrue, OnErr, OnOk};
ghost use Rattle.mpx_board.specs.Boards.{join, join_all, own_acks};
ghost use Rattle.mpx_board.specs.Looks.{look, parts_of};
ghost use Rattle.mpx_board.specs.Tidy.{are_tidy_numbers};
ghost use Rattle.mpx_board.specs.Views.{view_of_acks};
ghost use Rattle.mpx_format.specs.Encoding.{length_told};
ghost use Rattle.mpx_digest.specs.Digest.{numbers_acked};
ghost use Rattle.mpx_delta.specs.Facts.{OnlyFactsOf};
ghost use Rattle.mpx_delta.specs.Pieces.{NoNeighboursFit};
ghost use Rattle.mpx_delta.specs.Digests.{Acknowledges, common_on, without};
ghost use Rattle.mpx_delta.specs.Lacking.{IsLacking};

use crate::delta::lean_board;
use crate::packing::parts;
use crate::posted::common_of_posts;
use join_core::OutOfMemory;
use mpx_board::{Board, Digest, Raised};
use mpx_digest::digest_of;
use mpx_encode::frame_len;
use mpx_group::Proc;
use std::alloc::Global;

/// What a process says that it has, to be stored on its board, and what others may lack of its board, in parts.
#[derive(Debug, Drop)]
pub struct NewList {
    pub said: Raised,
    pub parts: Vec<Board>,
}

/// Makes what the process `me` of `processes` stores where it says that it has all that its board has, and the board with that
/// and without the posts below what all processes say, in parts, each of which has only facts of that board and a frame of at most
/// `limit` bytes, from 524,288 to 1,048,576. The board stays as it is: [`Board::store`] stores what was made of it. An `Err` is want of
/// memory.
pub fn new_list(
    alloc: Global,
    board: &Board,
    me: Proc,
    processes: u8,
    limit: usize,
) -> Result<NewList, OutOfMemory>
    requires some { 0 < processes }
    requires few { processes ≤ 64 }
    requires least { 524288 ≤ limit }
    requires most { limit ≤ 1048576 }
    ensures { IfOk result (λ made. IsLacking me processes limit (look board.now) made.said made.parts.items) }
{
    let digest = digest_of(alloc, board)?;
    let acks = raised_acks(alloc, board, me, &digest)?;
    let lean = lean_by_all(alloc, board, acks, processes)?;
    let parts = in_parts(alloc, lean, limit)?;
    match board.raised(alloc, me, &digest) {
        Ok(said) => Ok(NewList { said, parts }),
        Err(e) => {
            drop(parts);
            Err(e)
        }
    }
}

/// The process `me` of `processes` says that it has all that its board has, and gives the board without the posts below what
/// all of them say, in parts, each of which has only facts of the board and a frame of at most `limit` bytes. An `Err`, for want of
/// memory, changes nothing.
pub fn deltas(
    alloc: Global,
    board: &mut Board,
    me: Proc,
    processes: u8,
    limit: usize,
) -> Result<Vec<Board>, OutOfMemory>
    requires some { 0 < processes }
    requires few { processes ≤ 64 }
    requires least { 524288 ≤ limit }
    requires most { limit ≤ 1048576 }
    ensures own { OnOk result (Acknowledges me (look board.old) (look board.new)) }
    ensures facts { IfOk result (λ made. All (λ part. OnlyFactsOf (look part) (look board.new)) made.items) }
    ensures fit { IfOk result (λ made. All (λ part. length_told (parts_of part) ≤ limit) made.items) }
    ensures join { IfOk result (λ made. join_all (map look made.items) ≡ without (common_on processes (look board.new)) (look board.new)) }
    ensures few { IfOk result (λ made. NoNeighboursFit limit made.items) }
    ensures err { OnErr result (look board.new ≡ look board.old) }
{
    let NewList { said, parts } = new_list(alloc, board, me, processes, limit)?;
    board.store(said);
    Ok(parts)
}

// What all processes say, where the process says what the digest says.
fn raised_acks(
    alloc: Global,
    board: &Board,
    me: Proc,
    digest: &Digest,
) -> Result<Board, OutOfMemory>
    requires { IsTrue (are_tidy_numbers (view_of_acks digest.now)) }
    ensures { IfOk result (λ made. record (look board.now) { acks = (look made).acks } ≡ join (look board.now) (own_acks me (numbers_acked (view_of_acks digest.now)))) }
{
    let mut said = board.only_acks(alloc)?;
    said.raise_acks(alloc, me, digest)?;
    Ok(said)
}

// The board in parts, as `parts` gives them: itself where it fits, and no copy of it.
fn in_parts(alloc: Global, board: Board, limit: usize) -> Result<Vec<Board>, OutOfMemory>
    requires least { 524288 ≤ limit }
    requires most { limit ≤ 1048576 }
    ensures facts { IfOk result (λ made. All (λ part. OnlyFactsOf (look part) (look board)) made.items) }
    ensures fit { IfOk result (λ made. All (λ part. length_told (parts_of part) ≤ limit) made.items) }
    ensures join { IfOk result (λ made. join_all (map look made.items) ≡ look board) }
    ensures few { IfOk result (λ made. NoNeighboursFit limit made.items) }
{
    if limit < frame_len(&board) {
        return parts(alloc, &board, limit);
    }
    let mut whole = Vec::new(alloc);
    whole.push(board)?;
    Ok(whole)
}

// The board with the acknowledgements of the other, and without the posts below what so many processes say there.
fn lean_by_all(
    alloc: Global,
    board: &Board,
    said: Board,
    processes: u8,
) -> Result<Board, OutOfMemory>
    requires some { 0 < processes }
    requires few { processes ≤ 64 }
    ensures { IfOk result (λ made. look made ≡ without (common_on processes (look said)) (record (look board.now) { acks = (look said).acks })) }
{
    match common_of_posts(alloc, board, &said, processes) {
        Ok(digest) => lean_board(alloc, board, said, &digest),
        Err(e) => {
            drop(said);
            Err(e)
        }
    }
}
