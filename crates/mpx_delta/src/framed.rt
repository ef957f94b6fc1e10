//! What a process says that it has, and the frames of what others may lack of its board, without a copy of what all say.
ghost use Rattle.std.specs.Prelude.{◌≡◌, ◌<◌, ◌≤◌, All, IfOk, IfSome};
ghost use Rattle.mpx_board.specs.Contexts.{look_of};
ghost use Rattle.mpx_board.specs.Looks.{look, parts_of};
ghost use Rattle.mpx_board.specs.Views.{view_of_acks};
ghost use Rattle.mpx_format.specs.declared.versions.Version.TheVariants.{Two};
ghost use Rattle.mpx_format.specs.Decoding.{Spells};
ghost use Rattle.mpx_format.specs.Encoding.{length_told};
ghost use Rattle.mpx_format.specs.Kept.{AreKept};
ghost use Rattle.mpx_digest.specs.Digest.{numbers_acked};
ghost use Rattle.mpx_delta.specs.Digests.{common_on, without};
ghost use Rattle.mpx_delta.specs.Lacking.{AreFramesOf, AreLacking, AreSpelled};

use crate::delta::lean_contexts;
use crate::packing::parts;
use crate::places::{exchange_contexts, lean_places};
use crate::posted::common_of_posts;
use join_core::{OutOfMemory, Pair};
use join_nest::Keyed;
use mpx_board::{Board, Digest, Raised};
use mpx_digest::digest_beyond;
use mpx_encode::{EncodeError, encode_over, encode_rope, keep};
use mpx_format::Kept;
use mpx_group::Proc;
use mpx_rope::Rope;
use std::alloc::Global;

/// What a process says that it has, to be stored on its board, and the frames of what others may lack of its board.
#[derive(Debug, Drop)]
pub struct NewFrames {
    pub said: Raised,
    pub frames: Vec<Rope>,
}

/// Makes what [`new_list`](crate::new_list) makes, with frames of at most `limit` bytes in place of the parts. What all processes say
/// isn't copied for that: the board lends it, and stays as it is, also where memory is refused. A frame is written over the last of the
/// `spare` ones, where there are such: the room of its own bytes serves it in place of memory. What processes say is kept as it is
/// spelled, where that is much.
pub fn new_frames(
    alloc: Global,
    board: &mut Board,
    me: Proc,
    processes: u8,
    limit: usize,
    spare: &mut Vec<Rope>,
    kept: &mut Kept,
) -> Result<NewFrames, OutOfMemory>
    requires some { 0 < processes }
    requires few { processes ≤ 64 }
    requires least { 524288 ≤ limit }
    requires most { limit ≤ 1048576 }
    requires kept { AreKept kept.old.of.items (parts_of board.old).1 }
    ensures board { look board.new ≡ look board.old }
    ensures kept { AreKept kept.new.of.items (parts_of board.new).1 }
    ensures made { IfOk result (λ made. AreLacking me processes limit (look board.old) made.said made.frames.items) }
{
    let digest = digest_beyond(alloc, board, me)?;
    let before = board.say(alloc, me, &digest)?;
    kept.forget_said(&before);
    let made = kept_frames(alloc, board, processes, limit, spare, kept);
    let said = board.exchange(before);
    kept.forget_said(&said);
    match made {
        Ok(frames) => Ok(NewFrames { said, frames }),
        Err(e) => {
            drop(said);
            Err(e)
        }
    }
}

// What `lean_frames` makes, once what all say is kept as it is spelled.
fn kept_frames(
    alloc: Global,
    board: &mut Board,
    processes: u8,
    limit: usize,
    spare: &mut Vec<Rope>,
    kept: &mut Kept,
) -> Result<Vec<Rope>, OutOfMemory>
    requires some { 0 < processes }
    requires few { processes ≤ 64 }
    requires least { 524288 ≤ limit }
    requires most { limit ≤ 1048576 }
    requires kept { AreKept kept.old.of.items (parts_of board.old).1 }
    ensures board { parts_of board.new ≡ parts_of board.old }
    ensures kept { AreKept kept.new.of.items (parts_of board.new).1 }
    ensures frames { IfOk result (λ made. AreFramesOf limit (without (common_on processes (look board.old)) (look board.old)) made.items) }
{
    keep(alloc, board, kept)?;
    lean_frames(alloc, board, processes, limit, spare, kept)
}

// The frames of the board without the posts that all of so many processes say that they have, in parts. Its contexts stand in the board
// without these meanwhile, unless one would say nothing then.
fn lean_frames(
    alloc: Global,
    board: &mut Board,
    processes: u8,
    limit: usize,
    spare: &mut Vec<Rope>,
    kept: &Kept,
) -> Result<Vec<Rope>, OutOfMemory>
    requires some { 0 < processes }
    requires few { processes ≤ 64 }
    requires least { 524288 ≤ limit }
    requires most { limit ≤ 1048576 }
    requires kept { AreKept kept.now.of.items (parts_of board.old).1 }
    ensures board { parts_of board.new ≡ parts_of board.old }
    ensures frames { IfOk result (λ made. AreFramesOf limit (without (common_on processes (look board.old)) (look board.old)) made.items) }
{
    let shared = common_of_posts(alloc, board, board, processes)?;
    if shared.is_empty() {
        return frames_of(alloc, board, limit, spare, kept);
    }
    let Some(mut changes) = lean_places(alloc, &board.pair().first, &shared)? else {
        return copied_frames(alloc, board, &shared, limit, spare, kept);
    };
    exchange_contexts(alloc, board, &mut changes);
    let made = frames_of(alloc, board, limit, spare, kept);
    exchange_contexts(alloc, board, &mut changes);
    drop(changes);
    made
}

// The frames of a copy of the board without the posts below these numbers, to which what all say is lent.
fn copied_frames(
    alloc: Global,
    board: &mut Board,
    shared: &Digest,
    limit: usize,
    spare: &mut Vec<Rope>,
    kept: &Kept,
) -> Result<Vec<Rope>, OutOfMemory>
    requires least { 524288 ≤ limit }
    requires most { limit ≤ 1048576 }
    requires kept { AreKept kept.now.of.items (parts_of board.old).1 }
    ensures board { parts_of board.new ≡ parts_of board.old }
    ensures frames { IfOk result (λ made. AreFramesOf limit (without (numbers_acked (view_of_acks shared.now)) (look board.old)) made.items) }
{
    let mut lean = lean_of(alloc, board, shared)?;
    board.swap_acks(&mut lean);
    let made = frames_of(alloc, &lean, limit, spare, kept);
    board.swap_acks(&mut lean);
    drop(lean);
    made
}

// The contexts of the board without the posts below these numbers, and nothing that anyone says.
fn lean_of(alloc: Global, board: &Board, shared: &Digest) -> Result<Board, OutOfMemory>
    ensures { IfOk result (λ made. look_of ((parts_of made).0, (parts_of board.now).1) ≡ without (numbers_acked (view_of_acks shared.now)) (look board.now)) }
{
    let first = lean_contexts(alloc, &board.pair().first, shared)?;
    let second = Keyed::new(alloc);
    Ok(Board::from_tidy(Pair { first, second }))
}

// The frames of the board in parts: one where it fits.
fn frames_of(
    alloc: Global,
    board: &Board,
    limit: usize,
    spare: &mut Vec<Rope>,
    kept: &Kept,
) -> Result<Vec<Rope>, OutOfMemory>
    requires least { 524288 ≤ limit }
    requires most { limit ≤ 1048576 }
    requires kept { AreKept kept.now.of.items (parts_of board.now).1 }
    ensures { IfOk result (λ made. AreFramesOf limit (look board.now) made.items) }
{
    let Some(frame) = whole_frame(alloc, board, limit, spare, kept)? else {
        let parts = parts(alloc, board, limit)?;
        return all_frames(alloc, &parts);
    };
    let mut made = Vec::new(alloc);
    made.push(frame)?;
    Ok(made)
}

// A frame that was let go, where there is one.
fn spare_frame(alloc: Global, spare: &mut Vec<Rope>) -> Rope {
    match spare.pop() {
        Some(frame) => frame,
        None => Rope::new(alloc),
    }
}

// The frame of the whole board, where it has at most so many bytes.
fn whole_frame(
    alloc: Global,
    board: &Board,
    limit: usize,
    spare: &mut Vec<Rope>,
    kept: &Kept,
) -> Result<Option<Rope>, OutOfMemory>
    requires { AreKept kept.now.of.items (parts_of board.now).1 }
    ensures fits { IfOk result (λ made. IfSome made (λ frame. length_told (parts_of board.now) ≤ limit)) }
    ensures spelled { IfOk result (λ made. IfSome made (λ frame. Spells Two frame (parts_of board.now))) }
{
    match encode_over(spare_frame(alloc, spare), board, kept) {
        Ok(frame) => {
            if limit < frame.len() {
                return Ok(None);
            }
            Ok(Some(frame))
        }
        Err(EncodeError::TooLong) => Ok(None),
        Err(EncodeError::OutOfMemory) => Err(OutOfMemory),
    }
}

// The frames of boards that aren't too long, one for each.
fn all_frames(alloc: Global, boards: &[Board]) -> Result<Vec<Rope>, OutOfMemory>
    requires { All (λ board. length_told (parts_of board) ≤ 1048576) boards.now }
    ensures { IfOk result (λ made. AreSpelled made.items boards.now) }
{
    let mut made = Vec::new(alloc);
    for board in boards {
        made.push(frame_of(alloc, board)?)?;
    }
    Ok(made)
}

// The frame of a board that isn't too long.
fn frame_of(alloc: Global, board: &Board) -> Result<Rope, OutOfMemory>
    requires { length_told (parts_of board.now) ≤ 1048576 }
    ensures { IfOk result (λ frame. Spells Two frame (parts_of board.now)) }
{
    match encode_rope(alloc, board) {
        Ok(frame) => Ok(frame),
        Err(EncodeError::TooLong) => unreachable!(),
        Err(EncodeError::OutOfMemory) => Err(OutOfMemory),
    }
}
