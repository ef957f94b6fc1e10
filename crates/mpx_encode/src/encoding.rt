//! The frame of a board, its length, and which boards have none.
ghost use Rattle.std.specs.Prelude.{◌≡◌, ◌↔◌, ◌+◌, ◌-◌, true, cond, nat_le, None, Some, IfOk, IfSome, length};
ghost use Rattle.std.specs.Result.{IsErrOf};
ghost use Rattle.std.specs.FinMap.{len};
ghost use Rattle.mpx_board.specs.Looks.{parts_of};
ghost use Rattle.mpx_board.specs.Tidy.{all_entries, is_tidy};
ghost use Rattle.mpx_board.specs.Views.{view_of_parts};
ghost use Rattle.mpx_format.specs.declared.versions.Version.TheVariants.{Two};
ghost use Rattle.mpx_format.specs.Contexts.{frame};
ghost use Rattle.mpx_format.specs.Decoding.{Spells, most_bytes};
ghost use Rattle.mpx_format.specs.Kept.{AreKept};
ghost use Rattle.mpx_format.specs.Encoding.{has_many_names, most_names, is_too_long, length_told};
ghost use Rattle.mpx_encode.specs.declared.encoding.EncodeError.TheVariants as E;

use crate::room::MOST_BYTES;
use crate::write_contexts::{room_after_frame, write_frame};
use join_core::OutOfMemory;
use mpx_board::{Board, Parts};
use mpx_format::Kept;
use mpx_rope::Rope;
use std::alloc::{AllocError, Global};
use thiserror::Error;

/// The greatest number of names in one list.
const MOST_NAMES: usize = 4096;

// So much room a rope has from the first, at most: of a longer frame most bytes may be shared.
const FIRST_ROOM: usize = 1024;

/// Why a board has no frame.
#[derive(Clone, Copy, Debug, PartialEq, Eq, Error)]
pub enum EncodeError {
    /// Its frame would be over 1,048,576 bytes, or a list in it over 4,096 names.
    #[error("TooLong")]
    TooLong,
    /// A growth was refused.
    #[error("OutOfMemory")]
    OutOfMemory,
}

impl From<OutOfMemory> for EncodeError {
    ghost from_gives = { λ _ e. e ≡ E.OutOfMemory };

    fn from(_e: OutOfMemory) -> EncodeError {
        EncodeError::OutOfMemory
    }
}

impl From<AllocError> for EncodeError {
    ghost from_gives = { λ _ e. e ≡ E.OutOfMemory };

    fn from(_e: AllocError) -> EncodeError {
        EncodeError::OutOfMemory
    }
}

// Whether no process acknowledges too many names.
fn has_few_acks(parts: &Parts) -> bool
    ensures { result ≡ all_entries (λ p a. nat_le (len a) most_names) (view_of_parts parts.now).1 }
{
    let processes = parts.second.entries();
    processes.iter().all(|e| e.1.len() <= MOST_NAMES)
}

// Whether a list of names has too many.
fn has_many_names(parts: &Parts) -> bool
    ensures { result ≡ has_many_names (view_of_parts parts.now) }
{
    let names = parts.first.len();
    if names > MOST_NAMES {
        return true;
    }
    !has_few_acks(parts)
}

/// The frame of the board, all in one place: `MPXG`, the version 2, what is known of each context by its name, or that it is dead, and
/// what each process acknowledges, all numbers with the highest byte first.
///
/// # Errors
/// `TooLong` where the frame would be over 1,048,576 bytes or a list in it over 4,096 names, `OutOfMemory` where memory is
/// refused.
pub fn encode(alloc: Global, board: &Board) -> Result<Vec<u8>, EncodeError>
    ensures spelled { IfOk result (λ bytes. Spells Two bytes.items (parts_of board.now)) }
    ensures too_long { IsErrOf result EncodeError.TooLong ↔ (is_too_long (parts_of board.now) ≡ true) }
{
    let frame = encode_rope(alloc, board)?;
    Ok(frame.lent().joined(alloc)?)
}

/// The frame of the board as [`encode`] makes it, which shares items of 64 bytes or more with the board's posts.
///
/// # Errors
/// As of [`encode`].
pub fn encode_rope(alloc: Global, board: &Board) -> Result<Rope, EncodeError>
    ensures spelled { IfOk result (λ frame. Spells Two frame (parts_of board.now)) }
    ensures too_long { IsErrOf result EncodeError.TooLong ↔ (is_too_long (parts_of board.now) ≡ true) }
{
    encode_over(Rope::new(alloc), board, &Kept::new(alloc))
}

/// The frame of the board as [`encode_rope`] makes it, in the place of what this rope is: where its own bytes have the room, only what is
/// shared may take memory. What is kept of acknowledgements as they are spelled is copied.
///
/// # Errors
/// As of [`encode`]; the rope is let go then.
pub fn encode_over(rope: Rope, board: &Board, kept: &Kept) -> Result<Rope, EncodeError>
    requires { AreKept kept.now.of.items (parts_of board.now).1 }
    ensures spelled { IfOk result (λ frame. Spells Two frame (parts_of board.now)) }
    ensures too_long { IsErrOf result EncodeError.TooLong ↔ (is_too_long (parts_of board.now) ≡ true) }
{
    let parts = board.pair();
    let Some(left) = frame_room(parts, Some(kept)) else {
        return Err(EncodeError::TooLong);
    };
    let mut out = rope;
    out.clear();
    out.reserve((MOST_BYTES - left).min(FIRST_ROOM))?;
    write_frame(parts, kept, &mut out)?;
    Ok(out)
}

// What the frame of these parts leaves of the bytes that a frame may have, where it isn't too long.
fn frame_room(parts: &Parts, kept: Option<&Kept>) -> Option<usize>
    requires tidy { is_tidy (view_of_parts parts.now) ≡ true }
    requires kept { IfSome kept (λ k. AreKept k.now.of.items (view_of_parts parts.now).1) }
    ensures value { result ≡ cond (is_too_long (view_of_parts parts.now)) None (Some (most_bytes - length (frame.spelling (Two, view_of_parts parts.now)))) }
    ensures fits { IfSome result (λ left. frame.fits (Two, view_of_parts parts.now) ≡ true) }
    ensures few { IfSome result (λ left. length (frame.spelling (Two, view_of_parts parts.now)) + left ≡ most_bytes) }
{
    if has_many_names(parts) {
        return None;
    }
    room_after_frame(parts, kept, MOST_BYTES)
}

/// How many bytes the frame of the board has, 1,048,577 where it is too long. It takes no memory.
pub fn frame_len(board: &Board) -> usize
    ensures { result ≡ length_told (parts_of board.now) }
{
    match frame_room(board.pair(), None) {
        None => MOST_BYTES + 1,
        Some(left) => MOST_BYTES - left,
    }
}
