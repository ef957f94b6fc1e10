//! What a node gives of its board where a frame has a limit.
ghost use Rattle.std.specs.Prelude.{◌≡◌, ◌↔◌, false, IfOk, IsErrOf, IsTrue};
ghost use Rattle.mpx_board.specs.Looks.{parts_of};
ghost use Rattle.mpx_node.specs.Parts.{fits_in};
ghost use Rattle.mpx_node.specs.declared.part.PartError.TheVariants as E;

use join_core::{Exact, OutOfMemory};
use mpx_board::Board;
use mpx_encode::frame_len;
use std::alloc::Global;
use thiserror::Error;

/// The greatest number of bytes of a frame.
const MOST_BYTES: usize = 1_048_576;

/// Why a node gives no part.
#[derive(Clone, Copy, Debug, PartialEq, Eq, Error)]
pub enum PartError {
    /// The board has no frame, or one over the limit.
    #[error("DoesNotFit")]
    DoesNotFit,
    /// A growth was refused.
    #[error("OutOfMemory")]
    OutOfMemory,
}

impl From<OutOfMemory> for PartError {
    ghost from_gives = { λ _ e. e ≡ E.OutOfMemory };

    fn from(_e: OutOfMemory) -> PartError {
        PartError::OutOfMemory
    }
}

// A copy of the board, where it has a frame of at most so many bytes.
pub fn whole_part(alloc: Global, board: &Board, limit: usize) -> Result<Board, PartError>
    ensures whole { IfOk result (λ part. parts_of part ≡ parts_of board.now) }
    ensures refused { IsErrOf result PartError.DoesNotFit ↔ (fits_in limit (parts_of board.now) ≡ false) }
{
    if limit.min(MOST_BYTES) < frame_len(board) {
        return Err(PartError::DoesNotFit);
    }
    Ok(board.copy(alloc)?)
}
