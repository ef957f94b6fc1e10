//! Why a change of a board is refused.
ghost use Rattle.std.specs.Prelude.{◌≡◌};
ghost use Rattle.mpx_board.specs.declared.errors.AddPostError.TheVariants as A;

use join_core::OutOfMemory;
use thiserror::Error;

/// Why a post was not added.
#[derive(Clone, Copy, Debug, PartialEq, Eq, Error)]
pub enum AddPostError {
    /// The process's post of that call is told already, or is dropped, or the context is dead.
    #[error("AlreadyPosted")]
    AlreadyPosted,
    #[error("OutOfMemory")]
    OutOfMemory,
}

impl From<OutOfMemory> for AddPostError {
    ghost from_gives = { λ _ e. e ≡ A.OutOfMemory };

    fn from(_e: OutOfMemory) -> AddPostError {
        AddPostError::OutOfMemory
    }
}

/// Why no posts were dropped.
#[derive(Clone, Copy, Debug, PartialEq, Eq, Error)]
pub enum PruneError {
    /// The birth of the context isn't known, so neither are its members.
    #[error("NoBirth")]
    NoBirth,
    /// Not all members have harvested so many calls; so many they have.
    #[error("AboveFloor({0})")]
    AboveFloor(u32),
}

/// Why a context wasn't marked as dead.
#[derive(Clone, Copy, Debug, PartialEq, Eq, Error)]
pub enum KillError {
    /// The birth of the context isn't known, so neither are its members.
    #[error("NoBirth")]
    NoBirth,
}
