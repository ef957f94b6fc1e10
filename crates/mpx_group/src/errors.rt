//! Why a group is not made.
ghost use Rattle.std.specs.Prelude.{◌≡◌};
ghost use Rattle.mpx_group.specs.declared.errors.GroupError.TheVariants.{OutOfMemory};

use std::alloc::{AllocError, AllocFailed};
use thiserror::Error;

/// Why a group was not made. Of several reasons the first in this order is told.
#[derive(Clone, Copy, Debug, PartialEq, Eq, Error)]
pub enum GroupError {
    /// A triplet's stride is 0, or points away from its last rank.
    #[error("bad triplet")]
    BadTriplet,
    /// A rank is below 0, or is the group's size or more.
    #[error("rank out of range")]
    RankOutOfRange,
    /// A rank, or a process, is listed twice.
    #[error("rank listed twice")]
    RankTwice,
    #[error("out of memory")]
    OutOfMemory,
}

impl From<AllocError> for GroupError {
    ghost from_gives = { λ _ e. e ≡ OutOfMemory };

    fn from(_e: AllocError) -> GroupError {
        GroupError::OutOfMemory
    }
}

impl<T: Drop> From<AllocFailed<T>> for GroupError {
    ghost from_gives = { λ _ e. e ≡ OutOfMemory };

    fn from(_e: AllocFailed<T>) -> GroupError {
        GroupError::OutOfMemory
    }
}

impl From<join_core::OutOfMemory> for GroupError {
    ghost from_gives = { λ _ e. e ≡ OutOfMemory };

    fn from(_e: join_core::OutOfMemory) -> GroupError {
        GroupError::OutOfMemory
    }
}
