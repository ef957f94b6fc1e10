//! What turns, tests and waits answer.
ghost use Rattle.std.specs.Prelude.{◌≡◌};
ghost use Rattle.mpx_request.specs.declared.answers.TurnError.TheVariants.{OutOfMemory};

use thiserror::Error;

/// Why a host made no turn.
#[derive(Clone, Copy, Debug, PartialEq, Eq, Error)]
pub enum TurnError {
    /// Memory was wanting. A later turn may be made.
    #[error("out of memory")]
    OutOfMemory,
    /// The rank with this number gave up: the host makes no turn any more.
    #[error("rank {0} gave up")]
    GaveUp(u8),
}

impl From<join_core::OutOfMemory> for TurnError {
    ghost from_gives = { λ _ e. e ≡ OutOfMemory };

    fn from(_e: join_core::OutOfMemory) -> TurnError {
        TurnError::OutOfMemory
    }
}

/// What a test came to: what was asked for, or the requests once more.
#[derive(Debug, Drop)]
pub enum Tested<F, R> {
    Done(F),
    NotYet(R),
    /// The result, or one of them, was let go: [`Host::forget`](crate::Host::forget).
    LetGo(R),
}

/// Why a wait ended without its results. The requests are handed back.
#[derive(Debug, Drop, Error)]
pub enum WaitError<R> {
    /// As many turns were made as the caller gave, and it isn't done.
    #[error("not done after the turns given")]
    StillWaiting(R),
    /// Memory was wanting, for what is at hand or for a turn.
    #[error("out of memory")]
    OutOfMemory(R),
    /// It isn't done, and the rank with this number gave up: [`TurnError::GaveUp`].
    #[error("not done, and rank {1} gave up")]
    GaveUp(R, u8),
    /// The result, or one of them, was let go: [`Host::forget`](crate::Host::forget).
    #[error("done, and its result let go")]
    LetGo(R),
}
