//! How a run ends, and why.
/// Why ranks wait at the end of a run.
#[derive(Clone, Copy, Debug, PartialEq, Eq)]
pub enum Cause {
    /// The run has told all that there is, and these ranks wait in every run: the posts for which they wait never come.
    InEveryRun,
    /// So many turns were made, and that was all; in more turns the run may come further.
    TurnsUsedUp(u32),
    /// Every frame was lost.
    AllLost,
    /// Whether they wait in every run isn't known.
    Unknown,
}

/// How a run ended.
#[derive(Debug, Drop)]
pub enum End {
    /// Every rank has done all its statements.
    Finished,
    /// These ranks, in rising order, wait for posts that didn't come, for this cause.
    Waiting(Vec<u8>, Cause),
}
