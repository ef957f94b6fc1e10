//! Places in a group, and how two groups compare.
/// A place in a group, or one of MPI's two special ranks.
#[derive(Clone, Copy, Debug, PartialEq, Eq)]
pub enum Rank {
    /// This rank, counted from 0.
    At(u8),
    /// No process (MPI_PROC_NULL).
    ProcNull,
    /// No rank (MPI_UNDEFINED).
    Undefined,
}

/// How two groups compare (MPI 4.1, section 7.3.1).
#[derive(Clone, Copy, Debug, PartialEq, Eq)]
pub enum Comparison {
    /// The same members in the same order.
    Ident,
    /// The same members in another order.
    Similar,
    /// Other members.
    Unequal,
}
