//! What the verdict of a call's posts says: in what they differ, and at which rank.
use thiserror::Error;

/// In what the members' posts to a call differ, in the order in which it is told.
#[derive(Clone, Copy, Debug, PartialEq, Eq)]
pub enum FaultKind {
    /// In the kind of call.
    Kind,
    /// One call blocks, another doesn't.
    Mode,
    /// In the root.
    Root,
    /// In the operation.
    Op,
    /// In the type of the items.
    ItemType,
    /// In the numbers of items.
    Amount,
    /// Some give edges with weights, others without.
    Weights,
    /// In the edges that two members tell of each other.
    Edges,
    /// In the groups that the members of one of them give.
    Groups,
}

/// A call whose posts don't fit together: every member is told the same.
#[derive(Clone, Copy, Debug, PartialEq, Eq, Error)]
pub struct Fault {
    /// In what they differ.
    pub what: FaultKind,
    /// The least rank that differs.
    pub rank: u8,
}

/// Whether the posts of a call fit together.
#[derive(Clone, Copy, Debug, PartialEq, Eq)]
pub enum Verdict {
    Fine,
    Fault(Fault),
}
