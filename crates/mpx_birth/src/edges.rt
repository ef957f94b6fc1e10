//! Edges from one rank of a communicator to another, and neighbours at their ends.
/// An edge from one rank of a communicator to another.
#[derive(Clone, Copy, Debug, PartialEq, Eq)]
pub struct Edge {
    pub source: u8,
    pub destination: u8,
    /// 0 where edges have no weights.
    pub weight: u32,
}

/// A rank at the other end of an edge, and the edge's weight.
#[derive(Clone, Copy, Debug, PartialEq, Eq)]
pub struct Neighbour {
    pub rank: u8,
    /// 0 where edges have no weights.
    pub weight: u32,
}
