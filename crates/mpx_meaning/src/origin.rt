//! Where a line of a transcript comes from: which statement of its rank, and which of its lines.
/// Which statement of its rank a line of a transcript belongs to.
#[derive(Clone, Copy, Debug, PartialEq, Eq)]
pub struct Origin {
    /// How many of the rank's statements were left when the line was written, with that one.
    pub left: usize,
    /// Which of the statement's lines it is, from 0 on: a wait has one for each of its requests.
    pub nth: usize,
}
