//! How a rank ends: its lines, and where it waits.
use crate::line::Line;
use crate::origin::Origin;
use mpx_name::Name;
use mpx_statement::Word;

/// A call that a rank's next move asks for.
#[derive(Debug, Drop)]
pub struct AskedCall {
    /// The word of its request, where the rank waits for one.
    pub request: Option<Word>,
    /// The context.
    pub name: Name,
    /// The number of the call in its context, from 0 on.
    pub call: u32,
}

/// Where a rank has something left to do.
#[derive(Debug, Drop)]
pub struct WaitsAt {
    /// How many of its statements are left, with the one at which it waits.
    pub left: usize,
    /// The calls whose outcomes that statement asks for.
    pub calls: Vec<AskedCall>,
}

/// What a rank leaves when it goes no further.
#[derive(Debug, Drop)]
pub struct RankEnd {
    pub lines: Vec<Line>,
    /// Which statement each line belongs to.
    pub origins: Vec<Origin>,
    /// Where it waits; None where it has nothing left to do.
    pub waits: Option<WaitsAt>,
}
