//! The lines of a rank's statements.
ghost use Rattle.std.specs.Prelude.{IfOk};
ghost use Rattle.mpx_waiting.specs.Lines.{AreLinesOf};

use join_core::OutOfMemory;
use mpx_script::statement_lines;
use std::alloc::Global;

/// A rank, and the lines of its statements.
#[derive(Drop)]
pub struct RankLines {
    pub rank: u8,
    pub numbers: Vec<u32>,
}

/// Those of this rank.
pub fn lines_of(alloc: Global, text: &[u8], rank: u8) -> Result<RankLines, OutOfMemory>
    ensures { IfOk result (λ lines. AreLinesOf text.now rank lines) }
{
    let numbers = statement_lines(alloc, text, rank)?;
    Ok(RankLines { rank, numbers })
}

/// The lines of this rank's statements: those at hand, where they are of this rank, else they are found.
pub fn lines_now(
    alloc: Global,
    text: &[u8],
    rank: u8,
    lines: RankLines,
) -> Result<RankLines, OutOfMemory>
    requires { AreLinesOf text.now lines.rank lines }
    ensures { IfOk result (λ now. AreLinesOf text.now rank now) }
{
    if lines.rank == rank {
        return Ok(lines);
    }
    drop(lines);
    lines_of(alloc, text, rank)
}
