//! The lines of all ranks, as text.
ghost use Rattle.std.specs.Prelude.{◌≡◌, ◌++◌, ◌≤◌, IfOk, OnOk, length, map, string_bytes};
ghost use Rattle.mpx_meaning.specs.Reports.{transcripts_of};
ghost use Rattle.mpx_meaning.specs.Transcripts.{text_upto};
ghost use Rattle.gossipmpi_c.specs.Answers.{lines_at};

use join_core::OutOfMemory;
use mpx_meaning::{Report, push_lines};
use std::alloc::Global;

/// The lines of the first so many ranks.
pub(crate) fn text_of(alloc: Global, report: &Report, ranks: u8) -> Result<String, OutOfMemory>
    requires { ranks ≤ length (transcripts_of report.now) }
    ensures { IfOk result (λ text. string_bytes text ≡ text_upto (lines_at (transcripts_of report.now)) ranks) }
{
    let mut text = String::new(alloc);
    for p in 0..ranks {
        push_lines(&mut text, p, report.ends[p as usize].lines.as_slice())?;
    }
    Ok(text)
}
