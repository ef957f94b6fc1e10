//! What a job comes to: how each rank ends, and who waits.
ghost use Rattle.std.specs.Prelude.{◌≡◌, ◌++◌, ◌∷◌, ◌<◌, [], IfOk, OnOk, cond, length, map};
ghost use Rattle.mpx_meaning.specs.Ends.{end_view, waiting_among};
ghost use Rattle.mpx_meaning.specs.Reports.{transcripts_of};
ghost use Rattle.mpx_meaning.specs.Transcripts.{as_text, line_text};

use crate::end::RankEnd;
use crate::line::Line;
use crate::picking::push_where;
use join_core::OutOfMemory;
use std::alloc::Global;

/// What a job comes to: how each rank ends, and in rising order the ranks that have something left to do.
#[derive(Debug, Drop)]
pub struct Report {
    /// The end of rank 0, of rank 1, and so on.
    pub ends: Vec<RankEnd>,
    /// The ranks that wait.
    pub waiting: Vec<u8>,
}

impl Report {
    /// The report of these ends.
    pub fn of(alloc: Global, ends: Vec<RankEnd>) -> Result<Report, OutOfMemory>
        requires few { length ends.items < 256 }
        ensures ends { IfOk result (λ report. report.ends ≡ ends) }
        ensures waiting { IfOk result (λ report. report.waiting.items ≡ waiting_among (map end_view ends.items)) }
    {
        let waiting = waiting_of(alloc, &ends)?;
        Ok(Report { ends, waiting })
    }

    /// The text of each line of each rank.
    pub fn transcripts(&self, alloc: Global) -> Result<Vec<Vec<String>>, OutOfMemory>
        ensures { IfOk result (λ transcripts. map as_text transcripts.items ≡ transcripts_of self.now) }
    {
        let mut transcripts = Vec::new(alloc);
        for end in &self.ends {
            transcripts.push(texts_of(alloc, &end.lines)?)?;
        }
        Ok(transcripts)
    }
}

// The ranks among these that wait.
fn waiting_of(alloc: Global, ends: &[RankEnd]) -> Result<Vec<u8>, OutOfMemory>
    requires few { length ends.now < 256 }
    ensures { IfOk result (λ waiting. waiting.items ≡ waiting_among (map end_view ends.now)) }
{
    let mut waiting = Vec::new(alloc);
    for p in 0..ends.len() {
        push_where(&mut waiting, p as u8, ends[p].waits.is_some())?;
    }
    Ok(waiting)
}

// The text of each of these lines.
fn texts_of(alloc: Global, lines: &[Line]) -> Result<Vec<String>, OutOfMemory>
    ensures { IfOk result (λ texts. as_text texts ≡ map line_text lines.now) }
{
    let mut texts = Vec::new(alloc);
    for line in lines {
        texts.push(line.text(alloc)?)?;
    }
    Ok(texts)
}
