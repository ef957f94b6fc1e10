//! The evaluation of a script.
ghost use Rattle.std.specs.Prelude.{◌≡◌, ◌<◌, ◌≤◌, ℕ, IfOk, List, None, map};
ghost use Rattle.mpx_name.specs.Name.{Name as NameView};
ghost use Rattle.mpx_meaning.specs.Ends.{end_view};
ghost use Rattle.mpx_meaning.specs.Reports.{transcripts_of};
ghost use Rattle.mpx_rank.specs.Places.{end_of_rank};
ghost use Rattle.mpx_eval.specs.Evaluated.{EndSo, IsEvaluated};
ghost use Rattle.mpx_eval.specs.Rounds.{Start, StartsAt};
ghost use Rattle.mpx_eval.specs.Carrying.{shown};

use crate::rounds::rounds;
use crate::table::Table;
use join_core::OutOfMemory;
use mpx_birth::Birth;
use mpx_group::Proc;
use mpx_meaning::{RankEnd, Report};
use mpx_name::Name;
use mpx_num::{Listing, Ops};
use mpx_rank::Interpreter;
use mpx_script::Script;
use std::alloc::Global;

/// What the ranks of a script print: in rounds, every rank in order goes on until it must wait for posts that are missing; it
/// ends with a round that moves nobody. `ops` are the job's own operations: the script was read with the same. An `Err` is want of
/// memory.
pub fn eval(alloc: Global, script: &Script, ops: &Ops) -> Result<Report, OutOfMemory>
    ensures lines { IfOk result (λ report. IsEvaluated (⟦<Ops as Listing>⟧.operations ops.now) script.now (transcripts_of report) report.waiting.items) }
    ensures ends { IfOk result (λ report. EndSo (⟦<Ops as Listing>⟧.operations ops.now) script.now (map end_view report.ends.items)) }
{
    let _ = script.ranks();
    let ends = evaluate(alloc, script, ops)?;
    let report = Report::of(alloc, ends)?;
    Ok(report)
}

// How each rank ends.
fn evaluate(alloc: Global, script: &Script, ops: &Ops) -> Result<Vec<RankEnd>, OutOfMemory>
    ensures { IfOk result (λ ends. EndSo (⟦<Ops as Listing>⟧.operations ops.now) script.now (map end_view ends.items)) }
{
    let _ = script.ranks();
    let mut ranks = start(alloc, script)?;
    let mut table = Table::new(alloc);
    match rounds(alloc, &mut ranks, &mut table, ops) {
        Ok(()) => drop(table),
        Err(e) => {
            drop(table);
            drop(ranks);
            return Err(e);
        }
    }
    ends_of(alloc, ranks)
}

/// The ranks before their statements.
pub(crate) fn start<'a>(
    alloc: Global,
    script: &'a Script,
) -> Result<Vec<Interpreter<'a, Table>>, OutOfMemory>
    ensures { IfOk result (λ ranks. Start script.now.statements script.now.ranks script.now.ranks (map shown ranks.items)) }
{
    let mut places = Vec::new(alloc);
    let ranks = script.ranks();
    for me in 0..ranks {
        places.push(start_at(alloc, script, me, ranks)?)?;
    }
    Ok(places)
}

// A rank before its statements.
fn start_at<'a>(
    alloc: Global,
    script: &'a Script,
    me: u8,
    ranks: u8,
) -> Result<Interpreter<'a, Table>, OutOfMemory>
    requires few { ranks ≤ 64 }
    requires me { me < ranks }
    ensures { IfOk result (λ rank. StartsAt script.now.statements ranks me (shown rank)) }
{
    let world = (Name::world(alloc), Birth::world(alloc, ranks)?);
    Interpreter::new(alloc, Proc::new(me), Some(world), script.statements(me))
}

// How each rank ends.
fn ends_of(alloc: Global, places: Vec<Interpreter<'_, Table>>) -> Result<Vec<RankEnd>, OutOfMemory>
    ensures { IfOk result (λ ends. map end_view ends.items ≡ map end_of_rank (map shown places.entry.items)) }
{
    let mut ends = Vec::new(alloc);
    for place in places {
        ends.push(place.into_end(alloc)?)?;
    }
    Ok(ends)
}
