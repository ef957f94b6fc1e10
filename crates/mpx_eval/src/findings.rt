//! What is told of a script's evaluation beside its transcripts.
ghost use Rattle.std.specs.Prelude.{◌≡◌, ◌≤◌, IfOk, length, map, slice_get};
ghost use Rattle.mpx_meaning.specs.Reports.{which};
ghost use Rattle.mpx_eval.specs.Carrying.{shown};
ghost use Rattle.mpx_eval.specs.Complaints.{complaints_upto};
ghost use Rattle.mpx_eval.specs.Findings.{AreFindings};
ghost use Rattle.mpx_eval.specs.Found.{complaint_view, complaints_found, found_at, waiting_view};
ghost use Rattle.mpx_eval.specs.Rounds.{is_waiting_at};
ghost use Rattle.mpx_eval.specs.Tables.{table_of};
ghost use Rattle.mpx_eval.specs.Unheard.{unheard_found};

use crate::complaints::{Complaint, complaints_of};
use crate::evaluation::start;
use crate::rounds::rounds;
use crate::table::Table;
use crate::unheard::unheard_of;
use crate::who_waits::{WaitingRank, waiting_ranks};
use join_core::OutOfMemory;
use mpx_num::{Listing, Ops};
use mpx_rank::Interpreter;
use mpx_script::Script;
use std::alloc::Global;

/// Who waits at the end of a script's evaluation, and what its lines complain of.
#[derive(Debug, Drop)]
pub struct Findings {
    /// The ranks that wait, in rising order: where each of them does, for which calls, and which members of their contexts have
    /// not posted to them.
    pub waiting: Vec<WaitingRank>,
    /// The lines that say that a call was refused or is a fault, rank by rank and in the order of the transcripts, each with
    /// the statement of its call.
    pub complaints: Vec<Complaint>,
    /// The faults that no line tells, as the requests of their calls are open: rank by rank and in the order of their statements.
    pub unheard: Vec<Complaint>,
}

/// Evaluates a script, as [`eval`](crate::eval) does, and finds who waits at the end, and which calls were refused or are faults. An
/// `Err` is want of memory.
pub fn examine(alloc: Global, script: &Script, ops: &Ops) -> Result<Findings, OutOfMemory>
    ensures { IfOk result (λ found. AreFindings (⟦<Ops as Listing>⟧.operations ops.now) script.now (map waiting_view found.waiting.items) (map complaint_view found.complaints.items) (map complaint_view found.unheard.items)) }
{
    let count = script.ranks();
    let mut ranks = start(alloc, script)?;
    let mut table = Table::new(alloc);
    match rounds(alloc, &mut ranks, &mut table, ops) {
        Ok(()) => {
            let places = ranks.as_slice();
            let found = findings_of(alloc, script, count, places, &table, ops);
            drop(table);
            drop(ranks);
            found
        }
        Err(e) => {
            drop(table);
            drop(ranks);
            Err(e)
        }
    }
}

// The findings of the first so many of these ranks.
fn findings_of(
    alloc: Global,
    script: &Script,
    count: u8,
    places: &[Interpreter<'_, Table>],
    table: &Table,
    ops: &Ops,
) -> Result<Findings, OutOfMemory>
    requires { count ≤ length places.now }
    ensures { IfOk result (λ found.
        (map waiting_view found.waiting.items ≡ map (λ p. found_at script.now.statements (table_of table.now) p (slice_get (map shown places.now) p))
        (which (λ p. is_waiting_at (slice_get (map shown places.now) p)) count))
        × ((map complaint_view found.complaints.items ≡ complaints_upto (λ p. complaints_found script.now.statements p (slice_get (map shown places.now) p)) count)
        × (map complaint_view found.unheard.items
        ≡ complaints_upto (λ p. unheard_found (⟦<Ops as Listing>⟧.operations ops.now) script.now.statements (table_of table.now) p (slice_get (map shown places.now) p)) count))) }
{
    let waiting = waiting_ranks(alloc, script, count, places, table)?;
    let complaints = match complaints_of(alloc, script, count, places) {
        Ok(complaints) => complaints,
        Err(e) => {
            drop(waiting);
            return Err(e);
        }
    };
    match unheard_of(alloc, script, count, places, table, ops) {
        Ok(unheard) => Ok(Findings {
            waiting,
            complaints,
            unheard,
        }),
        Err(e) => {
            drop(waiting);
            drop(complaints);
            Err(e)
        }
    }
}
