//! Who waits at the end of a script's evaluation, and for whose posts.
ghost use Rattle.std.specs.Prelude.{◌≡◌, ◌≤◌, ◌++◌, ◌∷◌, [], IfOk, List, OnOk, Some, cond, length, map, slice_get};
ghost use Rattle.mpx_num.specs.declared.own.Operation.{Operation};
ghost use Rattle.mpx_meaning.specs.Ranks.{Local, next};
ghost use Rattle.mpx_meaning.specs.Reports.{which};
ghost use Rattle.mpx_rank.specs.Moves.{is_waiting};
ghost use Rattle.mpx_eval.specs.Rounds.{is_waiting_at};
ghost use Rattle.mpx_eval.specs.Carrying.{shown};
ghost use Rattle.mpx_eval.specs.Tables.{table_of};
ghost use Rattle.mpx_eval.specs.Waiting.{asked, calls_of};
ghost use Rattle.mpx_eval.specs.Found.{found_at, waiting_view};

use crate::missing::{MissingCall, missing_calls};
use crate::table::Table;
use join_core::OutOfMemory;
use mpx_rank::Interpreter;
use mpx_script::Script;
use std::alloc::Global;

/// A rank that waits at the end of a script's evaluation.
#[derive(Debug, Drop)]
pub struct WaitingRank {
    pub rank: u8,
    /// The place, from 0 on, of the statement at which it waits among its statements.
    pub statement: usize,
    /// The calls whose outcomes it waits for.
    pub calls: Vec<MissingCall>,
}

/// The calls that [`examine`](crate::examine) looks at where a rank waits are those that the rank's next move asks for.
pub fn waits_are_for_what_the_next_move_asks()
    ensures { (ops : List Operation) (s : Local) → map (λ a. a.1) (asked s) ≡ calls_of (next ops s) }
{}

/// The ranks that wait among the first so many of these, in rising order: where each of them does, for which calls, and which
/// members of their contexts have not posted to them.
pub(crate) fn waiting_ranks(
    alloc: Global,
    script: &Script,
    count: u8,
    places: &[Interpreter<'_, Table>],
    table: &Table,
) -> Result<Vec<WaitingRank>, OutOfMemory>
    requires { count ≤ length places.now }
    ensures { IfOk result (λ found. map waiting_view found.items ≡ map (λ p. found_at script.now.statements (table_of table.now) p (slice_get (map shown places.now) p))
        (which (λ p. is_waiting_at (slice_get (map shown places.now) p)) count)) }
{
    let mut found = Vec::new(alloc);
    for p in 0..count {
        push_found(alloc, script, p, &places[p as usize], table, &mut found)?;
    }
    Ok(found)
}

// Adds a rank, where it waits.
fn push_found(
    alloc: Global,
    script: &Script,
    rank: u8,
    place: &Interpreter<'_, Table>,
    table: &Table,
    found: &mut Vec<WaitingRank>,
) -> Result<(), OutOfMemory>
    ensures { OnOk result (map waiting_view found.new.items ≡ map waiting_view found.old.items
        ++ cond (is_waiting (shown place.now)) (found_at script.now.statements (table_of table.now) rank (Some (shown place.now)) ∷ []) []) }
{
    if !place.is_waiting() {
        return Ok(());
    }
    found.push(found_at(alloc, script, rank, place, table)?)?;
    Ok(())
}

// Where a rank waits, and for what.
fn found_at(
    alloc: Global,
    script: &Script,
    rank: u8,
    place: &Interpreter<'_, Table>,
    table: &Table,
) -> Result<WaitingRank, OutOfMemory>
    ensures { IfOk result (λ waiting. waiting_view waiting ≡ found_at script.now.statements (table_of table.now) rank (Some (shown place.now))) }
{
    let calls = missing_calls(alloc, table, place)?;
    let statement = script.statements(rank).len().saturating_sub(place.left());
    Ok(WaitingRank {
        rank,
        statement,
        calls,
    })
}
