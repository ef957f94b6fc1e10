//! Faults of calls whose requests are open at the end of an evaluation: nobody has waited for them to the end, so no line tells of them.
ghost use Rattle.std.specs.Prelude.{◌≡◌, ◌≤◌, ◌++◌, IfOk, OnOk, Some, length, map, option_and_then, option_map, slice_get};
ghost use Rattle.std.specs.Option.{option_copied};
ghost use Rattle.mpx_meaning.specs.Standing.{looked_up};
ghost use Rattle.mpx_meaning.specs.Transcripts.{line_text};
ghost use Rattle.mpx_statement.specs.Statements.{request_of};
ghost use Rattle.mpx_eval.specs.Carrying.{shown};
ghost use Rattle.mpx_eval.specs.Complaints.{complaints_upto};
ghost use Rattle.mpx_eval.specs.Found.{complaint_view};
ghost use Rattle.mpx_eval.specs.Tables.{answer_on, table_of};
ghost use Rattle.mpx_eval.specs.Unheard.{answer_at, fault_of, unheard_at, unheard_found, unheard_from};

use crate::complaints::{Complaint, fault_line};
use crate::table::Table;
use join_core::{Exact, OutOfMemory};
use mpx_group::Proc;
use mpx_meaning::Line;
use mpx_name::Name;
use mpx_num::{Listing, Ops};
use mpx_rank::{Answered, Interpreter};
use mpx_script::Script;
use mpx_statement::{Statement, Word};
use std::alloc::Global;
use std::collections::BTreeMap;

/// Those of the first so many of these ranks, rank by rank, and of each in the order of its statements.
pub(crate) fn unheard_of(
    alloc: Global,
    script: &Script,
    count: u8,
    places: &[Interpreter<'_, Table>],
    table: &Table,
    ops: &Ops,
) -> Result<Vec<Complaint>, OutOfMemory>
    requires { count ≤ length places.now }
    ensures { IfOk result (λ found. map complaint_view found.items
        ≡ complaints_upto (λ p. unheard_found (⟦<Ops as Listing>⟧.operations ops.now) script.now.statements (table_of table.now) p (slice_get (map shown places.now) p)) count) }
{
    let mut found = Vec::new(alloc);
    for p in 0..count {
        push_of_rank(
            alloc,
            script,
            p,
            &places[p as usize],
            table,
            &mut found,
            ops,
        )?;
    }
    Ok(found)
}

// Adds those of a rank.
fn push_of_rank(
    alloc: Global,
    script: &Script,
    rank: u8,
    place: &Interpreter<'_, Table>,
    table: &Table,
    found: &mut Vec<Complaint>,
    ops: &Ops,
) -> Result<(), OutOfMemory>
    ensures { OnOk result (map complaint_view found.new.items ≡ map complaint_view found.old.items
        ++ unheard_found (⟦<Ops as Listing>⟧.operations ops.now) script.now.statements (table_of table.now) rank (Some (shown place.now))) }
{
    let statements = script.statements(rank);
    push_unheard(
        alloc,
        rank,
        statements,
        place.me(),
        place.requests(),
        table,
        found,
        ops,
    )
}

// Adds those of a rank with these statements and open requests.
fn push_unheard(
    alloc: Global,
    rank: u8,
    statements: &[Statement],
    me: Proc,
    requests: &BTreeMap<Word, (Name, u32)>,
    table: &Table,
    found: &mut Vec<Complaint>,
    ops: &Ops,
) -> Result<(), OutOfMemory>
    ensures { OnOk result (map complaint_view found.new.items ≡ map complaint_view found.old.items
        ++ unheard_from rank (looked_up requests.now) (answer_on (⟦<Ops as Listing>⟧.operations ops.now) (table_of table.now) me) 0 statements.now) }
{
    for place in 0..statements.len() {
        push_at(
            alloc,
            rank,
            place,
            &statements[place],
            me,
            requests,
            table,
            found,
            ops,
        )?;
    }
    Ok(())
}

// Adds that of a statement, where it has one.
fn push_at(
    alloc: Global,
    rank: u8,
    place: usize,
    statement: &Statement,
    me: Proc,
    requests: &BTreeMap<Word, (Name, u32)>,
    table: &Table,
    found: &mut Vec<Complaint>,
    ops: &Ops,
) -> Result<(), OutOfMemory>
    ensures { OnOk result (map complaint_view found.new.items ≡ map complaint_view found.old.items
        ++ unheard_at rank (looked_up requests.now) (answer_on (⟦<Ops as Listing>⟧.operations ops.now) (table_of table.now) me) place statement.now) }
{
    let Some(line) = fault_at(alloc, statement, me, requests, table, ops)? else {
        return Ok(());
    };
    found.push(Complaint {
        rank,
        statement: place,
        line,
    })?;
    Ok(())
}

// The line that would tell the outcome of the request that a statement starts, where the request is open and it is a fault.
fn fault_at(
    alloc: Global,
    statement: &Statement,
    me: Proc,
    requests: &BTreeMap<Word, (Name, u32)>,
    table: &Table,
    ops: &Ops,
) -> Result<Option<Line>, OutOfMemory>
    ensures { IfOk result (λ line. option_map line_text line
        ≡ fault_of (answer_at (answer_on (⟦<Ops as Listing>⟧.operations ops.now) (table_of table.now) me) (option_and_then (looked_up requests.now) (request_of statement.now)))) }
{
    let Some((name, call)) = open_call(statement, requests) else {
        return Ok(None);
    };
    match table.answer(alloc, me, name, *call, ops)? {
        Some(answered) => {
            let Answered { outcome, born } = answered;
            drop(born);
            fault_line(alloc, name, *call, &outcome)
        }
        None => Ok(None),
    }
}

// The call of the request that a statement starts, where it is open.
fn open_call<'m>(
    statement: &Statement,
    requests: &'m BTreeMap<Word, (Name, u32)>,
) -> Option<&'m (Name, u32)>
    ensures { option_copied result ≡ option_and_then (looked_up requests.now) (request_of statement.now) }
{
    match statement.request() {
        Some(word) => requests.get(word),
        None => None,
    }
}
