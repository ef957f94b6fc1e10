//! The lines of ranks that say that a call was refused or is a fault, and the statements of these calls.
ghost use Rattle.std.specs.Prelude.{◌≡◌, ◌≤◌, ◌++◌, IfOk, None, OnOk, Some, bytes_eq, cond, false, length, map, slice_get};
ghost use Rattle.std.specs.Option.{option_map_or};
ghost use Rattle.mpx_statement.specs.Statements.{request_of};
ghost use Rattle.mpx_meaning.specs.declared.line.Line.TheVariants.{Told};
ghost use Rattle.mpx_eval.specs.Carrying.{shown};
ghost use Rattle.mpx_eval.specs.Complaints.{call_at, complaint_in, complaints_at, complaints_upto, is_complaint, is_fault, started_at};
ghost use Rattle.mpx_eval.specs.Found.{complaint_view, complaints_found};

use crate::table::Table;
use join_core::{Exact, OutOfMemory};
use mpx_meaning::{Line, Origin};
use mpx_name::Name;
use mpx_rank::Interpreter;
use mpx_script::{Script, Statement};
use mpx_value::Outcome;
use std::alloc::Global;

/// A line of a rank's transcript that says that a call was refused, or that it is a fault.
#[derive(Debug, Drop)]
pub struct Complaint {
    pub rank: u8,
    /// The place, from 0 on, of the call's statement among the rank's statements.
    pub statement: usize,
    pub line: Line,
}

/// Those of the first so many of these ranks, rank by rank, and of each in the order of its lines.
pub(crate) fn complaints_of(
    alloc: Global,
    script: &Script,
    count: u8,
    places: &[Interpreter<'_, Table>],
) -> Result<Vec<Complaint>, OutOfMemory>
    requires { count ≤ length places.now }
    ensures { IfOk result (λ found. map complaint_view found.items ≡ complaints_upto (λ p. complaints_found script.now.statements p (slice_get (map shown places.now) p)) count) }
{
    let mut found = Vec::new(alloc);
    for p in 0..count {
        push_of_rank(alloc, script, p, &places[p as usize], &mut found)?;
    }
    Ok(found)
}

// Adds those of a rank.
fn push_of_rank(
    alloc: Global,
    script: &Script,
    rank: u8,
    place: &Interpreter<'_, Table>,
    found: &mut Vec<Complaint>,
) -> Result<(), OutOfMemory>
    ensures { OnOk result (map complaint_view found.new.items ≡ map complaint_view found.old.items ++ complaints_found script.now.statements rank (Some (shown place.now))) }
{
    let statements = script.statements(rank);
    push_complaints(
        alloc,
        rank,
        statements,
        place.lines(),
        place.origins(),
        found,
    )
}

// Adds those of a rank with these statements and lines.
fn push_complaints(
    alloc: Global,
    rank: u8,
    statements: &[Statement],
    lines: &[Line],
    origins: &[Origin],
    found: &mut Vec<Complaint>,
) -> Result<(), OutOfMemory>
    ensures { OnOk result (map complaint_view found.new.items ≡ map complaint_view found.old.items ++ complaints_at rank statements.now lines.now origins.now) }
{
    let mut rest = origins;
    for line in lines {
        let Some((origin, more)) = rest.split_first() else {
            return Ok(());
        };
        push_complaint(alloc, rank, statements, line, *origin, found)?;
        rest = more;
    }
    Ok(())
}

// Adds a line, if it is one.
fn push_complaint(
    alloc: Global,
    rank: u8,
    statements: &[Statement],
    line: &Line,
    origin: Origin,
    found: &mut Vec<Complaint>,
) -> Result<(), OutOfMemory>
    ensures { OnOk result (map complaint_view found.new.items ≡ map complaint_view found.old.items ++ complaint_in rank statements.now (line.now, origin)) }
{
    let Some(line) = complaint_of(alloc, line)? else {
        return Ok(());
    };
    let statement = call_at(statements, origin);
    found.push(Complaint {
        rank,
        statement,
        line,
    })?;
    Ok(())
}

// The line once more, where it says that a call was refused, or that it is a fault.
fn complaint_of(alloc: Global, line: &Line) -> Result<Option<Line>, OutOfMemory>
    ensures { IfOk result (λ found. found ≡ cond (is_complaint line.now) (Some line.now) None) }
{
    match line {
        Line::Told {
            name,
            call,
            outcome,
        } => fault_line(alloc, name, *call, outcome),
        Line::Refused(refusal) => Ok(Some(Line::Refused(*refusal))),
        Line::StrayRank => Ok(Some(Line::StrayRank)),
        Line::Idle => Ok(None),
        Line::Near { .. } => Ok(None),
        Line::Compared(_) => Ok(None),
        Line::Translated(_) => Ok(None),
    }
}

/// The line that tells the outcome of a call, where it is a fault.
pub(crate) fn fault_line(
    alloc: Global,
    name: &Name,
    call: u32,
    outcome: &Outcome,
) -> Result<Option<Line>, OutOfMemory>
    ensures { IfOk result (λ line. line ≡ cond (is_fault outcome.now) (Some (Told name.now call outcome.now)) None) }
{
    match outcome {
        Outcome::Fault(fault) => Ok(Some(Line::Told {
            name: name.copy(alloc)?,
            call,
            outcome: Outcome::Fault(*fault),
        })),
        Outcome::Nothing => Ok(None),
        Outcome::Absent => Ok(None),
        Outcome::Items(_) => Ok(None),
        Outcome::NewComm { .. } => Ok(None),
        Outcome::Null => Ok(None),
    }
}

// The place of the statement of the call that a line tells of.
fn call_at(statements: &[Statement], origin: Origin) -> usize
    ensures { result ≡ call_at statements.now origin }
{
    let place = statements.len().saturating_sub(origin.left);
    match statements.get(place) {
        Some(Statement::Wait(words)) => match words.as_slice().get(origin.nth) {
            Some(request) => started_at(statements, request.as_bytes()),
            None => place,
        },
        Some(Statement::Post(_) | Statement::Ask(_)) | None => place,
    }
}

/// The place, from 0 on, of the statement that starts this request; how many statements there are where none does.
pub fn started_at(statements: &[Statement], request: &[u8]) -> usize
    ensures { result ≡ started_at statements.now request.now }
{
    statements
        .iter()
        .take_while(|statement| !starts(statement, request))
        .count()
}

// Whether a statement starts this request.
fn starts(statement: &Statement, request: &[u8]) -> bool
    ensures { result ≡ option_map_or (λ word. bytes_eq word request.now) (request_of statement.now) false }
{
    match statement.request() {
        Some(word) => word.as_bytes() == request,
        None => false,
    }
}
