//! Why a call was refused or is a fault, as it stands behind its line. Nothing is claimed of it.

use crate::faults::push_minority;
use crate::given::{Refusal, push_given};
use crate::size::push_value;
use join_core::OutOfMemory;
use mpx_eval::{Complaint, WaitingRank};
use mpx_meaning::Line;
use mpx_script::{Script, Statement};
use mpx_value::Outcome;
use mpx_waiting::line_at;
use std::alloc::Global;

/// What calls are told with: a script and its text, all calls that are told, and which ranks wait, where no transcript tells the calls.
#[derive(Clone, Copy, Drop)]
pub(crate) struct Telling<'s> {
    pub(crate) text: &'s [u8],
    pub(crate) script: &'s Script,
    pub(crate) calls: &'s [Complaint],
    pub(crate) waiting: Option<&'s [WaitingRank]>,
}

/// What its statement gives, or who gives something else at a fault, where that can be told. Where no transcript tells it, behind that whether
/// its rank has waited for it. The rank's statements have these lines.
pub(crate) fn why_of(
    alloc: Global,
    telling: &Telling<'_>,
    numbers: &[u32],
    call: &Complaint,
) -> Result<String, OutOfMemory> {
    let mut why = String::new(alloc);
    push_more(alloc, telling, numbers, call, &mut why)?;
    if let Some(waiting) = telling.waiting {
        push_unheard(telling.script, numbers, call, waiting, &mut why)?;
    }
    Ok(why)
}

fn push_more(
    alloc: Global,
    telling: &Telling<'_>,
    numbers: &[u32],
    call: &Complaint,
    why: &mut String,
) -> Result<(), OutOfMemory> {
    let mut more = String::new(alloc);
    push_reason(alloc, telling, numbers, call, &mut more)?;
    if !more.is_empty() {
        why.push_str(": ")?;
        why.push_str(more.as_str())?;
    }
    Ok(())
}

// Adds what a call's statement gives, or who gives something else at a fault, to an empty text.
fn push_reason(
    alloc: Global,
    telling: &Telling<'_>,
    numbers: &[u32],
    call: &Complaint,
    told: &mut String,
) -> Result<(), OutOfMemory> {
    let refusal = match &call.line {
        Line::Told {
            outcome: Outcome::Fault(fault),
            ..
        } => {
            return push_minority(alloc, telling, call, *fault, told);
        }
        Line::Refused(refusal) => Refusal::Post(*refusal),
        Line::StrayRank => Refusal::StrayRank,
        _ => return Ok(()),
    };
    let line = line_at(numbers, call.statement);
    push_given(telling.text, line, telling.script, call, refusal, told)
}

// Adds that the rank of a call whose fault no line tells has not waited for it, or at which line it does.
fn push_unheard(
    script: &Script,
    numbers: &[u32],
    call: &Complaint,
    waiting: &[WaitingRank],
    why: &mut String,
) -> Result<(), OutOfMemory> {
    match waits_at(script, call, waiting) {
        Some(place) => {
            let line = line_at(numbers, place);
            push_value(
                " (line ",
                i128::from(line),
                " waits for it, and for others)",
                why,
            )
        }
        None => push_value(
            " (rank ",
            i128::from(call.rank),
            " has not waited for it)",
            why,
        ),
    }
}

// The place of the wait at which the call's rank is, where it is one for the call too.
fn waits_at(script: &Script, call: &Complaint, waiting: &[WaitingRank]) -> Option<usize> {
    let place = waiting.iter().find(|one| one.rank == call.rank)?.statement;
    let statements = script.statements(call.rank);
    let request = statements.get(call.statement)?.request()?;
    match statements.get(place)? {
        Statement::Wait(words) if words.as_slice().contains(request) => Some(place),
        _ => None,
    }
}
