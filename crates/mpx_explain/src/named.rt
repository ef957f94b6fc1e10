//! Calls that are named: each with its rank, the line of its statement, what the transcript says of it, and why.
ghost use Rattle.std.specs.Prelude.{◌≡◌, ◌++◌, ◌∷◌, [], IfOk, OnOk, map, take};
ghost use Rattle.std.specs.List.{flat_map};
ghost use Rattle.mpx_eval.specs.Found.{complaint_view};
ghost use Rattle.mpx_explain.specs.Findings.{named_text, named_view, placed_call, placed_at};

use crate::reasons::{Telling, why_of};
use join_core::OutOfMemory;
use mpx_eval::{Complaint, WaitingRank};
use mpx_script::Script;
use mpx_waiting::{line_at, lines_now, lines_of, push_start};
use std::alloc::Global;

/// A call that was refused or is a fault.
#[derive(Drop)]
pub(crate) struct NamedCall {
    pub(crate) rank: u8,
    /// The line of its statement in the script.
    pub(crate) line: u32,
    /// What the transcript says of it.
    pub(crate) text: String,
    /// What stands behind that: why, perhaps.
    pub(crate) why: String,
}

// More calls than these are not named.
const MOST_CALLS: usize = 100;

/// The first hundred of these calls, be it that no transcript tells them where these ranks wait.
pub(crate) fn named_calls(
    alloc: Global,
    text: &[u8],
    script: &Script,
    calls: &[Complaint],
    waiting: Option<&[WaitingRank]>,
) -> Result<Vec<NamedCall>, OutOfMemory>
    ensures { IfOk result (λ named. map named_view named.items ≡ map (placed_call text.now) (map complaint_view (take 100 calls.now))) }
{
    let mut named = Vec::new(alloc);
    match push_first(alloc, text, script, calls, waiting, &mut named) {
        Ok(()) => Ok(named),
        Err(e) => {
            drop(named);
            Err(e)
        }
    }
}

// Names the first hundred of these calls, behind none.
fn push_first(
    alloc: Global,
    text: &[u8],
    script: &Script,
    calls: &[Complaint],
    waiting: Option<&[WaitingRank]>,
    named: &mut Vec<NamedCall>,
) -> Result<(), OutOfMemory>
    requires { named.old.items ≡ [] }
    ensures { OnOk result (map named_view named.new.items ≡ map (placed_call text.now) (map complaint_view (take 100 calls.now))) }
{
    let Some(first) = calls.first() else {
        return Ok(());
    };
    let telling = Telling {
        text,
        script,
        calls,
        waiting,
    };
    let mut lines = lines_of(alloc, text, first.rank)?;
    let some = first_of(calls, MOST_CALLS);
    for call in some {
        lines = lines_now(alloc, text, call.rank, lines)?;
        push_named(alloc, &telling, lines.numbers.as_slice(), call, named)?;
    }
    Ok(())
}

// The first so many of these.
fn first_of(calls: &[Complaint], most: usize) -> &[Complaint]
    ensures { result.now ≡ take most calls.now }
{
    if most < calls.len() {
        &calls[..most]
    } else {
        calls
    }
}

// Names one of a rank whose statements have these lines.
fn push_named(
    alloc: Global,
    telling: &Telling<'_>,
    numbers: &[u32],
    call: &Complaint,
    named: &mut Vec<NamedCall>,
) -> Result<(), OutOfMemory>
    ensures { OnOk result (map named_view named.new.items ≡ map named_view named.old.items ++ placed_at numbers.now (complaint_view call.now) ∷ []) }
{
    let why = why_of(alloc, telling, numbers, call)?;
    named.push(with_why(alloc, numbers, call, why)?)?;
    Ok(())
}

// A call with the reason behind it.
fn with_why(
    alloc: Global,
    numbers: &[u32],
    call: &Complaint,
    why: String,
) -> Result<NamedCall, OutOfMemory>
    ensures { IfOk result (λ named. named_view named ≡ placed_at numbers.now (complaint_view call.now)) }
{
    match call.line.text(alloc) {
        Ok(text) => Ok(NamedCall {
            rank: call.rank,
            line: line_at(numbers, call.statement),
            text,
            why,
        }),
        Err(_) => {
            drop(why);
            Err(OutOfMemory)
        }
    }
}

/// Adds the line of each.
pub(crate) fn push_lines(
    alloc: Global,
    named: &[NamedCall],
    told: &mut Vec<u8>,
) -> Result<(), OutOfMemory>
    ensures { OnOk result (told.new.items ≡ told.old.items ++ flat_map named_text named.now) }
{
    for call in named {
        push_line(alloc, call, told)?;
    }
    Ok(())
}

fn push_line(alloc: Global, call: &NamedCall, told: &mut Vec<u8>) -> Result<(), OutOfMemory>
    ensures { OnOk result (told.new.items ≡ told.old.items ++ named_text call.now) }
{
    push_start(alloc, call.rank, call.line, told)?;
    told.extend_from_slice(call.text.as_bytes())?;
    told.extend_from_slice(call.why.as_bytes())?;
    told.extend_from_slice(b"\n")?;
    Ok(())
}
