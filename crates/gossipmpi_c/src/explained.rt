//! What is explained of a script. No other file of this crate names `mpx_waiting` or `mpx_explain`.
ghost use Rattle.std.specs.Prelude.{◌≡◌, Err, IfOk, Ok, map};
ghost use Rattle.mpx_eval.specs.Found.{complaint_view, waiting_view};
ghost use Rattle.mpx_script.specs.Reading.{reading};
ghost use Rattle.gossipmpi_c.specs.Answers.{IsExplainedTo};
ghost use Rattle.gossipmpi_c.specs.Explained.{AreLines, AreRefusedLines};

use crate::answer::{Answer, End, end_of_found, starved};
use join_core::OutOfMemory;
use mpx_eval::{Findings, examine};
use mpx_explain::{explain_calls, explain_refusals, explain_results, explain_unheard};
use mpx_num::{Listing, Ops};
use mpx_script::{ReadScriptError, Script, ScriptError, read_script};
use mpx_waiting::push_waiting;
use std::alloc::Global;

/// Who waits at the end of the script's evaluation, and what is wrong there; or which lines of the script are refused.
pub(crate) fn explained(alloc: Global, text: &[u8], ops: &Ops) -> Answer
    ensures { IsExplainedTo (⟦<Ops as Listing>⟧.operations ops.now) text.now result.end result.text.items }
{
    match read_script(alloc, text, ops) {
        Ok(script) => of_script(alloc, text, &script, ops),
        Err(ReadScriptError::Refused(refusal)) => of_refusal(alloc, text, refusal, ops),
        Err(ReadScriptError::OutOfMemory) => starved(alloc),
    }
}

// The same of a script that is read.
fn of_script(alloc: Global, text: &[u8], script: &Script, ops: &Ops) -> Answer
    requires { reading (⟦<Ops as Listing>⟧.operations ops.now) text.now ≡ Ok script.now }
    ensures { IsExplainedTo (⟦<Ops as Listing>⟧.operations ops.now) text.now result.end result.text.items }
{
    let Ok(found) = examine(alloc, script, ops) else {
        return starved(alloc);
    };
    let Ok(lines) = lines_of(alloc, text, script, &found) else {
        return starved(alloc);
    };
    Answer {
        end: end_of_found(found.waiting.as_slice()),
        text: lines,
    }
}

// The lines of what is found.
fn lines_of(
    alloc: Global,
    text: &[u8],
    script: &Script,
    found: &Findings,
) -> Result<Vec<u8>, OutOfMemory>
    ensures { IfOk result (λ lines. AreLines text.now script.now.statements (map waiting_view found.now.waiting.items) (map complaint_view found.now.complaints.items) (map complaint_view found.now.unheard.items) lines.items) }
{
    let mut lines = Vec::new(alloc);
    let waiting = found.waiting.as_slice();
    push_waiting(alloc, text, script, waiting, &mut lines)?;
    explain_calls(alloc, text, script, &found.complaints, &mut lines)?;
    explain_unheard(alloc, text, script, &found.unheard, waiting, &mut lines)?;
    explain_results(alloc, text, script, found, &mut lines)?;
    Ok(lines)
}

// The same of one that is refused.
fn of_refusal(alloc: Global, text: &[u8], refusal: ScriptError, ops: &Ops) -> Answer
    requires { reading (⟦<Ops as Listing>⟧.operations ops.now) text.now ≡ Err refusal }
    ensures { IsExplainedTo (⟦<Ops as Listing>⟧.operations ops.now) text.now result.end result.text.items }
{
    match refused_lines(alloc, text, refusal, ops) {
        Ok(lines) => Answer {
            end: End::Refused,
            text: lines,
        },
        Err(OutOfMemory) => starved(alloc),
    }
}

// The refused lines, of which the first is refused so.
fn refused_lines(
    alloc: Global,
    text: &[u8],
    refusal: ScriptError,
    ops: &Ops,
) -> Result<Vec<u8>, OutOfMemory>
    ensures { IfOk result (λ lines. AreRefusedLines (⟦<Ops as Listing>⟧.operations ops.now) text.now refusal lines.items) }
{
    let first = format!(in alloc; "{refusal}\n")?;
    let mut lines = first.into_bytes();
    explain_refusals(alloc, text, ops, &mut lines)?;
    Ok(lines)
}
