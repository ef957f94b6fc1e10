//! A script's evaluation, and whether it can be read.
ghost use Rattle.gossipmpi_c.specs.Answers.{IsCheckedTo, IsEvaluatedTo};

use crate::answer::{Answer, End, end_of, refused, starved};
use crate::texts::text_of;
use mpx_eval::eval;
use mpx_num::{Listing, Ops};
use mpx_script::{ReadScriptError, read_script};
use std::alloc::Global;

/// The lines of the script's evaluation.
pub(crate) fn evaluated(alloc: Global, text: &[u8], ops: &Ops) -> Answer
    ensures { IsEvaluatedTo (⟦<Ops as Listing>⟧.operations ops.now) text.now result.end result.text.items }
{
    let script = match read_script(alloc, text, ops) {
        Ok(script) => script,
        Err(ReadScriptError::Refused(refusal)) => return refused(alloc, refusal),
        Err(ReadScriptError::OutOfMemory) => return starved(alloc),
    };
    let Ok(report) = eval(alloc, &script, ops) else {
        return starved(alloc);
    };
    let Ok(lines) = text_of(alloc, &report, script.ranks()) else {
        return starved(alloc);
    };
    Answer {
        end: end_of(report.waiting.as_slice()),
        text: lines.into_bytes(),
    }
}

/// Whether the script can be read.
pub(crate) fn checked(alloc: Global, text: &[u8], ops: &Ops) -> Answer
    ensures { IsCheckedTo (⟦<Ops as Listing>⟧.operations ops.now) text.now result.end result.text.items }
{
    match read_script(alloc, text, ops) {
        Ok(_script) => Answer {
            end: End::Finished,
            text: Vec::new(alloc),
        },
        Err(ReadScriptError::Refused(refusal)) => refused(alloc, refusal),
        Err(ReadScriptError::OutOfMemory) => starved(alloc),
    }
}
