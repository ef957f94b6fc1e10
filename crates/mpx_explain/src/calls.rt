//! The lines of calls that were refused or are faults.
ghost use Rattle.std.specs.Prelude.{◌≡◌, ◌-◌, ◌++◌, OnOk, map};
ghost use Rattle.std.specs.List.{flat_map};
ghost use Rattle.mpx_eval.specs.Found.{complaint_view};
ghost use Rattle.mpx_waiting.specs.ToldLines.{more_text};
ghost use Rattle.mpx_explain.specs.Findings.{AreTold, named_text};

use crate::named::{NamedCall, named_calls, push_lines};
use join_core::OutOfMemory;
use mpx_eval::{Complaint, WaitingRank};
use mpx_script::Script;
use mpx_waiting::push_more;
use std::alloc::Global;

/// Adds a line for each of these calls, at most a hundred: `rank R, line L: TEXT`, and behind it what its statement gives, or who gives
/// something else at a fault, where that can be told. An `Err` is want of memory, and leaves the lines so far.
pub fn explain_calls(
    alloc: Global,
    text: &[u8],
    script: &Script,
    calls: &[Complaint],
    told: &mut Vec<u8>,
) -> Result<(), OutOfMemory>
    ensures { OnOk result (AreTold text.now (map complaint_view calls.now) told.old.items told.new.items) }
{
    push_calls(alloc, text, script, calls, None, told)
}

/// The same of faults that stand in no transcript, as the requests of their calls are open where these ranks wait: behind each stands that
/// its rank has not waited for it, or at which line it does, and for others.
pub fn explain_unheard(
    alloc: Global,
    text: &[u8],
    script: &Script,
    calls: &[Complaint],
    waiting: &[WaitingRank],
    told: &mut Vec<u8>,
) -> Result<(), OutOfMemory>
    ensures { OnOk result (AreTold text.now (map complaint_view calls.now) told.old.items told.new.items) }
{
    push_calls(alloc, text, script, calls, Some(waiting), told)
}

// Adds the lines of these calls, be it that no transcript tells them where these ranks wait.
fn push_calls(
    alloc: Global,
    text: &[u8],
    script: &Script,
    calls: &[Complaint],
    waiting: Option<&[WaitingRank]>,
    told: &mut Vec<u8>,
) -> Result<(), OutOfMemory>
    ensures { OnOk result (AreTold text.now (map complaint_view calls.now) told.old.items told.new.items) }
{
    let named = named_calls(alloc, text, script, calls, waiting)?;
    let pushed = push_all(alloc, named.as_slice(), calls.len(), told);
    drop(named);
    pushed
}

// Adds the lines of these, and of so many calls how many more there are than a hundred.
fn push_all(
    alloc: Global,
    named: &[NamedCall],
    many: usize,
    told: &mut Vec<u8>,
) -> Result<(), OutOfMemory>
    ensures { OnOk result (told.new.items ≡ (told.old.items ++ flat_map named_text named.now) ++ more_text (many - 100)) }
{
    push_lines(alloc, named, told)?;
    push_more(alloc, (many as u128).saturating_sub(100), told)
}
