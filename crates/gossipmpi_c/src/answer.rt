//! An answer: an end and a text, by what is asked of a script.
ghost use Rattle.std.specs.Prelude.{◌≡◌, [], IfOk, map, string_bytes};
ghost use Rattle.mpx_eval.specs.Found.{waiting_view};
ghost use Rattle.mpx_script.specs.Faults.{error_text};
ghost use Rattle.gossipmpi_c.specs.Answers.{Comes, EndsSo, IsRefusedBy, own_operations, status_of};

use crate::evaluated::{checked, evaluated};
use crate::explained::explained;
use join_core::OutOfMemory;
use mpx_affine::Affine;
use mpx_eval::WaitingRank;
use mpx_num::{Listing, Ops, OwnOp};
use mpx_script::ScriptError;
use std::alloc::Global;
use std::fmt::Write;

/// What is asked of a script.
#[derive(Clone, Copy, PartialEq, Eq, Debug)]
pub(crate) enum Asked {
    /// The lines of its evaluation.
    Evaluation,
    /// Whether it can be read.
    Reading,
    /// Who waits, and what is wrong.
    Explanation,
}

/// How an answer ends.
#[derive(Clone, Copy, PartialEq, Eq, Debug)]
pub(crate) enum End {
    /// All ranks have finished.
    Finished,
    /// Ranks wait.
    Waiting,
    /// The script can't be read.
    Refused,
    /// Out of memory.
    Memory,
}

impl End {
    /// Its status in C: as the exit status of the program.
    pub(crate) fn status(self) -> u8
        ensures { result ≡ status_of self }
    {
        match self {
            End::Finished => 0,
            End::Refused => 2,
            End::Waiting => 3,
            End::Memory => 4,
        }
    }
}

/// An end and a text.
#[derive(Drop)]
pub(crate) struct Answer {
    pub(crate) end: End,
    pub(crate) text: Vec<u8>,
}

/// What is asked of the script with this text, which may name the operation `affine`.
pub(crate) fn answered(alloc: Global, text: &[u8], asked: Asked) -> Answer
    ensures { Comes asked own_operations text.now result.end result.text.items }
{
    let mut list: Vec<Box<dyn OwnOp + Send + Sync + Drop>> = Vec::new(alloc);
    let Ok(affine) = Box::new(alloc, Affine::of_programs()) else {
        return starved(alloc);
    };
    if list.push(affine).is_err() {
        return starved(alloc);
    }
    let Ok(ops) = Ops::new(list) else {
        return starved(alloc);
    };
    answered_by(alloc, text, asked, &ops)
}

// The same by these operations.
fn answered_by(alloc: Global, text: &[u8], asked: Asked, ops: &Ops) -> Answer
    requires own { ⟦<Ops as Listing>⟧.operations ops.now ≡ own_operations }
    ensures { Comes asked own_operations text.now result.end result.text.items }
{
    match asked {
        Asked::Evaluation => evaluated(alloc, text, ops),
        Asked::Reading => checked(alloc, text, ops),
        Asked::Explanation => explained(alloc, text, ops),
    }
}

/// Out of memory.
pub(crate) fn starved(alloc: Global) -> Answer
    ensures end { result.end ≡ End.Memory }
    ensures text { result.text.items ≡ [] }
{
    Answer {
        end: End::Memory,
        text: Vec::new(alloc),
    }
}

/// The script is refused, or memory ran out before its refusal was written.
pub(crate) fn refused(alloc: Global, refusal: ScriptError) -> Answer
    ensures { IsRefusedBy refusal result.end result.text.items }
{
    match refusal_text(alloc, refusal) {
        Ok(text) => Answer {
            end: End::Refused,
            text: text.into_bytes(),
        },
        Err(OutOfMemory) => starved(alloc),
    }
}

fn refusal_text(alloc: Global, refusal: ScriptError) -> Result<String, OutOfMemory>
    ensures { IfOk result (λ text. string_bytes text ≡ error_text refusal) }
{
    let mut text = String::new(alloc);
    write!(text, "{refusal}")?;
    Ok(text)
}

/// Whether all ranks have finished, by those that wait.
pub(crate) fn end_of(waiting: &[u8]) -> End
    ensures { EndsSo result waiting.now }
{
    if waiting.is_empty() {
        return End::Finished;
    }
    End::Waiting
}

/// The same by those that are found to wait.
pub(crate) fn end_of_found(waiting: &[WaitingRank]) -> End
    ensures { EndsSo result (map waiting_view waiting.now) }
{
    if waiting.is_empty() {
        return End::Finished;
    }
    End::Waiting
}
