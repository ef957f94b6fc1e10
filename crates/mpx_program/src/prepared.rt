//! A call's script, which is read once, and examined once at most.
ghost use Rattle.std.specs.Prelude.{◌≡◌, [], Err, IfErr, IfOk, Ok, Option, List, ℕ, true};
ghost use Rattle.mpx_explain.specs.RefusedLines.{AreRefusalsTold};
ghost use Rattle.mpx_script.specs.Reading.{reading};
ghost use Rattle.mpx_script.specs.declared.faults.ScriptError.{ScriptError};
ghost use Rattle.mpx_run.specs.Founded.{IsFounded};
ghost use Rattle.mpx_run.specs.Texts.{PrintsUngated, TakesInput};
ghost use Rattle.mpx_program.specs.Explained.{IsFound};
ghost use Rattle.mpx_program.specs.Jobs.{FailsBefore, IsPrepared};
ghost use Rattle.mpx_program.specs.Strict.{IsStrict};

use crate::explaining::{explained_reason, explained_refusals};
use crate::found::{Examined, Found, examine_script};
use join_core::OutOfMemory;
use mpx_num::{Listing, Ops};
use mpx_run::{RunError, read_bytes};
use mpx_script::{ReadScriptError, Script, read_script};
use mpx_words::Invocation;
use std::alloc::Global;
use std::io::Read;

/// What a job needs of its script.
#[derive(Drop)]
pub(crate) struct Prepared {
    pub(crate) text: Vec<u8>,
    pub(crate) script: Script,
    pub(crate) found: Found,
    /// Whether the status tells that the script has a call that is refused or is a fault.
    pub(crate) complains: bool,
}

/// Why there is none, and what `--explain` tells of it; an `Err` is want of memory for these lines.
#[derive(Drop)]
pub(crate) struct Failed {
    pub(crate) error: RunError,
    pub(crate) more: Result<Vec<u8>, OutOfMemory>,
}

/// Reads the text of a call's script, and the script, and finds what `--strict` and `--explain` ask for.
pub(crate) fn prepare<R: Read>(
    alloc: Global,
    call: &Invocation,
    reader: &mut R,
    ops: &Ops,
) -> Result<Prepared, Failed>
    ensures ok { IfOk result (λ p. IsPrepared (⟦<Ops as Listing>⟧.operations ops.now) call.now (R.remaining reader.old) (R.remaining reader.new) p.text.items p.script p.complains) }
    ensures found { IfOk result (λ p. call.now.flags.explain ≡ true → IsFound (⟦<Ops as Listing>⟧.operations ops.now) call.now.job.command p.script p.found) }
    ensures err { IfErr result (λ f. FailsBefore (⟦<Ops as Listing>⟧.operations ops.now) call.now.job (R.remaining reader.old) (R.remaining reader.new) f.error) }
    ensures told { IfErr result (λ f. (refusal : ScriptError) → f.error ≡ RunError.Script refusal → (text : List ℕ) × TakesInput (R.remaining reader.old) (R.remaining reader.new) text
        × (call.now.flags.explain ≡ true → IfOk f.more (λ lines. AreRefusalsTold (⟦<Ops as Listing>⟧.operations ops.now) text [] lines.items))) }
{
    match read_bytes(alloc, reader) {
        Ok(text) => match with_script(alloc, call, &text, ops) {
            Ok(read) => Ok(prepared_of(text, read)),
            Err(failed) => Err(failed),
        },
        Err(fault) => Err(with_reason(alloc, call, RunError::from(fault))),
    }
}

// A script, and what was found in it.
#[derive(Drop)]
struct WithScript {
    script: Script,
    examined: Examined,
}

// The text and its script together.
fn prepared_of(text: Vec<u8>, read: WithScript) -> Prepared
    ensures text { result.text.items ≡ text.items }
    ensures script { result.script ≡ read.script }
    ensures found { result.found ≡ read.examined.found }
    ensures complains { result.complains ≡ read.examined.complains }
{
    let WithScript { script, examined } = read;
    let Examined { found, complains } = examined;
    Prepared {
        text,
        script,
        found,
        complains,
    }
}

// The script that a text is, and what is found in it.
fn with_script(
    alloc: Global,
    call: &Invocation,
    text: &[u8],
    ops: &Ops,
) -> Result<WithScript, Failed>
    ensures read { IfOk result (λ w. reading (⟦<Ops as Listing>⟧.operations ops.now) text.now ≡ Ok w.script) }
    ensures strict { IfOk result (λ w. IsStrict (⟦<Ops as Listing>⟧.operations ops.now) call.now text.now w.examined.complains) }
    ensures found { IfOk result (λ w. call.now.flags.explain ≡ true → IsFound (⟦<Ops as Listing>⟧.operations ops.now) call.now.job.command w.script w.examined.found) }
    ensures err { IfErr result (λ f. (old : Option (List ℕ)) → PrintsUngated IsFounded (⟦<Ops as Listing>⟧.operations ops.now) call.now.job text.now old old (Err f.error)) }
    ensures told { IfErr result (λ f. (refusal : ScriptError) → f.error ≡ RunError.Script refusal → call.now.flags.explain ≡ true
        → IfOk f.more (λ lines. AreRefusalsTold (⟦<Ops as Listing>⟧.operations ops.now) text.now [] lines.items)) }
{
    match read_script(alloc, text, ops) {
        Ok(script) => match examine_script(alloc, call, &script, ops) {
            Ok(examined) => Ok(WithScript { script, examined }),
            Err(OutOfMemory) => Err(without_more(alloc, RunError::Memory)),
        },
        Err(ReadScriptError::OutOfMemory) => Err(without_more(alloc, RunError::Memory)),
        Err(ReadScriptError::Refused(refusal)) => Err(Failed {
            error: RunError::Script(refusal),
            more: explained_refusals(alloc, call, text, ops),
        }),
    }
}

// An error of reading, of which the system's reason is explained.
fn with_reason(alloc: Global, call: &Invocation, error: RunError) -> Failed
    ensures { result.error ≡ error }
{
    let more = Ok(explained_reason(alloc, call, &error));
    Failed { error, more }
}

// An error of which nothing is explained.
fn without_more(alloc: Global, error: RunError) -> Failed
    ensures { result.error ≡ error }
{
    Failed {
        error,
        more: Ok(Vec::new(alloc)),
    }
}
