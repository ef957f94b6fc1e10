//! What is found in a script beside the job, for `--strict` and for `--explain`: once.
ghost use Rattle.std.specs.Prelude.{◌≡◌, IfOk, true};
ghost use Rattle.mpx_program.specs.Explained.{IsFound};
ghost use Rattle.mpx_program.specs.Strict.{Complains, ComplainsIn, IsAsked};

use join_core::OutOfMemory;
use mpx_eval::{Complaint, Findings, certain_refusals, examine};
use mpx_num::{Listing, Ops};
use mpx_run::Command;
use mpx_script::Script;
use mpx_words::Invocation;
use std::alloc::Global;

/// What was looked for in a script, and found.
#[derive(Drop)]
pub(crate) enum Found {
    /// Nothing was asked for.
    Nothing,
    /// There was no memory for what is only explained.
    Wanting,
    /// Of a script that is run or evaluated: who waits in its evaluation, and which calls are refused or are faults.
    InEvaluation(Findings),
    /// Of a script that is read alone: the calls on `world` that are refused for certain.
    Certain(Vec<Complaint>),
}

/// What was found, and whether the status tells of it.
#[derive(Drop)]
pub(crate) struct Examined {
    pub(crate) found: Found,
    pub(crate) complains: bool,
}

/// Examines a script once, where `--strict` or `--explain` is asked for. With `--strict` it complains where a call is refused or is a fault:
/// where the script is run or evaluated, in its evaluation, be it of a request that nobody waits for; where it is checked, for certain. Want
/// of memory is told only with `--strict`.
pub(crate) fn examine_script(
    alloc: Global,
    call: &Invocation,
    script: &Script,
    ops: &Ops,
) -> Result<Examined, OutOfMemory>
    ensures found { IfOk result (λ examined. call.now.flags.explain ≡ true → IsFound (⟦<Ops as Listing>⟧.operations ops.now) call.now.job.command script.now examined.found) }
    ensures strict { IfOk result (λ examined. IsAsked call.now.flags.strict (Complains (⟦<Ops as Listing>⟧.operations ops.now) call.now.job.command script.now examined.complains) examined.complains) }
{
    if call.flags.strict {
        return found_in(alloc, call.job.command, script, ops);
    }
    let found = if call.flags.explain {
        found_for_lines(alloc, call.job.command, script, ops)
    } else {
        Found::Nothing
    };
    Ok(Examined {
        found,
        complains: false,
    })
}

// What is found, where there is memory for it.
fn found_for_lines(alloc: Global, command: Command, script: &Script, ops: &Ops) -> Found
    ensures { IsFound (⟦<Ops as Listing>⟧.operations ops.now) command script.now result }
{
    match found_in(alloc, command, script, ops) {
        Ok(examined) => examined.found,
        Err(OutOfMemory) => Found::Wanting,
    }
}

// What is found in a script with this command, and whether something is.
fn found_in(
    alloc: Global,
    command: Command,
    script: &Script,
    ops: &Ops,
) -> Result<Examined, OutOfMemory>
    ensures found { IfOk result (λ examined. IsFound (⟦<Ops as Listing>⟧.operations ops.now) command script.now examined.found) }
    ensures complains { IfOk result (λ examined. Complains (⟦<Ops as Listing>⟧.operations ops.now) command script.now examined.complains) }
{
    match command {
        Command::Run => found_in_evaluation(alloc, script, ops),
        Command::Eval => found_in_evaluation(alloc, script, ops),
        Command::Check => found_for_certain(alloc, script, ops),
    }
}

// It complains where some line of the evaluation says that a call was refused or is a fault, or one of a request is a fault that no line tells.
fn found_in_evaluation(alloc: Global, script: &Script, ops: &Ops) -> Result<Examined, OutOfMemory>
    ensures run { IfOk result (λ examined. IsFound (⟦<Ops as Listing>⟧.operations ops.now) Command.Run script.now examined.found) }
    ensures eval { IfOk result (λ examined. IsFound (⟦<Ops as Listing>⟧.operations ops.now) Command.Eval script.now examined.found) }
    ensures complains { IfOk result (λ examined. ComplainsIn (⟦<Ops as Listing>⟧.operations ops.now) script.now examined.complains) }
{
    let found = examine(alloc, script, ops)?;
    let complains = !found.complaints.is_empty() || !found.unheard.is_empty();
    Ok(Examined {
        found: Found::InEvaluation(found),
        complains,
    })
}

// It complains where some call on `world` is refused for certain.
fn found_for_certain(alloc: Global, script: &Script, ops: &Ops) -> Result<Examined, OutOfMemory>
    ensures found { IfOk result (λ examined. IsFound (⟦<Ops as Listing>⟧.operations ops.now) Command.Check script.now examined.found) }
    ensures complains { IfOk result (λ examined. Complains (⟦<Ops as Listing>⟧.operations ops.now) Command.Check script.now examined.complains) }
{
    let found = certain_refusals(alloc, script, ops)?;
    let complains = !found.is_empty();
    Ok(Examined {
        found: Found::Certain(found),
        complains,
    })
}
