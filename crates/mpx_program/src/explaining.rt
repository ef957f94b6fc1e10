//! What `--explain` tells beside why a run ended.
ghost use Rattle.std.specs.Prelude.{◌≡◌, ◌++◌, [], IfErr, IfOk, List, OnOk, false, map, take, true};
ghost use Rattle.mpx_num.specs.declared.own.Operation.{Operation};
ghost use Rattle.mpx_node.specs.Nodes.{NodeView};
ghost use Rattle.mpx_eval.specs.Findings.{AreFindings};
ghost use Rattle.mpx_eval.specs.Found.{complaint_view, waiting_view};
ghost use Rattle.mpx_explain.specs.RefusedLines.{AreRefusalsTold};
ghost use Rattle.mpx_run.specs.declared.report.Left.{Left};
ghost use Rattle.mpx_waiting.specs.ToldLines.{waiting_told};
ghost use Rattle.mpx_program.specs.Explained.{AreCalls, AreCertain, HasTold, IsBehind, IsHeaded, IsToldOfRun, TellsEarly, TellsEnd, TellsEvaluation, ended_by, ended_in, finish_text, processes_in, processes_of, unexplained};

use crate::found::Found;
use crate::prepared::Prepared;
use crate::reason::push_reason;
use join_core::OutOfMemory;
use mpx_eval::{Complaint, Findings};
use mpx_explain::{
    EndedRun, explain_calls, explain_refusals, explain_results, explain_run, explain_unheard,
};
use mpx_meaning::RankEnd;
use mpx_node::Node;
use mpx_num::{Listing, Ops};
use mpx_run::{Cause, End, Left, RunError};
use mpx_script::Script;
use mpx_waiting::push_waiting;
use mpx_words::Invocation;
use std::alloc::Global;

/// Further lines, where `--explain` is asked for: of a job that came to an end for whose posts ranks wait, calls that are refused or are faults,
/// and results that are past their types. Where a run ended early, these lines are of the evaluation and stand behind a heading that says so;
/// before it stands where ranks wait in this run, and whose posts they lack. So they do where the text couldn't be written, behind the system's
/// reason. An `Err` is want of memory, be it in the script's examination.
pub(crate) fn explained(
    alloc: Global,
    call: &Invocation,
    prepared: &Prepared,
    answer: &Result<End, RunError>,
    left: &Left,
) -> Result<Vec<u8>, OutOfMemory>
    ensures off { call.now.flags.explain ≡ false → IfOk result (λ told. told.items ≡ []) }
    ensures on { call.now.flags.explain ≡ true → IfOk result (λ told. HasTold prepared.now.script prepared.now.text.items prepared.now.found left.now answer.now told.items) }
{
    if !call.flags.explain {
        return Ok(Vec::new(alloc));
    }
    found_told(alloc, prepared, answer, left)
}

/// What the standard error is told of that: the lines, or that memory was wanting for them.
pub(crate) fn more_of(told: &Result<Vec<u8>, OutOfMemory>) -> &[u8]
    ensures ok { IfOk told.now (λ lines. result.now ≡ lines.items) }
    ensures err { IfErr told.now (λ e. result.now ≡ unexplained) }
{
    match told {
        Ok(lines) => lines.as_slice(),
        Err(OutOfMemory) => b"out of memory: no more is explained\n".as_slice(),
    }
}

/// What is explained where the script couldn't be read for this reason: what the system says.
pub(crate) fn explained_reason(alloc: Global, call: &Invocation, error: &RunError) -> Vec<u8> {
    let mut told = Vec::new(alloc);
    if call.flags.explain {
        let _ = push_reason(alloc, error, &mut told);
    }
    told
}

/// The same of a script that is refused: its refused lines. An `Err` is want of memory for them.
pub(crate) fn explained_refusals(
    alloc: Global,
    call: &Invocation,
    text: &[u8],
    ops: &Ops,
) -> Result<Vec<u8>, OutOfMemory>
    ensures off { call.now.flags.explain ≡ false → IfOk result (λ told. told.items ≡ []) }
    ensures on { call.now.flags.explain ≡ true → IfOk result (λ told. AreRefusalsTold (⟦<Ops as Listing>⟧.operations ops.now) text.now [] told.items) }
{
    let mut told = Vec::new(alloc);
    if call.flags.explain {
        explain_refusals(alloc, text, ops, &mut told)?;
    }
    Ok(told)
}

// What is told by what was found.
fn found_told(
    alloc: Global,
    prepared: &Prepared,
    answer: &Result<End, RunError>,
    left: &Left,
) -> Result<Vec<u8>, OutOfMemory>
    ensures { IfOk result (λ told. HasTold prepared.now.script prepared.now.text.items prepared.now.found left.now answer.now told.items) }
{
    match &prepared.found {
        Found::Nothing => Ok(Vec::new(alloc)),
        Found::Wanting => Err(OutOfMemory),
        Found::Certain(found) => certain_told(alloc, prepared, found, answer),
        Found::InEvaluation(found) => end_told(alloc, prepared, found, answer, left),
    }
}

// The calls on `world` that are refused for certain, behind the system's reason where a stream failed.
fn certain_told(
    alloc: Global,
    prepared: &Prepared,
    found: &[Complaint],
    answer: &Result<End, RunError>,
) -> Result<Vec<u8>, OutOfMemory>
    ensures { IfOk result (λ told. AreCertain prepared.now.text.items (map complaint_view found.now) answer.now told.items) }
{
    let mut told = Vec::new(alloc);
    if let Err(error) = answer {
        push_reason(alloc, error, &mut told)?;
    }
    explain_calls(alloc, &prepared.text, &prepared.script, found, &mut told)?;
    Ok(told)
}

// What is told of a run or an evaluation that came to this.
fn end_told(
    alloc: Global,
    prepared: &Prepared,
    found: &Findings,
    answer: &Result<End, RunError>,
    left: &Left,
) -> Result<Vec<u8>, OutOfMemory>
    ensures { IfOk result (λ told. IfOk answer.now (λ end. (ops : List Operation) → AreFindings ops prepared.now.script (map waiting_view found.now.waiting.items) (map complaint_view found.now.complaints.items) (map complaint_view found.now.unheard.items)
        → TellsEnd ops prepared.now.script prepared.now.text.items (ended_in prepared.now.script.ranks left.now) end told.items)) }
{
    match answer {
        Ok(End::Finished) => evaluation_told(alloc, prepared, found),
        Ok(End::Waiting(_, Cause::InEveryRun)) => evaluation_told(alloc, prepared, found),
        Ok(End::Waiting(_, Cause::TurnsUsedUp(turns))) => {
            run_told(alloc, prepared, left, Cause::TurnsUsedUp(*turns), found)
        }
        Ok(End::Waiting(_, Cause::AllLost)) => {
            run_told(alloc, prepared, left, Cause::AllLost, found)
        }
        Ok(End::Waiting(_, Cause::Unknown)) => {
            run_told(alloc, prepared, left, Cause::Unknown, found)
        }
        Err(error) => fault_told(alloc, prepared, left, found, error),
    }
}

// What is told where the text couldn't be written: that is no end, so no cause is known.
fn fault_told(
    alloc: Global,
    prepared: &Prepared,
    left: &Left,
    found: &Findings,
    error: &RunError,
) -> Result<Vec<u8>, OutOfMemory> {
    let mut told = Vec::new(alloc);
    push_reason(alloc, error, &mut told)?;
    let early = early_told(alloc, prepared, left, &[], Cause::Unknown, found)?;
    told.extend_from_slice(&early)?;
    Ok(told)
}

// What is told of a run that ended early, for this cause.
fn run_told(
    alloc: Global,
    prepared: &Prepared,
    left: &Left,
    cause: Cause,
    found: &Findings,
) -> Result<Vec<u8>, OutOfMemory>
    ensures { IfOk result (λ told. (ops : List Operation) → AreFindings ops prepared.now.script (map waiting_view found.now.waiting.items) (map complaint_view found.now.complaints.items) (map complaint_view found.now.unheard.items)
        → TellsEarly ops prepared.now.script prepared.now.text.items (ended_in prepared.now.script.ranks left.now) cause told.items) }
{
    let ends = left.ends.as_slice();
    early_told(alloc, prepared, left, ends, cause, found)
}

// The lines of a run that ended early for this cause, its ranks so, and behind a heading those of the evaluation. Where ranks wait in the
// evaluation isn't told twice.
fn early_told(
    alloc: Global,
    prepared: &Prepared,
    left: &Left,
    ends: &[RankEnd],
    cause: Cause,
    found: &Findings,
) -> Result<Vec<u8>, OutOfMemory>
    ensures { IfOk result (λ told. (ops : List Operation) → AreFindings ops prepared.now.script (map waiting_view found.now.waiting.items) (map complaint_view found.now.complaints.items) (map complaint_view found.now.unheard.items)
        → TellsEarly ops prepared.now.script prepared.now.text.items (ended_by ends.now (processes_in prepared.now.script.ranks left.now)) cause told.items) }
{
    let mut told = Vec::new(alloc);
    push_run_end(alloc, prepared, left, ends, &mut told)?;
    let there = waits_told(alloc, prepared, found)?;
    push_behind(cause, there.as_slice(), &mut told)?;
    drop(there);
    let calls = calls_told(alloc, prepared, found)?;
    push_headed(calls.as_slice(), &mut told)?;
    drop(calls);
    Ok(told)
}

// Adds what waits of the evaluation are told there, behind those of the run; where nobody waits, what would let all ranks finish. Of a text
// that was cut the rest isn't known.
fn push_behind(cause: Cause, there: &[u8], told: &mut Vec<u8>) -> Result<(), OutOfMemory>
    ensures { OnOk result (IsBehind cause told.old.items there.now told.new.items) }
{
    if there.is_empty() {
        return push_finish(cause, told);
    }
    if told.as_slice() == there && !there.ends_with(b" more\n") {
        told.extend_from_slice(b"in the evaluation these ranks wait there too\n")?;
        return Ok(());
    }
    told.extend_from_slice(b"in the evaluation ranks wait here:\n")?;
    told.extend_from_slice(there)?;
    Ok(())
}

// Adds what would let all ranks finish, where nobody waits in the evaluation.
fn push_finish(cause: Cause, told: &mut Vec<u8>) -> Result<(), OutOfMemory>
    ensures { OnOk result (told.new.items ≡ told.old.items ++ finish_text cause) }
{
    match cause {
        Cause::TurnsUsedUp(_) => {
            told.extend_from_slice(b"with more turns all ranks would finish\n")?;
        }
        Cause::AllLost => {
            told.extend_from_slice(b"with a loss under 100 all ranks would finish\n")?;
        }
        Cause::InEveryRun => told.extend_from_slice(b"the script lets all ranks finish\n")?,
        Cause::Unknown => told.extend_from_slice(b"the script lets all ranks finish\n")?,
    }
    Ok(())
}

// Adds the lines of calls behind a heading, where there are some.
fn push_headed(calls: &[u8], told: &mut Vec<u8>) -> Result<(), OutOfMemory>
    ensures { OnOk result (IsHeaded told.old.items calls.now told.new.items) }
{
    if calls.is_empty() {
        return Ok(());
    }
    told.extend_from_slice(b"in the evaluation:\n")?;
    told.extend_from_slice(calls)?;
    Ok(())
}

// Where ranks wait in the run of which this is left, its ranks ended so.
fn push_run_end(
    alloc: Global,
    prepared: &Prepared,
    left: &Left,
    ends: &[RankEnd],
    told: &mut Vec<u8>,
) -> Result<(), OutOfMemory>
    ensures { OnOk result (IsToldOfRun prepared.now.script prepared.now.text.items (ended_by ends.now (processes_in prepared.now.script.ranks left.now)) told.old.items told.new.items) }
{
    let nodes = nodes_of(alloc, left, prepared.script.ranks())?;
    let text = prepared.text.as_slice();
    push_run(alloc, text, &prepared.script, ends, &nodes, told)
}

// The same by the nodes of all ranks as they stand then.
fn push_run(
    alloc: Global,
    text: &[u8],
    script: &Script,
    ends: &[RankEnd],
    nodes: &[&Node],
    told: &mut Vec<u8>,
) -> Result<(), OutOfMemory>
    ensures { OnOk result ((processes : List NodeView) → processes_of nodes.now ≡ processes → IsToldOfRun script.now text.now (ended_by ends.now processes) told.old.items told.new.items) }
{
    let run = EndedRun {
        script,
        ends,
        nodes,
    };
    explain_run(alloc, text, &run, told)
}

// The nodes of so many ranks at the end of a run.
fn nodes_of(alloc: Global, left: &Left, ranks: u8) -> Result<Vec<&Node>, OutOfMemory>
    ensures { IfOk result (λ nodes. processes_of nodes.items ≡ processes_in ranks left.now) }
{
    let mut nodes = Vec::new(alloc);
    let simulated = of_ranks(left.nodes.as_slice(), ranks);
    for node in simulated {
        nodes.push(node)?;
    }
    let ports = of_ranks(left.ports.as_slice(), ranks);
    for port in ports {
        nodes.push(port.node())?;
    }
    Ok(nodes)
}

// Those of so many ranks, which stand first.
fn of_ranks<T>(all: &[T], ranks: u8) -> &[T]
    ensures { result.now ≡ take ranks all.now }
{
    let most = usize::from(ranks);
    if most < all.len() { &all[..most] } else { all }
}

// What is found in the evaluation.
fn evaluation_told(
    alloc: Global,
    prepared: &Prepared,
    found: &Findings,
) -> Result<Vec<u8>, OutOfMemory>
    ensures { IfOk result (λ told. (ops : List Operation) → AreFindings ops prepared.now.script (map waiting_view found.now.waiting.items) (map complaint_view found.now.complaints.items) (map complaint_view found.now.unheard.items)
        → TellsEvaluation ops prepared.now.script prepared.now.text.items told.items) }
{
    let mut told = waits_told(alloc, prepared, found)?;
    push_calls(alloc, prepared, found, &mut told)?;
    Ok(told)
}

// Who waits in the evaluation.
fn waits_told(alloc: Global, prepared: &Prepared, found: &Findings) -> Result<Vec<u8>, OutOfMemory>
    ensures { IfOk result (λ told. told.items ≡ waiting_told prepared.now.text.items prepared.now.script.statements (map waiting_view found.now.waiting.items)) }
{
    let mut told = Vec::new(alloc);
    let (text, script) = (prepared.text.as_slice(), &prepared.script);
    push_waiting(alloc, text, script, found.waiting.as_slice(), &mut told)?;
    Ok(told)
}

// Which calls are refused or are faults there, and which results are past their types.
fn calls_told(alloc: Global, prepared: &Prepared, found: &Findings) -> Result<Vec<u8>, OutOfMemory>
    ensures { IfOk result (λ told. AreCalls prepared.now.text.items prepared.now.script.statements (map waiting_view found.now.waiting.items) (map complaint_view found.now.complaints.items) (map complaint_view found.now.unheard.items) [] told.items) }
{
    let mut told = Vec::new(alloc);
    push_calls(alloc, prepared, found, &mut told)?;
    Ok(told)
}

fn push_calls(
    alloc: Global,
    prepared: &Prepared,
    found: &Findings,
    told: &mut Vec<u8>,
) -> Result<(), OutOfMemory>
    ensures { OnOk result (AreCalls prepared.now.text.items prepared.now.script.statements (map waiting_view found.now.waiting.items) (map complaint_view found.now.complaints.items) (map complaint_view found.now.unheard.items) told.old.items told.new.items) }
{
    let (text, script) = (prepared.text.as_slice(), &prepared.script);
    let waiting = found.waiting.as_slice();
    explain_calls(alloc, text, script, &found.complaints, told)?;
    explain_unheard(alloc, text, script, &found.unheard, waiting, told)?;
    explain_results(alloc, text, script, found, told)
}
