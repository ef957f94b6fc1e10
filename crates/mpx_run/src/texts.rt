//! A job from the bytes of a script to what it prints.
ghost use Rattle.std.specs.Prelude.{◌≡◌, ◌≢◌, IfErr, IfOk, Some, string_bytes};
ghost use Rattle.mpx_threads.specs.Gates.{nowhere};
ghost use Rattle.mpx_run.specs.Founded.{IsFounded};
ghost use Rattle.mpx_run.specs.Reports.{IsPrinted};
ghost use Rattle.mpx_run.specs.Texts.{ComesTo, IsEndedFor, IsWritten, Prints, Runs, run_error_text, script_told, told};
ghost use Rattle.mpx_run.specs.declared.texts.RunError.TheVariants.{Memory};

use crate::end::End;
use crate::jobs::{is_in_threads, print_job, print_job_in_threads};
use crate::report::Printed;
use crate::streams::{ReadFault, read_bytes, write_bytes};
use join_core::OutOfMemory;
use mpx_num::{Listing, Ops};
use mpx_script::{ReadScriptError, Script, ScriptError, read_script};
use mpx_sim::{InThreads, Observer, Unobserved};
use mpx_statement::Job;
use mpx_threads::{Gate, OpenGate};
use std::alloc::Global;
use std::fmt;
use std::io::{ErrorKind, Read, Write};
use std::sync::Wait;
use std::thread::Threads;
use thiserror::Error;

/// Why a job has no end, or why its text could not be written whole. It prints as one line of text.
#[derive(Debug, Drop, Error)]
pub enum RunError {
    /// The script is refused.
    Script(ScriptError),
    /// There are more than 64 ranks and relays to be run.
    TooManyProcesses,
    /// There is no more memory.
    Memory,
    /// The reader failed, for this reason.
    Read(ErrorKind),
    /// The writer failed, for this reason. The text's beginning may be out.
    Write(ErrorKind),
    /// The gate of a run in threads gave up.
    GateGaveUp,
}

impl fmt::Display for RunError {
    ghost output = { λ error. Some (run_error_text error) };

    fn fmt<W: fmt::Write>(&self, f: &mut fmt::Formatter<W>) -> fmt::Result {
        match self {
            RunError::Script(refusal) => write!(f, "{refusal}"),
            RunError::TooManyProcesses => f.write_str("too many processes"),
            RunError::Memory => f.write_str("out of memory"),
            RunError::Read(_) => f.write_str("read fault"),
            RunError::Write(_) => f.write_str("write fault"),
            RunError::GateGaveUp => f.write_str("gate gave up"),
        }
    }
}

impl From<ReadScriptError> for RunError {
    ghost from_gives = { λ refused e. e ≡ script_told refused };

    fn from(refused: ReadScriptError) -> RunError {
        match refused {
            ReadScriptError::Refused(refusal) => RunError::Script(refusal),
            ReadScriptError::OutOfMemory => RunError::Memory,
        }
    }
}

impl From<ReadFault> for RunError {
    ghost from_gives = { λ fault e. e ≡ told fault };

    fn from(fault: ReadFault) -> RunError {
        match fault {
            ReadFault::OutOfMemory => RunError::Memory,
            ReadFault::Reader(kind) => RunError::Read(kind),
        }
    }
}

impl From<OutOfMemory> for RunError {
    ghost from_gives = { λ _ e. e ≡ Memory };

    fn from(_e: OutOfMemory) -> RunError {
        RunError::Memory
    }
}

/// Reads a script, and writes what it comes to: of [`Command::Run`](crate::Command::Run) and [`Command::Eval`](crate::Command::Eval) each
/// rank's lines as `RANK: LINE`, rank by rank, of [`Command::Check`](crate::Command::Check) the line `ok N ranks M statements`, where M counts
/// a statement once for each rank that has it. `ops` are the job's own operations, which a script names by their words.
///
/// The reader is read to its end, or up to one byte more than a script may have, in at most 1,048,577 calls; a call that
/// fails ends it. Nothing is written before all is computed; after `Write` a beginning of the text is out, and after
/// every other error nothing. No clause says that `Read` and `Write` come only where the reader or the writer fails,
/// nor that all is flushed: that is shown by tests.
///
/// It takes every job, so it has the bound `Wait`, and owes no return: a run in threads may wait for them. Who does another job by
/// [`read_bytes`], `read_script`, [`print_job`](crate::print_job) and [`write_printed`] calls nothing that may wait. A thread that the system refuses is want of memory.
/// This call has an open gate: it never answers `GateGaveUp`.
pub fn run_text<T: Threads + Wait + Sync, R: Read, W: Write>(
    rt: &T,
    alloc: Global,
    job: &Job,
    reader: &mut R,
    writer: &mut W,
    ops: &Ops,
) -> Result<End, RunError>
    ensures prints { Runs IsPrinted (⟦<Ops as Listing>⟧.operations ops.now) nowhere job.now (R.remaining reader.old) (R.remaining reader.new) (W.contents writer.old) (W.contents writer.new) result }
    ensures founded { Runs IsFounded (⟦<Ops as Listing>⟧.operations ops.now) nowhere job.now (R.remaining reader.old) (R.remaining reader.new) (W.contents writer.old) (W.contents writer.new) result }
    ensures never { IfErr result (λ e. e ≢ RunError.GateGaveUp) }
{
    run_text_observed(
        rt,
        alloc,
        job,
        reader,
        writer,
        &mut Unobserved,
        &OpenGate,
        ops,
    )
}

/// Reads a script, and writes what it comes to, as [`run_text`] does. `observer` looks on at the run; `gate` is asked
/// before each step of one in threads, which answers `GateGaveUp` only where the gate may give up at a step of one of its processes.
pub fn run_text_observed<T: Threads + Wait + Sync, R: Read, W: Write, G: Gate + Sync>(
    rt: &T,
    alloc: Global,
    job: &Job,
    reader: &mut R,
    writer: &mut W,
    observer: &mut dyn Observer,
    gate: &G,
    ops: &Ops,
) -> Result<End, RunError>
    ensures prints { Runs IsPrinted (⟦<Ops as Listing>⟧.operations ops.now) (G.gives_up gate.now) job.now (R.remaining reader.old) (R.remaining reader.new) (W.contents writer.old) (W.contents writer.new) result }
    ensures founded { Runs IsFounded (⟦<Ops as Listing>⟧.operations ops.now) (G.gives_up gate.now) job.now (R.remaining reader.old) (R.remaining reader.new) (W.contents writer.old) (W.contents writer.new) result }
{
    let text = read_bytes(alloc, reader)?;
    run_bytes(rt, alloc, job, &text, writer, observer, gate, ops)
}

// Does the job with the script that the bytes are.
fn run_bytes<T: Threads + Wait + Sync, W: Write, G: Gate + Sync>(
    rt: &T,
    alloc: Global,
    job: &Job,
    text: &[u8],
    writer: &mut W,
    observer: &mut dyn Observer,
    gate: &G,
    ops: &Ops,
) -> Result<End, RunError>
    ensures prints { Prints IsPrinted (⟦<Ops as Listing>⟧.operations ops.now) (G.gives_up gate.now) job.now text.now (W.contents writer.old) (W.contents writer.new) result }
    ensures founded { Prints IsFounded (⟦<Ops as Listing>⟧.operations ops.now) (G.gives_up gate.now) job.now text.now (W.contents writer.old) (W.contents writer.new) result }
{
    let script = read_script(alloc, text, ops)?;
    observer.begins(text);
    let printed = match printed_by(rt, alloc, job, &script, observer, gate, ops) {
        Ok(printed) => printed,
        Err(error) => return Err(error),
    };
    let Printed { text, end, left } = printed;
    left.let_go();
    write_printed(text.as_bytes(), end, writer)
}

/// Writes what a job comes to, and answers its end. The error is `Write`; a beginning of the text may then be out.
pub fn write_printed<W: Write>(text: &[u8], end: End, writer: &mut W) -> Result<End, RunError>
    ensures { IsWritten (W.contents writer.old) (W.contents writer.new) text.now end result }
{
    match write_bytes(writer, text) {
        Ok(()) => Ok(end),
        Err(fault) => Err(RunError::Write(fault.kind)),
    }
}

// What a job comes to with a script, in threads or not.
fn printed_by<T: Threads + Wait + Sync, G: Gate + Sync>(
    rt: &T,
    alloc: Global,
    job: &Job,
    script: &Script,
    observer: &mut dyn Observer,
    gate: &G,
    ops: &Ops,
) -> Result<Printed, RunError>
    ensures prints { IfOk result (λ printed. ComesTo IsPrinted (⟦<Ops as Listing>⟧.operations ops.now) job.now.command job.now.options script.now printed.end (string_bytes printed.text)) }
    ensures founded { IfOk result (λ printed. ComesTo IsFounded (⟦<Ops as Listing>⟧.operations ops.now) job.now.command job.now.options script.now printed.end (string_bytes printed.text)) }
    ensures refused { IfErr result (λ e. IsEndedFor (G.gives_up gate.now) job.now script.now e) }
{
    if is_in_threads(job) {
        return print_job_in_threads(rt, alloc, job, script, observer, gate, ops);
    }
    print_job(&InThreads { rt }, alloc, job, script, observer, ops)
}
