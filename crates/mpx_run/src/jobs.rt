//! What a job prints with a script that is read.
ghost use Rattle.std.specs.Prelude.{◌≡◌, ◌+◌, ◌<◌, ◌≤◌, IfErr, IfOk, IsFalse, IsTrue, false, string_bytes, true};
ghost use Rattle.mpx_run.specs.Founded.{IsFounded};
ghost use Rattle.mpx_run.specs.Left.{Leaves};
ghost use Rattle.mpx_run.specs.Reports.{IsPrinted};
ghost use Rattle.mpx_run.specs.Texts.{ComesTo, IsEndedFor, IsRefusedFor, is_in_threads};

use crate::check::check_text;
use crate::end::End;
use crate::report::{Left, Printed, print, print_evaluation, print_threads};
use crate::texts::RunError;
use mpx_num::{Listing, Ops};
use mpx_script::Script;
use mpx_sim::{Observer, Workers};
use mpx_statement::{Command, Job};
use mpx_threads::{Gate, ThreadsError};
use std::alloc::Global;
use std::sync::Wait;
use std::thread::Threads;

// So many ranks and relays there are at most.
const MOST_PROCESSES: u8 = 64;

/// Whether the job is a run in threads. Every other one waits for nobody.
pub fn is_in_threads(job: &Job) -> bool
    ensures { result ≡ is_in_threads job.now }
{
    match job.command {
        Command::Run => job.options.threads,
        Command::Eval => false,
        Command::Check => false,
    }
}

/// What a job comes to with a script that was read with `ops`: an evaluation, a simulated run, which these workers make and at which `observer`
/// looks on, or how much the script has. It waits for nobody, so it is proved to return. The errors are `TooManyProcesses`, of a run alone, and
/// `Memory`.
#[tactic(auto, using(crate::proofs::Less::comes_printed))]
pub fn print_job<W: Workers>(
    workers: &W,
    alloc: Global,
    job: &Job,
    script: &Script,
    observer: &mut dyn Observer,
    ops: &Ops,
) -> Result<Printed, RunError>
    requires may { W.may_work workers.now }
    requires alone { is_in_threads job.now ≡ false }
    ensures prints { IfOk result (λ printed. ComesTo IsPrinted (⟦<Ops as Listing>⟧.operations ops.now) job.now.command job.now.options script.now printed.end (string_bytes printed.text)) }
    ensures founded { IfOk result (λ printed. ComesTo IsFounded (⟦<Ops as Listing>⟧.operations ops.now) job.now.command job.now.options script.now printed.end (string_bytes printed.text)) }
    ensures left { IfOk result (λ printed. Leaves (⟦<Ops as Listing>⟧.operations ops.now) job.now.command job.now.options script.now printed.end (string_bytes printed.text) printed.left) }
    ensures refused { IfErr result (λ e. IsRefusedFor job.now script.now e) }
{
    if has_too_many(job, script.ranks()) {
        return Err(RunError::TooManyProcesses);
    }
    match job.command {
        Command::Run => Ok(print(workers, alloc, script, &job.options, observer, ops)?),
        Command::Eval => Ok(print_evaluation(alloc, script, ops)?),
        Command::Check => Ok(Printed {
            text: check_text(alloc, script)?,
            end: End::Finished,
            left: Left::nothing(alloc),
        }),
    }
}

/// The same of a run in threads, which may wait for them. Before each step of a process at the bus `gate` is asked; `GateGaveUp` comes only
/// where the gate may give up there. A thread that the system refuses is want of memory.
#[tactic(auto, using(crate::proofs::Less::comes_printed))]
pub fn print_job_in_threads<T: Threads + Wait + Sync, G: Gate + Sync>(
    rt: &T,
    alloc: Global,
    job: &Job,
    script: &Script,
    observer: &mut dyn Observer,
    gate: &G,
    ops: &Ops,
) -> Result<Printed, RunError>
    requires threads { is_in_threads job.now ≡ true }
    ensures prints { IfOk result (λ printed. ComesTo IsPrinted (⟦<Ops as Listing>⟧.operations ops.now) job.now.command job.now.options script.now printed.end (string_bytes printed.text)) }
    ensures founded { IfOk result (λ printed. ComesTo IsFounded (⟦<Ops as Listing>⟧.operations ops.now) job.now.command job.now.options script.now printed.end (string_bytes printed.text)) }
    ensures left { IfOk result (λ printed. Leaves (⟦<Ops as Listing>⟧.operations ops.now) job.now.command job.now.options script.now printed.end (string_bytes printed.text) printed.left) }
    ensures refused { IfErr result (λ e. IsEndedFor (G.gives_up gate.now) job.now script.now e) }
{
    if has_too_many(job, script.ranks()) {
        return Err(RunError::TooManyProcesses);
    }
    match print_threads(rt, alloc, script, &job.options, observer, gate, ops) {
        Ok(printed) => Ok(printed),
        Err(ThreadsError::OutOfMemory) => Err(RunError::Memory),
        Err(ThreadsError::GateGaveUp) => Err(RunError::GateGaveUp),
    }
}

// Whether ranks are to be run with too many relays.
fn has_too_many(job: &Job, ranks: u8) -> bool
    requires { ranks ≤ 64 }
    ensures many { IsTrue result → (job.now.command ≡ Command.Run) × (64 < ranks + job.now.options.relays) }
    ensures few { IsFalse result → job.now.command ≡ Command.Run → ranks + job.now.options.relays ≤ 64 }
{
    match job.command {
        Command::Run => job.options.relays > MOST_PROCESSES - ranks,
        Command::Eval => false,
        Command::Check => false,
    }
}
