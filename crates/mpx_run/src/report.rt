//! The text of a run or an evaluation.
ghost use Rattle.std.specs.Prelude.{◌≡◌, ◌++◌, ◌≤◌, ◌+◌, false, true, IfErr, IfOk, OnOk, length, map, string_bytes};
ghost use Rattle.mpx_meaning.specs.Reports.{transcripts_of};
ghost use Rattle.mpx_meaning.specs.Transcripts.{text_upto};
ghost use Rattle.mpx_threads.specs.Gates.{GivesUpAmong};
ghost use Rattle.mpx_run.specs.Founded.{IsSimulated, IsThreaded, cause_of, thread_cause};
ghost use Rattle.mpx_run.specs.Left.{IsLeftIn, transcripts_in};
ghost use Rattle.mpx_run.specs.Reports.{EndsSo, IsBy, IsEvaluatedText, lines_at};

use crate::end::{Cause, End};
use crate::follows::Follows;
use join_core::OutOfMemory;
use mpx_bus::{Port, drop_ports};
use mpx_eval::eval;
use mpx_meaning::{RankEnd, Report, push_lines};
use mpx_node::{Node, drop_nodes};
use mpx_num::{Listing, Ops};
use mpx_script::Script;
use mpx_sim::{Observer, Workers, run_sim};
use mpx_statement::Options;
use mpx_threads::{Gate, ThreadsError, run_threads};
use std::alloc::Global;
use std::sync::Wait;
use std::thread::Threads;

/// What a job comes to with a script.
#[derive(Drop)]
pub struct Printed {
    /// What is to be written.
    pub text: String,
    pub end: End,
    pub left: Left,
}

/// What is left of a job that has ended: to explain it by. Of a run it is what is left of a run with the text and the end that are printed.
#[derive(Drop)]
pub struct Left {
    /// How each rank ended, of whose lines the text is made; none of a script that is read alone.
    pub ends: Vec<RankEnd>,
    /// Of a simulated run the node of each process, by its number.
    pub nodes: Vec<Node>,
    /// Of a run in threads the port of each process.
    pub ports: Vec<Port>,
}

impl Left {
    /// Of a script that is read alone.
    pub(crate) fn nothing(alloc: Global) -> Left {
        Left {
            ends: Vec::new(alloc),
            nodes: Vec::new(alloc),
            ports: Vec::new(alloc),
        }
    }

    /// Drops it. A crate that does so by itself proves once more how a node is dropped.
    pub fn let_go(self) {
        let Left { ends, nodes, ports } = self;
        drop(ends);
        drop_nodes(nodes);
        drop_ports(ports);
    }
}

/// The lines of all ranks of a simulated run, each as `RANK: LINE`, rank by rank, and who waits, and why.
pub(crate) fn print<W: Workers>(
    workers: &W,
    alloc: Global,
    script: &Script,
    options: &Options,
    observer: &mut dyn Observer,
    ops: &Ops,
) -> Result<Printed, OutOfMemory>
    requires may { W.may_work workers.now }
    requires few { script.now.ranks + options.now.relays ≤ 64 }
    requires alone { options.now.threads ≡ false }
    ensures founded { IfOk result (λ printed. IsSimulated (⟦<Ops as Listing>⟧.operations ops.now) options.now script.now printed.end (string_bytes printed.text)) }
    ensures left { IfOk result (λ printed. IsLeftIn false (⟦<Ops as Listing>⟧.operations ops.now) options.now script.now printed.end (string_bytes printed.text) printed.left) }
{
    let run = run_sim(workers, alloc, script, options, observer, ops)?;
    let cause = cause_of(run.turns, options);
    let ports = Vec::new(alloc);
    print_report(alloc, run.report, run.nodes, ports, script.ranks(), cause)
}

// Why ranks wait where so many turns of a simulated run were made.
fn cause_of(made: u32, options: &Options) -> Cause
    ensures { result ≡ cause_of made options.now }
{
    if options.loss >= 100 {
        return Cause::AllLost;
    }
    if made >= options.turns {
        return Cause::TurnsUsedUp(options.turns);
    }
    Cause::InEveryRun
}

/// The lines of all ranks of a run in threads, each as `RANK: LINE`, rank by rank, and who waits.
pub(crate) fn print_threads<T: Threads + Wait + Sync, G: Gate + Sync>(
    rt: &T,
    alloc: Global,
    script: &Script,
    options: &Options,
    observer: &mut dyn Observer,
    gate: &G,
    ops: &Ops,
) -> Result<Printed, ThreadsError>
    requires few { script.now.ranks + options.now.relays ≤ 64 }
    requires threads { options.now.threads ≡ true }
    ensures founded { IfOk result (λ printed. IsThreaded (⟦<Ops as Listing>⟧.operations ops.now) options.now script.now printed.end (string_bytes printed.text)) }
    ensures left { IfOk result (λ printed. IsLeftIn true (⟦<Ops as Listing>⟧.operations ops.now) options.now script.now printed.end (string_bytes printed.text) printed.left) }
    ensures gave_up { IfErr result (λ e. e ≡ ThreadsError.GateGaveUp → GivesUpAmong (G.gives_up gate.now) (script.now.ranks + options.now.relays) options.now.turns) }
{
    let looks = observer.follows_threads();
    let follows = Follows { observer, looks };
    let run = run_threads(rt, alloc, script, options, gate, follows, ops)?;
    let cause = cause_in_threads(run.rests);
    let nodes = Vec::new(alloc);
    match print_report(alloc, run.report, nodes, run.ports, script.ranks(), cause) {
        Ok(printed) => Ok(printed),
        Err(_) => Err(ThreadsError::OutOfMemory),
    }
}

// Why ranks wait where a run in threads rests, or where that isn't known.
fn cause_in_threads(rests: bool) -> Cause
    ensures { result ≡ thread_cause rests }
{
    if rests {
        Cause::InEveryRun
    } else {
        Cause::Unknown
    }
}

/// The lines of all ranks of a script's evaluation, each as `RANK: LINE`, rank by rank, and who waits.
pub(crate) fn print_evaluation(
    alloc: Global,
    script: &Script,
    ops: &Ops,
) -> Result<Printed, OutOfMemory>
    ensures { IfOk result (λ printed. IsEvaluatedText (⟦<Ops as Listing>⟧.operations ops.now) script.now printed.end (string_bytes printed.text)) }
{
    let report = eval(alloc, script, ops)?;
    let nodes = Vec::new(alloc);
    let ports = Vec::new(alloc);
    let cause = Cause::InEveryRun;
    print_report(alloc, report, nodes, ports, script.ranks(), cause)
}

// The lines of all ranks, and who waits for this cause; what is left are these lines, nodes and ports.
fn print_report(
    alloc: Global,
    report: Report,
    nodes: Vec<Node>,
    ports: Vec<Port>,
    ranks: u8,
    cause: Cause,
) -> Result<Printed, OutOfMemory>
    requires { ranks ≤ length (transcripts_of report) }
    ensures text { IfOk result (λ printed. string_bytes printed.text ≡ text_upto (lines_at (transcripts_of report)) ranks) }
    ensures end { IfOk result (λ printed. EndsSo printed.end report.waiting.items) }
    ensures cause { IfOk result (λ printed. IsBy cause printed.end) }
    ensures lines { IfOk result (λ printed. transcripts_in printed.left ≡ transcripts_of report) }
    ensures nodes { IfOk result (λ printed. printed.left.nodes.items ≡ nodes.items) }
    ensures ports { IfOk result (λ printed. printed.left.ports.items ≡ ports.items) }
{
    match text_of(alloc, &report, ranks) {
        Ok(text) => {
            let Report { ends, waiting } = report;
            let end = end_of(waiting, cause);
            let left = Left { ends, nodes, ports };
            Ok(Printed { text, end, left })
        }
        Err(OutOfMemory) => {
            drop_nodes(nodes);
            drop_ports(ports);
            Err(OutOfMemory)
        }
    }
}

// The lines of all ranks.
fn text_of(alloc: Global, report: &Report, ranks: u8) -> Result<String, OutOfMemory>
    requires { ranks ≤ length (transcripts_of report.now) }
    ensures { IfOk result (λ text. string_bytes text ≡ text_upto (lines_at (transcripts_of report.now)) ranks) }
{
    let mut text = String::new(alloc);
    for p in 0..ranks {
        push_lines(&mut text, p, report.ends[p as usize].lines.as_slice())?;
    }
    Ok(text)
}

// Whether all are done, or who waits for this cause.
fn end_of(waiting: Vec<u8>, cause: Cause) -> End
    ensures end { EndsSo result waiting.items }
    ensures cause { IsBy cause result }
{
    if waiting.is_empty() {
        return End::Finished;
    }
    End::Waiting(waiting, cause)
}
