//! What a run comes to.
ghost use Rattle.std.specs.Prelude.{◌≡◌, ◌++◌, ◌<◌, ◌≤◌, ◌+◌, ◌∷◌, [], IfOk, OnOk, map};
ghost use Rattle.mpx_node.specs.Shown.{node_of};
ghost use Rattle.mpx_meaning.specs.Evaluation.{State};
ghost use Rattle.mpx_meaning.specs.Reports.{transcripts_of};
ghost use Rattle.mpx_meaning.specs.Ends.{end_view};
ghost use Rattle.mpx_rank.specs.Places.{end_of_rank};
ghost use Rattle.mpx_system.specs.Runs.{AreAll, AreWhole, Begin, IsEvaluationOf, IsOver, IsRun};
ghost use Rattle.mpx_sim.specs.Ends.{AllMadeOr, nodes_of};
ghost use Rattle.mpx_sim.specs.Running.{ProcessView};
ghost use Rattle.mpx_sim.specs.Shown.{process_of};
ghost use Rattle.mpx_sim.specs.Turns.{AreAfter};

use crate::observer::Observer;
use crate::process::Process;
use crate::turns::simulate;
use crate::workers::Workers;
use join_core::OutOfMemory;
use mpx_meaning::{RankEnd, Report};
use mpx_node::{Node, drop_nodes};
use mpx_num::{Listing, Ops};
use mpx_script::Script;
use mpx_statement::Options;
use std::alloc::Global;

/// What a run comes to, and the node of each process: first those of the ranks, then the relays'.
#[derive(Drop)]
pub struct Run {
    /// The lines of each rank, and who waits.
    pub report: Report,
    /// The node of each process, by its number.
    pub nodes: Vec<Node>,
    /// How many turns were made: the turn that ends a run before its last doesn't count.
    pub turns: u32,
}

impl Run {
    /// Drops it. A crate that does so by itself proves once more how a node is dropped.
    pub fn let_go(self) {
        let Run { report, nodes, .. } = self;
        drop(report);
        drop_nodes(nodes);
    }
}

/// Runs a script's ranks, and relays, over an interconnect that loses, repeats and reorders frames.
///
/// In each turn every rank goes on with its script until an outcome is missing, and each process drops what all
/// members have harvested. Then each process whose last list of frames is out makes its next: what others may lack of its
/// board, in frames of at most 1,048,576 bytes, of which one comes in this turn and one in each turn after it, all to one
/// process, so many places on as the schedule says that is next. A frame that is drawn to be lost never comes. The frames of
/// this turn come in a drawn order, and are joined to the boards of their processes; one in four of them comes again, one to
/// four turns later. The run ends once all ranks have finished, once no turn can change anything any more, or with the last
/// turn. Equal options give equal runs.
///
/// `script` was read with `ops`, the job's own operations. Of `options` count `relays`, how many processes there are beside the
/// ranks, with these 64 at most; `turns`, how many are made at most; `loss`, how many frames of a hundred are lost, where 100
/// loses each; `seed`, from which all that is drawn follows; and, where `workers` are threads, `workers`, how many they are. That ranks still
/// wait at the end is no error: `report.waiting` has them; where turns were left and not every frame is lost, they wait in every
/// run: the lines are all lines of the evaluation, and those wait that have something left there. An `Err` is want of memory, and
/// leaves nothing of the run.
///
/// `observer` looks on: it is told of each frame that is made and of each that came, of each rank's new lines, of each turn but the one that ends
/// the run before its last, and once, in any case, that the run is over. [`Unobserved`](crate::Unobserved) does nothing with it.
pub fn run_sim<W: Workers>(
    workers: &W,
    alloc: Global,
    script: &Script,
    options: &Options,
    observer: &mut dyn Observer,
    ops: &Ops,
) -> Result<Run, OutOfMemory>
    requires may { W.may_work workers.now }
    requires few { script.now.ranks + options.now.relays ≤ 64 }
    ensures run { IfOk result (λ run. IsRun (⟦<Ops as Listing>⟧.operations ops.now) script.now options.now.relays (map node_of run.nodes.items) (transcripts_of run.report) run.report.waiting.items) }
    ensures begins { IfOk result (λ run. (evaluation : State) → IsEvaluationOf (⟦<Ops as Listing>⟧.operations ops.now) script.now evaluation → Begin (transcripts_of run.report) evaluation) }
    ensures whole { IfOk result (λ run. (evaluation : State) → IsEvaluationOf (⟦<Ops as Listing>⟧.operations ops.now) script.now evaluation → AreWhole (transcripts_of run.report) run.report.waiting.items evaluation) }
    ensures turns { IfOk result (λ run. AreAfter (⟦<Ops as Listing>⟧.operations ops.now) script.now options.now.relays options.now.seed options.now.loss run.turns (map node_of run.nodes.items)) }
    ensures ended { IfOk result (λ run. AllMadeOr run.turns options.now.turns (IsOver (⟦<Ops as Listing>⟧.operations ops.now) script.now options.now.relays options.now.loss (map node_of run.nodes.items) (transcripts_of run.report) run.report.waiting.items)) }
    ensures rests { IfOk result (λ run. run.turns < options.now.turns → options.now.loss < 100 → (evaluation : State) → IsEvaluationOf (⟦<Ops as Listing>⟧.operations ops.now) script.now evaluation → AreAll (transcripts_of run.report) run.report.waiting.items script.now.ranks evaluation) }
{
    let ran = simulate(workers, alloc, script, options, observer, ops);
    observer.over();
    let (processes, turns) = ran?;
    let ranks = script.ranks();
    let (mut ends, nodes) = parts_of(alloc, processes)?;
    ends.truncate(ranks as usize);
    match Report::of(alloc, ends) {
        Ok(report) => Ok(Run {
            report,
            nodes,
            turns,
        }),
        Err(e) => {
            drop_nodes(nodes);
            Err(e)
        }
    }
}

// How each process's rank ends, and its node.
fn parts_of(
    alloc: Global,
    processes: Vec<Process<'_>>,
) -> Result<(Vec<RankEnd>, Vec<Node>), OutOfMemory>
    ensures ends { IfOk result (λ parts. map end_view parts.0.items ≡ map (λ (v : ProcessView). end_of_rank v.rank) (map process_of processes.entry.items)) }
    ensures nodes { IfOk result (λ parts. map node_of parts.1.items ≡ nodes_of (map process_of processes.entry.items)) }
{
    let mut ends = Vec::new(alloc);
    let mut nodes = Vec::new(alloc);
    for process in processes {
        push_parts(alloc, process, &mut ends, &mut nodes)?;
    }
    Ok((ends, nodes))
}

// Adds the end and the node of a process.
fn push_parts(
    alloc: Global,
    process: Process<'_>,
    ends: &mut Vec<RankEnd>,
    nodes: &mut Vec<Node>,
) -> Result<(), OutOfMemory>
    ensures ends { OnOk result (map end_view ends.new.items ≡ map end_view ends.old.items ++ end_of_rank (process_of process.entry).rank ∷ []) }
    ensures nodes { OnOk result (map node_of nodes.new.items ≡ map node_of nodes.old.items ++ (process_of process.entry).node ∷ []) }
{
    let (node, end) = process.into_parts(alloc)?;
    ends.push(end)?;
    nodes.push(node)?;
    Ok(())
}
