//! A run in threads: its bus, its processes, and what they come to.
ghost use Rattle.std.specs.Prelude.{◌≡◌, ◌+◌, ◌++◌, ◌∷◌, ◌<◌, ◌≤◌, [], ℕ, IfErr, IfOk, IsFalse, IsTrue, Ok, OnOk, length, map, slice_get, true};
ghost use Rattle.mpx_meaning.specs.Evaluation.{State};
ghost use Rattle.mpx_meaning.specs.Reports.{transcripts_of, which};
ghost use Rattle.mpx_system.specs.Runs.{AreAll, AreWhole, Begin, IsEvaluationOf};
ghost use Rattle.mpx_bus.specs.Buses.{table_of};
ghost use Rattle.mpx_bus.specs.declared.act.Setup.{Setup};
ghost use Rattle.mpx_threads.specs.declared.worker.Worked.{Worked as WorkedView};
ghost use Rattle.mpx_threads.specs.Gates.{GivesUpAmong};
ghost use Rattle.mpx_threads.specs.Plans.{Plans};
ghost use Rattle.mpx_threads.specs.ThreadRuns.{IsThreadRun};
ghost use Rattle.mpx_threads.specs.Work.{AreJobs, AreReady, NoneGaveUp, OneGaveUp};

use crate::gate::Gate;
use crate::gossip::GossipEnd;
use crate::onlooker::Onlooker;
use crate::processes::work_all;
use crate::rest::are_at_rest;
use crate::worker::{ReadyProcess, Worked};
use join_core::OutOfMemory;
use mpx_bus::{Bus, Named, Port};
use mpx_meaning::{RankEnd, Report};
use mpx_num::{Listing, Ops};
use mpx_script::Script;
use mpx_statement::Options;
use std::alloc::Global;
use std::marker::Brand;
use std::sync::Wait;
use std::thread::Threads;
use thiserror::Error;

/// So many frames have room in the queue of a run.
const ROOM: usize = 256;

/// What a run in threads comes to.
#[derive(Drop)]
pub struct ThreadRun {
    /// The lines of each rank, and who waits.
    pub report: Report,
    /// The queue that all ports share.
    pub bus: Bus,
    /// The port of each process: first those of the ranks, then the relays'.
    pub ports: Vec<Port>,
    /// Whether all ports say, once the threads have ended, that no rank can go on: all ranks have ended, or their ports have one board, and
    /// each that has something left waits for a call of which its port lacks a post. Then the lines are all lines of the evaluation, and the
    /// ranks that wait, wait in every run. Where it is false the run may have ended too early, as for want of turns.
    pub rests: bool,
}

/// Why a run in threads came to nothing.
#[derive(Clone, Copy, Debug, Drop, PartialEq, Eq, Error)]
pub enum ThreadsError {
    /// There was no more memory, or the system refused a thread.
    #[error("out of memory")]
    OutOfMemory,
    /// A gate gave up.
    #[error("gate gave up")]
    GateGaveUp,
}

impl From<OutOfMemory> for ThreadsError {
    ghost use Rattle.mpx_threads.specs.declared.run.ThreadsError.TheVariants.{OutOfMemory};

    ghost from_gives = { λ _ e. e ≡ OutOfMemory };

    fn from(_e: OutOfMemory) -> ThreadsError {
        ThreadsError::OutOfMemory
    }
}

/// Runs a script's ranks, and relays, in threads of this program, over one queue of frames: each rank has one that carries out its
/// statements and one that gossips, each relay one that gossips. A turn of a gossip takes a frame out of the queue and puts one in; each
/// process makes at most `options.turns` of them, and none once all ranks have ended, or nobody can hear anything new. The gate is asked
/// before each step, and `onlooker` is told now and then how far the run is, in the caller's thread. The seed and the loss aren't used.
/// `ops` are the job's own operations, which all threads read: the script was read with the same. Whether the run came to rest is told by
/// its ports, once all threads have ended. It may wait.
///
/// # Errors
/// `OutOfMemory` where memory was wanting in some thread, or the system refused one; `GateGaveUp` where the gate gave up at some
/// process's own step. All threads have ended then.
pub fn run_threads<G: Gate + Sync, O: Onlooker, R: Threads + Wait + Sync>(
    rt: &R,
    alloc: Global,
    script: &Script,
    options: &Options,
    gate: &G,
    onlooker: O,
    ops: &Ops,
) -> Result<ThreadRun, ThreadsError>
    requires { script.now.ranks + options.now.relays ≤ 64 }
    ensures gate { IfErr result (λ e. e ≡ ThreadsError.GateGaveUp → GivesUpAmong (G.gives_up gate.now) (script.now.ranks + options.now.relays) options.now.turns) }
    ensures run { IfOk result (λ run. IsThreadRun (⟦<Ops as Listing>⟧.operations ops.now) script.now options.now.relays (table_of run.bus) run.ports.items (transcripts_of run.report) run.report.waiting.items run.rests) }
    ensures begins { IfOk result (λ run. (evaluation : State) → IsEvaluationOf (⟦<Ops as Listing>⟧.operations ops.now) script.now evaluation → Begin (transcripts_of run.report) evaluation) }
    ensures whole { IfOk result (λ run. (evaluation : State) → IsEvaluationOf (⟦<Ops as Listing>⟧.operations ops.now) script.now evaluation → AreWhole (transcripts_of run.report) run.report.waiting.items evaluation) }
    ensures rests { IfOk result (λ run. run.rests ≡ true → (evaluation : State) → IsEvaluationOf (⟦<Ops as Listing>⟧.operations ops.now) script.now evaluation → AreAll (transcripts_of run.report) run.report.waiting.items script.now.ranks evaluation) }
{
    let (bus, jobs) = planned_bus(alloc, script, options.relays, ops)?;
    let worked = work_all(rt, alloc, &bus, gate, script, options, jobs, onlooker, ops)?;
    none_gave_up(worked.as_slice())?;
    let rests = are_at_rest(worked.as_slice(), script.ranks() as usize);
    let (mut ends, ports) = parts_of(alloc, worked)?;
    ends.truncate(script.ranks() as usize);
    let report = Report::of(alloc, ends)?;
    Ok(ThreadRun {
        report,
        bus,
        ports,
        rests,
    })
}

// The bus, and a job for each process, whose plan is the script's evaluation.
fn planned_bus(
    alloc: Global,
    script: &Script,
    relays: u8,
    ops: &Ops,
) -> Result<(Bus, Vec<ReadyProcess>), OutOfMemory>
    requires { script.now.ranks + relays ≤ 64 }
    ensures { IfOk result (λ r. (setup : Setup) × (AreReady script.now relays setup (table_of r.0) r.1.items × (⟦<Ops as Listing>⟧.operations ops.now ≡ setup.operations))) }
{
    let _ = script.ranks();
    bus_by::<Brand>(alloc, script, relays, ops)
}

// The bus, and a job for each process, by the setup that the call picks, which reads the operations.
fn bus_by<N: Named>(
    alloc: Global,
    script: &Script,
    relays: u8,
    ops: &Ops,
) -> Result<(Bus, Vec<ReadyProcess>), OutOfMemory>
    requires few { script.now.ranks + relays ≤ 64 }
    requires plan { Plans script.now relays N.setup }
    ensures { IfOk result (λ r. AreReady script.now relays N.setup (table_of r.0) r.1.items) }
{
    let _ = ops;
    let ranks = script.ranks();
    let (bus, ports) = Bus::new::<N>(alloc, ROOM, ranks, ranks + relays)?;
    let jobs = jobs_of(alloc, ports)?;
    Ok((bus, jobs))
}

// A job for each port.
fn jobs_of(alloc: Global, ports: Vec<Port>) -> Result<Vec<ReadyProcess>, OutOfMemory>
    ensures { IfOk result (λ jobs. AreJobs ports.items jobs.items) }
{
    let mut jobs = Vec::new(alloc);
    for port in ports {
        let Ok(me) = u8::try_from(jobs.len()) else {
            return Err(OutOfMemory);
        };
        jobs.push(ReadyProcess { me, port })?;
    }
    Ok(jobs)
}

// `GateGaveUp` where the gate gave up at a step of some process, and only there.
fn none_gave_up(worked: &[Worked]) -> Result<(), ThreadsError>
    ensures ok { OnOk result (NoneGaveUp worked.now) }
    ensures err { IfErr result (λ e. (e ≡ ThreadsError.GateGaveUp) × OneGaveUp worked.now) }
{
    if has_given_up(worked) {
        return Err(ThreadsError::GateGaveUp);
    }
    Ok(())
}

// Whether the gate gave up at a step of some process.
fn has_given_up(worked: &[Worked]) -> bool
    ensures some { IsTrue result → OneGaveUp worked.now }
    ensures none { IsFalse result → NoneGaveUp worked.now }
{
    for p in 0..worked.len() {
        match worked[p].gossip {
            GossipEnd::GaveUp => return true,
            GossipEnd::Over => {}
        }
    }
    false
}

// How each process's rank ends, and its port.
fn parts_of(alloc: Global, worked: Vec<Worked>) -> Result<(Vec<RankEnd>, Vec<Port>), OutOfMemory>
    ensures ends { IfOk result (λ parts. parts.0.items ≡ map (λ (w : WorkedView). w.end) worked.items) }
    ensures ports { IfOk result (λ parts. parts.1.items ≡ map (λ (w : WorkedView). w.port) worked.items) }
{
    let mut ends = Vec::new(alloc);
    let mut ports = Vec::new(alloc);
    for one in worked {
        push_parts(one, &mut ends, &mut ports)?;
    }
    Ok((ends, ports))
}

// Adds the end and the port of a process.
fn push_parts(
    worked: Worked,
    ends: &mut Vec<RankEnd>,
    ports: &mut Vec<Port>,
) -> Result<(), OutOfMemory>
    ensures ends { OnOk result (ends.new.items ≡ ends.old.items ++ worked.end ∷ []) }
    ensures ports { OnOk result (ports.new.items ≡ ports.old.items ++ worked.port ∷ []) }
{
    let Worked { port, end, .. } = worked;
    ends.push(end)?;
    ports.push(port)?;
    Ok(())
}
