//! Who has the processes of a run go on: threads, or the caller alone.
ghost use Rattle.std.specs.Prelude.{◌<◌, OnOk, map};
ghost use denote.Param.Send.{IsSync};
ghost use Rattle.mpx_sim.specs.Shown.{process_of};
ghost use Rattle.mpx_sim.specs.SideBySide.{AllGoOn, AreReady};

use crate::process::Process;
use crate::side_by_side::{Turn, go_on_all, go_on_in_turn};
use join_core::OutOfMemory;
use mpx_num::{Listing, Ops};
use mpx_statement::Options;
use std::alloc::Global;
use std::thread::{Threads, available_parallelism};

// With fewer processes than this more than one thread doesn't pay.
const FEW_PROCESSES: usize = 32;

// A thread that isn't asked for pays with so many processes.
const PROCESSES_OF_A_THREAD: usize = 8;

/// Who has the processes of a run go on: [`InThreads`] or [`InOneThread`].
pub trait Workers {
    /// What they ask for: of threads, that these may share the handle by which they are made.
    ghost may_work: { Self → Type 0 };

    /// How many of them work side by side, where there are so many processes.
    fn count(&self, options: &Options, processes: usize) -> usize
        ensures { 0 < result };

    /// Each process takes the frames that come to it in this turn, and goes on by itself then: at most so many side by side. It answers whether
    /// one moved or dropped anything.
    fn have_go_on(
        &self,
        alloc: Global,
        count: usize,
        processes: &mut [Process<'_>],
        turn: &Turn<'_>,
        ops: &Ops,
    ) -> Result<bool, OutOfMemory>
        requires may { may_work self.now }
        requires ready { AreReady processes.old }
        ensures goes { OnOk result (AllGoOn (⟦<Ops as Listing>⟧.operations ops.now) turn.now.ranks turn.now.number turn.now.frames.now (map process_of processes.old) (map process_of processes.new)) }
        ensures ready { OnOk result (AreReady processes.new) };
}

/// Threads: as many as the options ask for, or else as pay.
#[derive(Drop)]
pub struct InThreads<'a, R> {
    /// The leave to make them.
    pub rt: &'a R,
}

impl<'a, R: Threads + Sync> Workers for InThreads<'a, R> {
    ghost may_work = { λ _. IsSync R.row };

    fn count(&self, options: &Options, processes: usize) -> usize {
        if let Some(workers) = options.workers {
            return usize::from(workers).max(1);
        }
        if processes < FEW_PROCESSES {
            return 1;
        }
        match available_parallelism(self.rt) {
            Ok(processors) => processors
                .get()
                .min(processes / PROCESSES_OF_A_THREAD)
                .max(1),
            Err(_) => 1,
        }
    }

    fn have_go_on(
        &self,
        alloc: Global,
        count: usize,
        processes: &mut [Process<'_>],
        turn: &Turn<'_>,
        ops: &Ops,
    ) -> Result<bool, OutOfMemory> {
        go_on_all(self.rt, alloc, count, processes, turn, ops)
    }
}

/// The caller's thread alone, whatever the options ask for: so it needs no leave to make threads.
#[derive(Drop)]
pub struct InOneThread;

impl Workers for InOneThread {
    ghost may_work = { λ _. Unit {0} };

    fn count(&self, _options: &Options, _processes: usize) -> usize {
        1
    }

    fn have_go_on(
        &self,
        alloc: Global,
        _count: usize,
        processes: &mut [Process<'_>],
        turn: &Turn<'_>,
        ops: &Ops,
    ) -> Result<bool, OutOfMemory> {
        go_on_in_turn(alloc, processes, turn, ops)
    }
}
