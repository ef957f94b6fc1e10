//! What the processes of a run do side by side, each by itself.
ghost use Rattle.std.specs.Prelude.{◌≡◌, ◌<◌, All, OnOk, false, length, map};
ghost use Rattle.mpx_num.specs.Own.{operation_of};
ghost use Rattle.mpx_sim.specs.Shown.{process_of};
ghost use Rattle.mpx_sim.specs.SideBySide.{AllGoOn, AllMake, AreReady, GoesOn, IsReady, taken};

use crate::frame_under_way::FrameUnderWay;
use crate::process::Process;
use crate::schedule::Schedule;
use crate::shares::for_each_share;
use join_core::OutOfMemory;
use mpx_num::{Listing, Ops};
use std::alloc::Global;
use std::thread::Threads;

// The job's own operations, lent to threads: that they may share these is plain of this type alone, whatever else they see.
#[derive(Drop)]
struct Lent<'a> {
    ops: &'a Ops,
}

/// A turn in which processes go on.
#[derive(Drop)]
pub struct Turn<'a> {
    /// Its number.
    pub(crate) number: u64,
    /// The turn behind it, to which each process looks ahead, where there is one.
    pub(crate) next: Option<u64>,
    /// So many processes are ranks.
    pub(crate) ranks: usize,
    /// Among these are the frames that come in it.
    pub(crate) frames: &'a [FrameUnderWay],
}

/// Each process takes the frames that come to it in this turn, and goes on by itself then: in at most so many threads. It answers whether one
/// moved or dropped anything.
pub(crate) fn go_on_all<R: Threads + Sync>(
    rt: &R,
    alloc: Global,
    threads: usize,
    processes: &mut [Process<'_>],
    turn: &Turn<'_>,
    ops: &Ops,
) -> Result<bool, OutOfMemory>
    requires { AreReady processes.old }
    ensures goes { OnOk result (AllGoOn (⟦<Ops as Listing>⟧.operations ops.now) turn.now.ranks turn.now.number turn.now.frames.now (map process_of processes.old) (map process_of processes.new)) }
    ensures ready { OnOk result (AreReady processes.new) }
{
    let (number, next) = (turn.number, turn.next);
    let (ranks, frames) = (turn.ranks, turn.frames);
    let lent = &Lent { ops };
    let work = |place: usize, process: &mut Process<'_>|
        requires { IsReady process.now }
        ensures { process.exit.now.notes.failed ≡ false → GoesOn (map (λ b. operation_of (word_bytes (b.vtable, b.value)) (fits_type (b.vtable, b.value)) (combination (b.vtable, b.value))) lent.entry.now.ops.now.list.items) ranks place (taken place number frames.entry.now (process_of process.entry.now)) (process_of process.exit.now) × IsReady process.exit.now }
    { process.take_and_go_on(alloc, place, ranks, frames, number, next, lent.ops) };
    for_each_share(rt, processes, threads, &work);
    none_failed(processes)?;
    Ok(one_changed(processes))
}

/// The same, one process after the other.
pub(crate) fn go_on_in_turn(
    alloc: Global,
    processes: &mut [Process<'_>],
    turn: &Turn<'_>,
    ops: &Ops,
) -> Result<bool, OutOfMemory>
    requires { AreReady processes.old }
    ensures goes { OnOk result (AllGoOn (⟦<Ops as Listing>⟧.operations ops.now) turn.now.ranks turn.now.number turn.now.frames.now (map process_of processes.old) (map process_of processes.new)) }
    ensures ready { OnOk result (AreReady processes.new) }
{
    let (number, next) = (turn.number, turn.next);
    let (ranks, frames) = (turn.ranks, turn.frames);
    for place in 0..processes.len() {
        processes[place].take_and_go_on(alloc, place, ranks, frames, number, next, ops);
    }
    none_failed(processes)?;
    Ok(one_changed(processes))
}

/// Each process whose last list is out says what it has, and notes the frames of the next list, one process after the other: those that it made
/// ahead, or else it makes them now.
pub(crate) fn say_all(
    alloc: Global,
    processes: &mut [Process<'_>],
    schedule: &Schedule,
    turn: u64,
) -> Result<(), OutOfMemory>
    requires turn { turn < 4294967296 }
    requires ready { AreReady processes.old }
    ensures { OnOk result (AllMake schedule.now.shifts.items (length processes.old) turn processes.old processes.new) }
{
    let count = processes.len();
    for place in 0..count {
        processes[place].say(alloc, count, schedule, turn)?;
    }
    Ok(())
}

// Whether memory was wanting for none.
fn none_failed(processes: &[Process<'_>]) -> Result<(), OutOfMemory>
    ensures { OnOk result (All (λ p. p.notes.failed ≡ false) processes.now) }
{
    for process in processes {
        if process.notes.failed {
            return Err(OutOfMemory);
        }
    }
    Ok(())
}

// Whether one moved or dropped anything.
fn one_changed(processes: &[Process<'_>]) -> bool {
    processes.iter().any(|process| process.notes.changed)
}
