//! The turns of a run, and when it ends.
ghost use Rattle.std.specs.Prelude.{◌≡◌, ◌<◌, ◌≤◌, ◌+◌, ◌⊎◌, [], IfOk, OnOk, false, length, map, true, List, ℕ};
ghost use Rattle.mpx_num.specs.declared.own.Operation.{Operation};
ghost use Rattle.mpx_meaning.specs.Evaluation.{Script as Statements};
ghost use Rattle.mpx_system.specs.Runs.{HaveOneBoard};
ghost use Rattle.mpx_system.specs.Systems.{System};
ghost use Rattle.mpx_sim.specs.Ends.{AllLack, AllMadeOr, HaveFinished, OneWaits, RestsBy, nodes_of};
ghost use Rattle.mpx_sim.specs.Running.{AreOfRun, HasTurned, HaveCome, IsUnderWay};
ghost use Rattle.mpx_sim.specs.Senders.{SenderView};
ghost use Rattle.mpx_sim.specs.Shown.{frames_of, moment_of, process_of, schedule_of};
ghost use Rattle.mpx_sim.specs.SideBySide.{AreReady};
ghost use Rattle.mpx_sim.specs.Turns.{Alone, Coming, FrameView, Moment};

use crate::network::{Network, deliver, hand_out, keep_some, send_all};
use crate::observer::{Observer, Progress};
use crate::process::Process;
use crate::side_by_side::{Turn, say_all};
use crate::start::start;
use crate::workers::Workers;
use join_core::{Exact, OutOfMemory};
use mpx_num::{Listing, Ops};
use mpx_script::Script;
use mpx_statement::Options;
use std::alloc::Global;

/// The processes of a script's run after its last turn, and how many turns were made: all turns are used up, all ranks have
/// finished, or no turn to come changes anything.
pub(crate) fn simulate<'a, W: Workers>(
    workers: &W,
    alloc: Global,
    script: &'a Script,
    options: &Options,
    observer: &mut dyn Observer,
    ops: &Ops,
) -> Result<(Vec<Process<'a>>, u32), OutOfMemory>
    requires may { W.may_work workers.now }
    requires few { script.now.ranks + options.now.relays ≤ 64 }
    ensures run { IfOk result (λ ran. AreOfRun (⟦<Ops as Listing>⟧.operations ops.now) script.now options.now.relays options.now.seed options.now.loss ran.1 (map process_of ran.0.items)) }
    ensures ended { IfOk result (λ ran. AllMadeOr ran.1 options.now.turns (RestsBy options.now.loss script.now.ranks (map process_of ran.0.items))) }
{
    let mut processes = start(alloc, script, options.relays, observer.follows_posts())?;
    let mut network = Network::new(alloc, options, processes.len())?;
    let plan = Plan {
        workers: workers.count(options, processes.len()),
        ranks: usize::from(script.ranks()),
        statements: left_of(&processes),
        turns: options.turns,
        in_order: observer.follows_frames(),
    };
    let mut changed = first(workers, alloc, &plan, &mut processes, observer, ops)?;
    for number in 0..options.turns {
        let over = is_over(alloc, &mut processes, plan.ranks, changed, &network, ops)?;
        if over {
            return Ok((processes, number));
        }
        exchange(alloc, &plan, &mut processes, &mut network, number, observer)?;
        observer.turn(number + 1, progress(&processes, &plan));
        changed = go_further(
            workers,
            alloc,
            &plan,
            &mut processes,
            &mut network,
            number,
            observer,
            ops,
        )?;
    }
    Ok((processes, options.turns))
}

// How a run is made: by so many workers, with so many ranks, so many statements in all and so many turns at most; and whether frames come one after
// the other, in their order.
#[derive(Drop)]
struct Plan {
    workers: usize,
    ranks: usize,
    statements: usize,
    turns: u32,
    in_order: bool,
}

impl Plan {
    // Whether the turn of this number is the last that may be made.
    fn is_last(&self, number: u32) -> bool
        ensures last { result ≡ true → self.now.turns ≤ number + 1 }
        ensures further { result ≡ false → number + 1 < self.now.turns }
    {
        number >= self.turns.saturating_sub(1)
    }

    // The turn to which processes look ahead: this one, where they work in threads, so that these are started once a turn.
    fn ahead(&self, turn: u64) -> Option<u64> {
        if self.workers > 1 { Some(turn) } else { None }
    }
}

// Each process goes on by itself before the first turn, where there is one, and looks ahead to it. It answers whether one moved or dropped anything.
fn first<W: Workers>(
    workers: &W,
    alloc: Global,
    plan: &Plan,
    processes: &mut [Process<'_>],
    observer: &mut dyn Observer,
    ops: &Ops,
) -> Result<bool, OutOfMemory>
    requires may { W.may_work workers.now }
    requires count { plan.now.ranks ≤ length processes.old }
    requires ready { AreReady processes.old }
    ensures run { OnOk result ((script : Statements) (ranks size : ℕ) (begun : Moment) (frames : List FrameView) → plan.now.ranks ≤ ranks → IsUnderWay (⟦<Ops as Listing>⟧.operations ops.now) script ranks size begun Alone (map process_of processes.old) frames
        → IsUnderWay (⟦<Ops as Listing>⟧.operations ops.now) script ranks size begun Alone (map process_of processes.new) frames) }
    ensures ready { OnOk result (0 < plan.now.turns → AreReady processes.new) }
{
    if plan.turns == 0 {
        return Ok(false);
    }
    let at = Turn {
        number: 0,
        next: plan.ahead(0),
        ranks: plan.ranks,
        frames: &[],
    };
    let changed = workers.have_go_on(alloc, plan.workers, processes, &at, ops)?;
    tell_more(processes, plan.ranks, 0, observer);
    Ok(changed)
}

// Every process whose last list is out says what it has, the frames of its next one go out, and those that come are mixed. Where they are to come in
// their order, or no turn is made behind this one, they come.
fn exchange(
    alloc: Global,
    plan: &Plan,
    processes: &mut [Process<'_>],
    network: &mut Network,
    number: u32,
    observer: &mut dyn Observer,
) -> Result<(), OutOfMemory>
    requires { AreReady processes.old }
    ensures run { OnOk result ((operations : List Operation) (script : Statements) (ranks size : ℕ) (begun : System) (senders : ℕ → SenderView) → plan.now.ranks ≤ ranks → OneWaits plan.now.ranks (map process_of processes.old)
        → IsUnderWay operations script ranks size (moment_of begun network.old senders) Alone (map process_of processes.old) (frames_of network.old)
        → IsUnderWay operations script ranks size (moment_of begun network.old senders) (Coming number (schedule_of network.new.schedule)) (map process_of processes.new) (frames_of network.new)) }
    ensures came { OnOk result ((plan.now.in_order ≡ true) ⊎ (plan.now.turns ≤ number + 1) → HaveCome number (frames_of network.new) (map process_of processes.new)) }
    ensures loss { OnOk result (network.new.schedule.loss ≡ network.old.schedule.loss) }
    ensures ready { OnOk result (AreReady processes.new) }
{
    let turn = u64::from(number);
    say_all(alloc, processes, &network.schedule, turn)?;
    send_all(alloc, processes, network, observer)?;
    network.mix();
    let in_order = plan.in_order | plan.is_last(number);
    deliver(alloc, processes, network, turn, in_order, observer)
}

// Where a turn is made behind this one, each process takes the frames that still come to it, and goes on by itself then; one in four of the frames
// comes again. It answers whether one moved or dropped anything.
fn go_further<W: Workers>(
    workers: &W,
    alloc: Global,
    plan: &Plan,
    processes: &mut [Process<'_>],
    network: &mut Network,
    number: u32,
    observer: &mut dyn Observer,
    ops: &Ops,
) -> Result<bool, OutOfMemory>
    requires may { W.may_work workers.now }
    requires count { plan.now.ranks ≤ length processes.old }
    requires ready { AreReady processes.old }
    requires came { (plan.now.in_order ≡ true) ⊎ (plan.now.turns ≤ number + 1) → HaveCome number (frames_of network.old) (map process_of processes.old) }
    ensures run { OnOk result ((script : Statements) (ranks size : ℕ) (begun : Moment) → plan.now.ranks ≤ ranks
        → IsUnderWay (⟦<Ops as Listing>⟧.operations ops.now) script ranks size begun (Coming number (schedule_of network.old.schedule)) (map process_of processes.old) (frames_of network.old)
        → HasTurned (⟦<Ops as Listing>⟧.operations ops.now) script ranks size plan.now.turns number begun (schedule_of network.new.schedule) (map process_of processes.new) (frames_of network.new)) }
    ensures loss { OnOk result (network.new.schedule.loss ≡ network.old.schedule.loss) }
    ensures ready { OnOk result (number + 1 < plan.now.turns → AreReady processes.new) }
{
    if plan.is_last(number) {
        return Ok(false);
    }
    let turn = u64::from(number);
    let coming = network.coming(plan.in_order);
    let at = Turn {
        number: turn,
        next: plan.ahead(turn.saturating_add(1)),
        ranks: plan.ranks,
        frames: coming,
    };
    let changed = workers.have_go_on(alloc, plan.workers, processes, &at, ops)?;
    keep_some(network, turn);
    hand_out(processes, &mut network.spare);
    tell_more(processes, plan.ranks, number.saturating_add(1), observer);
    Ok(changed)
}

// Tells whoever looks on of ranks' new posts and lines, in the turn after so many.
fn tell_more(processes: &[Process<'_>], ranks: usize, turns: u32, observer: &mut dyn Observer)
    requires { ranks ≤ length processes.now }
{
    for p in 0..ranks {
        processes[p].tell_posts(turns.saturating_add(1), observer);
    }
    for p in 0..ranks {
        let lines = processes[p].lines();
        if lines.len() > processes[p].notes.told {
            observer.told(turns.saturating_add(1), processes[p].me(), lines);
        }
    }
}

// Whether the run ends here: nobody can hear anything new, or every rank has finished.
//
// Where nobody moved or dropped anything, all boards are equal and no rank has at hand what it waits for, a turn more would bring acknowledgements at
// most, of which no call, front or result comes; and where every frame is lost, it would bring nothing.
fn is_over(
    alloc: Global,
    processes: &mut [Process<'_>],
    count: usize,
    changed: bool,
    network: &Network,
    ops: &Ops,
) -> Result<bool, OutOfMemory>
    requires { count ≤ length processes.old }
    ensures run { OnOk result ((script : Statements) (ranks size : ℕ) (begun : Moment) (frames : List FrameView) → IsUnderWay (⟦<Ops as Listing>⟧.operations ops.now) script ranks size begun Alone (map process_of processes.old) frames
        → IsUnderWay (⟦<Ops as Listing>⟧.operations ops.now) script ranks size begun Alone (map process_of processes.new) frames) }
    ensures over { IfOk result (λ over. over ≡ true → RestsBy network.now.schedule.loss count (map process_of processes.new)) }
    ensures further { IfOk result (λ over. over ≡ false → OneWaits count (map process_of processes.new)) }
    ensures ready { OnOk result (AreReady processes.old → AreReady processes.new) }
{
    let rests = is_at_rest(alloc, processes, count, changed, network, ops)?;
    if rests {
        return Ok(true);
    }
    Ok(are_finished(processes, count))
}

// Whether nobody can hear anything new: nobody has just moved or dropped anything, every frame is lost or all boards are equal, and no rank has at
// hand what it waits for. Each rank is asked for that only where it would be the last that is wanting.
fn is_at_rest(
    alloc: Global,
    processes: &mut [Process<'_>],
    count: usize,
    changed: bool,
    network: &Network,
    ops: &Ops,
) -> Result<bool, OutOfMemory>
    requires { count ≤ length processes.old }
    ensures run { OnOk result ((script : Statements) (ranks size : ℕ) (begun : Moment) (frames : List FrameView) → IsUnderWay (⟦<Ops as Listing>⟧.operations ops.now) script ranks size begun Alone (map process_of processes.old) frames
        → IsUnderWay (⟦<Ops as Listing>⟧.operations ops.now) script ranks size begun Alone (map process_of processes.new) frames) }
    ensures rests { IfOk result (λ rests. rests ≡ true → RestsBy network.now.schedule.loss count (map process_of processes.new)) }
    ensures ready { OnOk result (AreReady processes.old → AreReady processes.new) }
{
    if changed {
        return Ok(false);
    }
    let lost = network.loses_all();
    if !lost && !are_same(processes) {
        return Ok(false);
    }
    let lack = all_lack(alloc, processes, count, ops)?;
    if !lack {
        return Ok(false);
    }
    if lost {
        return Ok(true);
    }
    Ok(are_same(processes))
}

// Whether every rank has nothing left, or waits for a call that isn't done and can't be by what its board has.
fn all_lack(
    alloc: Global,
    processes: &mut [Process<'_>],
    count: usize,
    ops: &Ops,
) -> Result<bool, OutOfMemory>
    requires { count ≤ length processes.old }
    ensures run { OnOk result ((script : Statements) (ranks size : ℕ) (begun : Moment) (frames : List FrameView) → IsUnderWay (⟦<Ops as Listing>⟧.operations ops.now) script ranks size begun Alone (map process_of processes.old) frames
        → IsUnderWay (⟦<Ops as Listing>⟧.operations ops.now) script ranks size begun Alone (map process_of processes.new) frames) }
    ensures lack { IfOk result (λ lack. lack ≡ true → AllLack count (map process_of processes.new)) }
    ensures ready { OnOk result (AreReady processes.old → AreReady processes.new) }
{
    for rank in 0..count {
        let lacks = processes[rank].lacks(alloc, ops)?;
        if !lacks {
            return Ok(false);
        }
    }
    Ok(true)
}

// How far the run is.
fn progress(processes: &[Process<'_>], plan: &Plan) -> Progress {
    Progress {
        finished: finished(processes, plan.ranks),
        ranks: plan.ranks,
        done: plan.statements.saturating_sub(left_of(processes)),
        all: plan.statements,
    }
}

// How many statements are left to the processes.
fn left_of(processes: &[Process<'_>]) -> usize {
    let mut left: usize = 0;
    for process in processes {
        left = left.saturating_add(process.left());
    }
    left
}

// How many of the ranks have finished.
fn finished(processes: &[Process<'_>], ranks: usize) -> usize {
    processes
        .iter()
        .take(ranks)
        .filter(|process| !process.is_waiting())
        .count()
}

// Whether every rank has finished.
fn are_finished(processes: &[Process<'_>], count: usize) -> bool
    requires { count ≤ length processes.now }
    ensures all { result ≡ true → HaveFinished count (map process_of processes.now) }
    ensures one { result ≡ false → OneWaits count (map process_of processes.now) }
{
    for p in 0..count {
        if processes[p].is_waiting() {
            return false;
        }
    }
    true
}

// Whether all boards are equal.
fn are_same(processes: &[Process<'_>]) -> bool
    ensures { result ≡ true → HaveOneBoard (nodes_of (map process_of processes.now)) }
{
    for p in 1..processes.len() {
        if !processes[0].board().same(processes[p].board()) {
            return false;
        }
    }
    true
}
