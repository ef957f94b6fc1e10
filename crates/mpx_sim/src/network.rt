//! What goes from process to process in a run.
ghost use Rattle.std.specs.Prelude.{◌≡◌, ◌<◌, ◌↔◌, ◌≤◌, ◌++◌, ◌∷◌, [], ◌⊎◌, IfOk, IsFalse, IsTrue, List, OnOk, Some, length, map, slice_get, true, ℕ, ◌+◌};
ghost use Rattle.std.specs.List.Sorted.{IsPermutation};
ghost use Rattle.mpx_num.specs.declared.own.Operation.{Operation};
ghost use Rattle.mpx_board.specs.Boards.{IsBoardBelow};
ghost use Rattle.mpx_meaning.specs.Evaluation.{Script as Statements};
ghost use Rattle.mpx_sim.specs.Draws.{ScheduleView, all_below, drawn_once, drawn_times, generator, powers_below, shuffled};
ghost use Rattle.mpx_sim.specs.Running.{HaveCome, HaveGrown, IsUnderWay, ProcessView};
ghost use Rattle.mpx_sim.specs.Shown.{frame_of, frames_of, part_of, process_of, schedule_of};
ghost use Rattle.mpx_sim.specs.SideBySide.{AreReady, left_from, to_send};
ghost use Rattle.mpx_sim.specs.Turns.{Coming, FrameView, Moment, all_put_off, asked, drawn_again_for, drawn_for, joined, put_off, those_left, those_out};

use crate::frame_under_way::FrameUnderWay;
use crate::observer::Observer;
use crate::process::Process;
use crate::schedule::Schedule;
use join_core::OutOfMemory;
use mpx_rope::Rope;
use mpx_statement::Options;
use std::alloc::Global;
use std::mem;

/// What goes from process to process: the frames that are under way, the room of those that have come, and what is drawn.
#[derive(Drop)]
pub(crate) struct Network {
    frames: Vec<FrameUnderWay>,
    pub(crate) spare: Vec<Rope>,
    pub(crate) schedule: Schedule,
}

impl Network {
    /// No frame is under way between so many processes.
    pub(crate) fn new(
        alloc: Global,
        options: &Options,
        processes: usize,
    ) -> Result<Network, OutOfMemory>
        ensures frames { IfOk result (λ network. network.frames.items ≡ []) }
        ensures loss { IfOk result (λ network. network.schedule.loss ≡ options.now.loss) }
        ensures seed { IfOk result (λ network. network.schedule.words ≡ drawn_times (powers_below 6 processes) (generator options.now.seed)) }
        ensures shifts { IfOk result (λ network. network.schedule.shifts.items ≡ shuffled 0 (powers_below 6 processes) (generator options.now.seed) (all_below 6 processes)) }
    {
        Ok(Network {
            frames: Vec::new(alloc),
            spare: Vec::new(alloc),
            schedule: Schedule::new(alloc, options.seed, options.loss, processes)?,
        })
    }

    /// Whether every frame is lost.
    pub(crate) fn loses_all(&self) -> bool
        ensures { IsTrue result ↔ (100 ≤ self.now.schedule.loss) }
    {
        self.schedule.loses_all()
    }

    /// The frames that are still to come: none, where those of this turn have come one after the other.
    pub(crate) fn coming(&self, in_order: bool) -> &[FrameUnderWay]
        ensures some { ((result.now ≡ []) × (in_order ≡ true)) ⊎ (result.now ≡ self.now.frames.items) }
        ensures all { IsFalse in_order → result.now ≡ self.now.frames.items }
    {
        if in_order { &[] } else { &self.frames }
    }

    /// Brings the frames into an order that is drawn.
    pub(crate) fn mix(&mut self)
        ensures frames { IsPermutation self.old.frames.items self.new.frames.items }
        ensures words { self.new.schedule.words ≡ drawn_times (length self.old.frames.items) self.old.schedule.words }
        ensures loss { self.new.schedule.loss ≡ self.old.schedule.loss }
        ensures shifts { self.new.schedule.shifts ≡ self.old.schedule.shifts }
    {
        self.schedule.shuffle(&mut self.frames);
    }
}

/// Every process that has no room to write its next frame into gets that of one that has come, where there is such.
pub(crate) fn hand_out(processes: &mut [Process<'_>], spare: &mut Vec<Rope>)
    ensures same { map process_of processes.new ≡ map process_of processes.old }
    ensures ready { AreReady processes.old → AreReady processes.new }
{
    for p in 0..processes.len() {
        hand_to(&mut processes[p], spare);
    }
}

// A process gets room, where it has none. Where memory for that is refused, the room goes.
fn hand_to(process: &mut Process<'_>, spare: &mut Vec<Rope>)
    ensures same { process_of process.new ≡ process_of process.old }
    ensures ahead { process.new.notes.ahead ≡ process.old.notes.ahead }
    ensures last { process.new.notes.last ≡ process.old.notes.last }
{
    if !process.notes.spare.is_empty() {
        return;
    }
    if let Some(bytes) = spare.pop() {
        let _ = process.notes.spare.push(bytes);
    }
}

/// The frames that every process has made go out, where they aren't lost.
pub(crate) fn send_all(
    alloc: Global,
    processes: &mut [Process<'_>],
    network: &mut Network,
    observer: &mut dyn Observer,
) -> Result<(), OutOfMemory>
    ensures frames { OnOk result (frames_of network.new ≡ frames_of network.old ++ those_out (schedule_of network.old.schedule) (joined (map to_send processes.old))) }
    ensures schedule { OnOk result (schedule_of network.new.schedule ≡ drawn_for (joined (map to_send processes.old)) (schedule_of network.old.schedule)) }
    ensures same { OnOk result (map process_of processes.new ≡ map process_of processes.old) }
    ensures ready { OnOk result (AreReady processes.old → AreReady processes.new) }
{
    for p in 0..processes.len() {
        send_from(alloc, &mut processes[p], network, observer)?;
    }
    Ok(())
}

// So do those that one has made.
fn send_from(
    alloc: Global,
    process: &mut Process<'_>,
    network: &mut Network,
    observer: &mut dyn Observer,
) -> Result<(), OutOfMemory>
    ensures frames { OnOk result (frames_of network.new ≡ frames_of network.old ++ those_out (schedule_of network.old.schedule) (to_send process.old)) }
    ensures schedule { OnOk result (schedule_of network.new.schedule ≡ drawn_for (to_send process.old) (schedule_of network.old.schedule)) }
    ensures same { process_of process.new ≡ process_of process.old }
    ensures ahead { process.new.notes.ahead ≡ process.old.notes.ahead }
    ensures last { process.new.notes.last ≡ process.old.notes.last }
{
    let made = mem::replace(&mut process.notes.made, Vec::new(alloc));
    send_each(made, network, observer)
}

// Frames go out, one after the other, where they aren't lost.
fn send_each(
    made: Vec<FrameUnderWay>,
    network: &mut Network,
    observer: &mut dyn Observer,
) -> Result<(), OutOfMemory>
    ensures frames { OnOk result (frames_of network.new ≡ frames_of network.old ++ those_out (schedule_of network.old.schedule) (map frame_of made.items)) }
    ensures schedule { OnOk result (schedule_of network.new.schedule ≡ drawn_for (map frame_of made.items) (schedule_of network.old.schedule)) }
{
    for frame in made {
        send(frame, network, observer)?;
    }
    Ok(())
}

// A frame goes out, where it isn't lost.
fn send(
    frame: FrameUnderWay,
    network: &mut Network,
    observer: &mut dyn Observer,
) -> Result<(), OutOfMemory>
    ensures frames { OnOk result (frames_of network.new ≡ frames_of network.old ++ those_out (schedule_of network.old.schedule) (frame_of frame ∷ [])) }
    ensures schedule { schedule_of network.new.schedule ≡ drawn_once (schedule_of network.old.schedule) }
{
    let lost = network.schedule.is_lost();
    observer.sent(frame.seen(), lost);
    if lost {
        return Ok(());
    }
    network.frames.push(frame)?;
    Ok(())
}

/// The turn's frames reach their processes, one after the other, where they are to come in their order.
pub(crate) fn deliver(
    alloc: Global,
    processes: &mut [Process<'_>],
    network: &Network,
    turn: u64,
    in_order: bool,
    observer: &mut dyn Observer,
) -> Result<(), OutOfMemory>
    ensures run { OnOk result ((operations : List Operation) (script : Statements) (ranks size : ℕ) (begun : Moment) (t : ScheduleView) → IsUnderWay operations script ranks size begun (Coming turn t) (map process_of processes.old) (frames_of network.now)
        → IsUnderWay operations script ranks size begun (Coming turn t) (map process_of processes.new) (frames_of network.now)) }
    ensures came { OnOk result (in_order ≡ true → HaveCome turn (frames_of network.now) (map process_of processes.new)) }
    ensures ready { OnOk result (AreReady processes.old → AreReady processes.new) }
{
    if !in_order {
        return Ok(());
    }
    for i in 0..network.frames.len() {
        arrive(alloc, processes, &network.frames[i], turn, observer)?;
    }
    Ok(())
}

// A frame reaches its process, where this is its turn.
fn arrive(
    alloc: Global,
    processes: &mut [Process<'_>],
    frame: &FrameUnderWay,
    turn: u64,
    observer: &mut dyn Observer,
) -> Result<(), OutOfMemory>
    ensures run { OnOk result ((operations : List Operation) (script : Statements) (ranks size : ℕ) (begun : Moment) (t : ScheduleView) (frames : List FrameView) (i : ℕ) → slice_get frames i ≡ Some (frame_of frame.now) → IsUnderWay operations script ranks size begun (Coming turn t) (map process_of processes.old) frames
        → IsUnderWay operations script ranks size begun (Coming turn t) (map process_of processes.new) frames) }
    ensures came { OnOk result (frame.now.turn ≡ turn → (v : ProcessView) → slice_get (map process_of processes.new) frame.now.to ≡ Some v → IsBoardBelow (part_of frame.now) v.node.board) }
    ensures grown { OnOk result (HaveGrown (map process_of processes.old) (map process_of processes.new)) }
    ensures ready { OnOk result (AreReady processes.old → AreReady processes.new) }
{
    if frame.turn != turn {
        return Ok(());
    }
    if frame.to >= processes.len() {
        return Ok(());
    }
    processes[frame.to].receive(alloc, frame)?;
    observer.taken(frame.seen(), frame.again, processes[frame.to].node());
    Ok(())
}

/// One in four of the turn's frames is taken again in a later turn. The others are let go, and their room is spare. Those of later turns
/// are still to come.
pub(crate) fn keep_some(network: &mut Network, turn: u64)
    requires { turn < 4294967296 }
    ensures frames { frames_of network.new ≡ those_left turn (frames_of network.old) (schedule_of network.old.schedule) }
    ensures schedule { schedule_of network.new.schedule ≡ drawn_again_for turn (frames_of network.old) (schedule_of network.old.schedule) }
{
    delay_some(network, turn);
    let mut i: usize = 0;
    for _ in 0..network.frames.len() {
        i = let_go(network, i, turn);
    }
}

// Lets the frame at the place go, where it comes no more, and tells the place of the next one. Its items go, and its room serves another frame.
// Where memory for one more is refused, its room goes too.
fn let_go(network: &mut Network, i: usize, turn: u64) -> usize
    ensures schedule { network.new.schedule ≡ network.old.schedule }
    ensures left { i < length network.old.frames.items → left_from turn result (frames_of network.new) ≡ left_from turn i (frames_of network.old) }
    ensures nearer { i < length network.old.frames.items → length network.new.frames.items + i + 1 ≡ length network.old.frames.items + result }
{
    if i >= network.frames.len() {
        return i.wrapping_add(1);
    }
    let comes = network.frames[i].turn;
    if comes > turn {
        return i.wrapping_add(1);
    }
    let frame = network.frames.remove(i);
    let mut bytes = frame.bytes;
    bytes.clear();
    let _ = network.spare.push(bytes);
    i
}

// One in four of the turn's frames comes again.
fn delay_some(network: &mut Network, turn: u64)
    requires { turn < 4294967296 }
    ensures frames { frames_of network.new ≡ all_put_off turn (frames_of network.old) (schedule_of network.old.schedule) }
    ensures parts { map part_of network.new.frames.items ≡ map part_of network.old.frames.items }
    ensures schedule { schedule_of network.new.schedule ≡ drawn_again_for turn (frames_of network.old) (schedule_of network.old.schedule) }
{
    for i in 0..network.frames.len() {
        delay(&mut network.frames[i], &mut network.schedule, turn);
    }
}

// It comes again, where this is its turn and it is drawn: later, to the same process, and with the same bytes.
fn delay(frame: &mut FrameUnderWay, schedule: &mut Schedule, turn: u64)
    requires { turn < 4294967296 }
    ensures bytes { frame.new.bytes ≡ frame.old.bytes }
    ensures frame { frame_of frame.new ≡ put_off turn (frame_of frame.old) (schedule_of schedule.old) }
    ensures schedule { schedule_of schedule.new ≡ asked turn (frame_of frame.old) (schedule_of schedule.old) }
{
    if frame.turn != turn {
        return;
    }
    let Some(later) = schedule.again() else {
        return;
    };
    frame.turn = turn.saturating_add(later);
    frame.again = true;
}
