//! What is drawn in a run. Equal seeds give equal draws.
ghost use Rattle.std.specs.Prelude.{◌≡◌, ◌<◌, ◌≤◌, ◌↔◌, IfOk, IfSome, IsFalse, IsTrue, None, Some, if◌then◌else◌, length, nat_eq, suc, ℕ};
ghost use Rattle.std.specs.List.Sorted.{IsPermutation};
ghost use Rattle.mpx_sim.specs.Draws.{all_below, draw, drawn, drawn_again, drawn_times, generator, powers_below, shuffled};
ghost use Rattle.mpx_sim.specs.Senders.{LeadSoFar, receiver};
ghost use Rattle.mpx_sim.specs.Shown.{schedule_of};

use join_core::OutOfMemory;
use rand_core::utils::NextWord;
use rand_pcg::Pcg32;
use std::alloc::Global;

// Shifts are below the number of processes, which is at most 64.
const MOST_SHIFTS: u8 = 6;

// The stream of the generator.
const STREAM: u64 = 54;

/// What is drawn of a run: to whom each process sends, which frames are lost, in which order the others come,
/// and which of them come again.
#[derive(Drop)]
pub(crate) struct Schedule {
    words: Pcg32,
    loss: usize,
    shifts: Vec<u8>,
}

impl Schedule {
    /// For so many processes. The shifts are the powers of two below their number, in an order that is drawn once. Where there is another process,
    /// each shift leads to another one. Each distance is a sum of some of them.
    pub(crate) fn new(
        alloc: Global,
        seed: u64,
        loss: u8,
        processes: usize,
    ) -> Result<Schedule, OutOfMemory>
        ensures loss { IfOk result (λ schedule. schedule.loss ≡ loss) }
        ensures seed { IfOk result (λ schedule. schedule.words ≡ drawn_times (powers_below 6 processes) (generator seed)) }
        ensures shifts { IfOk result (λ schedule. schedule.shifts.items ≡ shuffled 0 (powers_below 6 processes) (generator seed) (all_below 6 processes)) }
        ensures others { IfOk result (λ schedule. (p place : ℕ) → 1 < processes → p < processes → receiver schedule.shifts.items processes p place ≡ p → ⊥) }
        ensures far { IfOk result (λ schedule. (far : ℕ) → processes ≤ 64 → far < processes → LeadSoFar schedule.shifts.items far) }
    {
        let mut shifts = Vec::new(alloc);
        for place in 0..MOST_SHIFTS {
            let shift = 1u8 << place;
            if usize::from(shift) < processes {
                shifts.push(shift)?;
            }
        }
        let mut words = Pcg32::new(seed, STREAM);
        shuffle(&mut words, &mut shifts);
        Ok(Schedule {
            words,
            loss: loss as usize,
            shifts,
        })
    }

    /// To whom a process sends by the shift at this place: so many processes on, where the first comes after the last. Where a hundred percent
    /// arrive and each list is one frame, any turns of one round bring every fact to every process.
    pub(crate) fn receiver(&self, from: u8, place: usize, processes: usize) -> usize
        requires { 0 < processes }
        ensures below { result < processes }
        ensures is { result ≡ receiver self.now.shifts.items processes from place }
    {
        let shift = match self.shifts.get(place) {
            Some(shift) => *shift,
            None => 1,
        };
        (usize::from(from) + usize::from(shift)) % processes
    }

    /// The shifts, in their order.
    pub(crate) fn shifts(&self) -> &[u8]
        ensures { result.now ≡ self.now.shifts.items }
    {
        &self.shifts
    }

    /// Whether a frame is lost, which is drawn: of a loss of 0 none is, and of a loss of 100 each.
    pub(crate) fn is_lost(&mut self) -> bool
        ensures none { self.old.loss ≡ 0 → IsFalse result }
        ensures all { 100 ≤ self.old.loss → IsTrue result }
        ensures lost { IsTrue result → draw 100 self.old.words < self.old.loss }
        ensures kept { IsFalse result → self.old.loss ≤ draw 100 self.old.words }
        ensures words { self.new.words ≡ drawn self.old.words }
        ensures loss { self.new.loss ≡ self.old.loss }
        ensures shifts { self.new.shifts ≡ self.old.shifts }
    {
        below(&mut self.words, 100) < self.loss
    }

    /// Whether frames may be lost.
    pub(crate) fn loses_some(&self) -> bool {
        self.loss > 0
    }

    /// Whether every frame is lost.
    pub(crate) fn loses_all(&self) -> bool
        ensures { IsTrue result ↔ (100 ≤ self.now.loss) }
    {
        self.loss >= 100
    }

    /// In how many turns a frame that was taken is taken again, which one in four is: 1 to 4.
    pub(crate) fn again(&mut self) -> Option<u64>
        ensures later { IfSome result (λ later. 0 < later) }
        ensures again { result ≡ (if nat_eq (draw 4 self.old.words) 0 then Some (suc (draw 4 (drawn self.old.words))) else None) }
        ensures schedule { schedule_of self.new ≡ drawn_again (schedule_of self.old) }
        ensures loss { self.new.loss ≡ self.old.loss }
        ensures shifts { self.new.shifts ≡ self.old.shifts }
    {
        let comes = below(&mut self.words, 4);
        if comes != 0 {
            return None;
        }
        let turns = below(&mut self.words, 4);
        Some(turns as u64 + 1)
    }

    /// Brings items into an order that is drawn: one number for each.
    pub(crate) fn shuffle<T>(&mut self, items: &mut Vec<T>)
        ensures items { IsPermutation items.old.items items.new.items }
        ensures words { self.new.words ≡ drawn_times (length items.old.items) self.old.words }
        ensures loss { self.new.loss ≡ self.old.loss }
        ensures shifts { self.new.shifts ≡ self.old.shifts }
    {
        shuffle(&mut self.words, items);
    }
}

// A number below a limit.
fn below(words: &mut Pcg32, limit: usize) -> usize
    requires { 0 < limit }
    ensures less { result < limit }
    ensures is { result ≡ draw limit words.old }
    ensures words { words.new ≡ drawn words.old }
{
    words.next_word() as usize % limit
}

// Each place gets one of the items that the places before it have left.
fn shuffle<T>(words: &mut Pcg32, items: &mut Vec<T>)
    ensures items { IsPermutation items.old.items items.new.items }
    ensures words { words.new ≡ drawn_times (length items.old.items) words.old }
    ensures order { items.new.items ≡ shuffled 0 (length items.old.items) words.old items.old.items }
{
    for i in 0..items.len() {
        let j = i + below(words, items.len() - i);
        items.swap(i, j);
    }
}
