//! Gates of runs in threads: one that counts steps, one that holds two ranks until both have come, and one that holds all processes
//! until somebody was told that all calls have begun.
use mpx_group::Proc;
use mpx_run::{BusStep, Gate, Pass};
use std::alloc::Global;
use std::io;
use std::io::Write;
use std::sync::atomic::{AtomicBool, AtomicU64, Ordering};
use std::thread::yield_now;

/// A gate that counts the steps of each process, which come in turn: a pop, then a push, each with the number of those before. Where it
/// gives up, it does at the fifth push of process 0 alone.
#[derive(Drop)]
pub struct Counting {
    steps: Vec<StepCounts>,
    gives_up: bool,
}

#[derive(Drop)]
struct StepCounts {
    pops: AtomicU64,
    pushes: AtomicU64,
    // whether each came in its turn
    in_turn: AtomicBool,
}

impl StepCounts {
    fn count(&self, step: BusStep, nth: u64) {
        let (pops, pushes) = self.counts();
        let wanted = match step {
            BusStep::Pop => (nth, nth),
            BusStep::Push => (nth.wrapping_add(1), nth),
        };
        if (pops, pushes) != wanted {
            self.in_turn.store(false, Ordering::SeqCst);
        }
        match step {
            BusStep::Pop => self.pops.fetch_add(1, Ordering::SeqCst),
            BusStep::Push => self.pushes.fetch_add(1, Ordering::SeqCst),
        };
    }

    fn counts(&self) -> (u64, u64) {
        (
            self.pops.load(Ordering::SeqCst),
            self.pushes.load(Ordering::SeqCst),
        )
    }

    // Whether each step came in its turn, and there were so many turns.
    fn has_made(&self, least: u64, most: u64) -> bool {
        let (pops, _) = self.counts();
        self.in_turn.load(Ordering::SeqCst) && least <= pops && pops <= most
    }
}

impl Counting {
    /// Of so many processes.
    pub fn new(alloc: Global, processes: u8, gives_up: bool) -> io::Result<Counting> {
        let mut steps = Vec::new(alloc);
        for _process in 0..processes {
            steps.push(StepCounts {
                pops: AtomicU64::new(0),
                pushes: AtomicU64::new(0),
                in_turn: AtomicBool::new(true),
            })?;
        }
        Ok(Counting { steps, gives_up })
    }

    /// Tells of each process whether all its steps came in their turn, and as many as there may be: where the gate gave up, five of
    /// process 0, and of no other half of its turns; else at least a hundred, and not all of its turns.
    pub fn tell(&self, turns: u32, out: &mut Vec<u8>) -> io::Result<()> {
        for process in 0..self.steps.len() {
            let (least, most) = match (self.gives_up, process) {
                (true, 0) => (5, 5),
                (true, _) => (0, u64::from(turns / 2)),
                (false, _) => (100, u64::from(turns.saturating_sub(1))),
            };
            let steps = &self.steps[process];
            if steps.has_made(least, most) {
                writeln!(out, "process {process} in turn")?;
            } else {
                let (pops, pushes) = steps.counts();
                writeln!(
                    out,
                    "process {process} NOT SO: {pops} pops, {pushes} pushes"
                )?;
            }
        }
        Ok(())
    }
}

impl Gate for Counting {
    ghost use Rattle.std.specs.Prelude.{◌≡◌};
    ghost use Rattle.mpx_threads.specs.declared.gate.BusStep.TheVariants.{Push};

    ghost gives_up = { λ _gate process step nth. (process ≡ 0) × ((step ≡ Push) × (nth ≡ 4)) };

    fn pass(&self, process: Proc, step: BusStep, nth: u64) -> Pass {
        if let Some(steps) = self.steps.get(usize::from(process.number())) {
            steps.count(step, nth);
        }
        if self.gives_up && process.number() == 0 && step == BusStep::Push && nth == 4 {
            Pass::GiveUp
        } else {
            Pass::Go
        }
    }
}

/// A gate that holds the first pops of ranks 0 and 1 until both were asked for: a run with both on one thread would never get on.
#[derive(Drop)]
pub struct Both {
    first: AtomicBool,
    second: AtomicBool,
}

impl Both {
    /// Neither was asked for.
    pub fn new() -> Both {
        Both {
            first: AtomicBool::new(false),
            second: AtomicBool::new(false),
        }
    }

    /// Whether both were.
    pub fn were_asked(&self) -> bool {
        self.first.load(Ordering::SeqCst) && self.second.load(Ordering::SeqCst)
    }
}

impl Gate for Both {
    ghost use Rattle.std.specs.Prelude.{◌≡◌};
    ghost use Rattle.mpx_threads.specs.declared.gate.BusStep.TheVariants.{Pop};

    ghost gives_up = { λ _gate _process step nth. (step ≡ Pop) × (nth ≡ 0) };

    fn pass(&self, process: Proc, step: BusStep, nth: u64) -> Pass {
        if step == BusStep::Push || nth != 0 {
            return Pass::Go;
        }
        match process.number() {
            0 => meets(&self.first, &self.second),
            1 => meets(&self.second, &self.first),
            _ => Pass::Go,
        }
    }
}

// One is asked for, and waits for the other: it gives up after a million looks.
fn meets(own: &AtomicBool, other: &AtomicBool) -> Pass {
    own.store(true, Ordering::SeqCst);
    for _ in 0..1_000_000 {
        if other.load(Ordering::SeqCst) {
            return Pass::Go;
        }
        yield_now();
    }
    Pass::GiveUp
}

/// A gate that holds the first pop of each process until it is told that all calls have begun, so that no rank hears of another before.
#[derive(Drop)]
pub struct UntilTold {
    told: AtomicBool,
}

impl UntilTold {
    /// It wasn't told.
    pub fn new() -> UntilTold {
        UntilTold {
            told: AtomicBool::new(false),
        }
    }

    /// All calls have begun. Answers whether it was told that before.
    pub fn tell(&self) -> bool {
        self.told.swap(true, Ordering::SeqCst)
    }
}

impl Gate for UntilTold {
    ghost use Rattle.std.specs.Prelude.{◌≡◌};
    ghost use Rattle.mpx_threads.specs.declared.gate.BusStep.TheVariants.{Pop};

    ghost gives_up = { λ _gate _process step nth. (step ≡ Pop) × (nth ≡ 0) };

    // It gives up after a hundred million looks.
    fn pass(&self, _process: Proc, step: BusStep, nth: u64) -> Pass {
        if step == BusStep::Push || nth != 0 {
            return Pass::Go;
        }
        for _ in 0..100_000_000 {
            if self.told.load(Ordering::SeqCst) {
                return Pass::Go;
            }
            yield_now();
        }
        Pass::GiveUp
    }
}
