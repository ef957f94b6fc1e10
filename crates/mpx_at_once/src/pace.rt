//! How threads that work in turns rest while nothing is new, and wake each other. Nothing is claimed of that.
use std::sync::Wait;
use std::sync::atomic::{AtomicU64, Ordering};
use std::thread::yield_now;
use std::time::Duration;

// After so many turns in a row that brought nothing new a thread sleeps.
const BUSY: u32 = 5;

// So often a thread that waits lets the others have their turn before it sleeps: to be woken takes longer than most turns.
const YIELDS: u32 = 20;

// So long it sleeps at a time.
const SECOND: u64 = 1_000_000;

/// Threads that sleep until another wakes all of them: how often all were woken, and how many sleep.
#[derive(Drop)]
pub struct Sleepers {
    wakes: AtomicU64,
    asleep: AtomicU64,
}

impl Sleepers {
    /// Nobody sleeps yet, and nobody was woken.
    pub fn new() -> Sleepers {
        Sleepers {
            wakes: AtomicU64::new(0),
            asleep: AtomicU64::new(0),
        }
    }

    /// How often all were woken.
    pub fn wakes(&self) -> u64 {
        self.wakes.load(Ordering::SeqCst)
    }

    /// Wakes all that sleep. Who has something new for others does so once they can see it.
    pub fn wake(&self) {
        self.wakes.fetch_add(1, Ordering::SeqCst);
        if self.asleep.load(Ordering::SeqCst) != 0 {
            self.wakes.wake_all();
        }
    }

    /// Waits until they are woken more often than this.
    pub fn wait<R: Wait>(&self, rt: &R, wakes: u64) {
        for _ in 0..YIELDS {
            if self.wakes() != wakes {
                return;
            }
            yield_now();
        }
        for _ in rt.forever() {
            if self.wakes() != wakes {
                return;
            }
            self.sleep(rt, wakes, SECOND);
        }
        unreachable!()
    }

    // Sleeps for so many microseconds at most. It ends once all are woken, and at once where they were woken more often than this.
    fn sleep<R: Wait>(&self, rt: &R, wakes: u64, micros: u64) {
        let Ok(seen) = u32::try_from(wakes & 0xffff_ffff) else {
            return;
        };
        self.asleep.fetch_add(1, Ordering::SeqCst);
        self.wakes
            .park_timeout(rt, seen, Duration::from_micros(micros));
        self.asleep.fetch_sub(1, Ordering::SeqCst);
    }
}

/// How one thread rests between its turns: for how many turns it has met nothing new, and how often it saw all woken. Its process's
/// number keeps it from resting at the same times as the others.
#[derive(Drop)]
pub struct Pace {
    process: u8,
    idle: u32,
    wakes: u64,
}

impl Pace {
    /// Before the first turn of this process.
    pub fn new(process: u8) -> Pace {
        Pace {
            process,
            idle: 0,
            wakes: 0,
        }
    }

    /// A turn was made, and brought something new or didn't.
    pub fn note(&mut self, is_new: bool) {
        self.idle = if is_new {
            0
        } else {
            self.idle.saturating_add(1)
        };
    }

    /// Lets the other threads have their turn. Behind turns that brought nothing new it sleeps, longer each time, up to a millisecond or
    /// until another wakes all. Where all were woken since its last rest, it sleeps as briefly as behind the first of these turns.
    pub fn rest<R: Wait>(&mut self, rt: &R, sleepers: &Sleepers) {
        let wakes = sleepers.wakes();
        if wakes != self.wakes {
            self.wakes = wakes;
            self.idle = self.idle.min(BUSY);
        }
        if self.idle < BUSY {
            yield_now();
        } else {
            sleepers.sleep(rt, wakes, micros(self.idle, self.process));
        }
    }
}

// How long a thread sleeps behind so many turns: between half of a power of two and that. It differs by turn and process: threads that
// take their turns in one order for long take their own frames out of a queue alone.
fn micros(idle: u32, process: u8) -> u64 {
    let most = 1u64 << idle.min(10);
    let turn = idle.wrapping_mul(0x9e37_79b1);
    let part_of = u32::from(process).wrapping_mul(0x85eb_ca6b);
    let part = u64::from(turn.wrapping_add(part_of) >> 28);
    (most / 2).saturating_add((most / 32).saturating_mul(part))
}
