//! What a run is shown on as it goes, and a clock for it.
use crate::gates::UntilTold;
use mpx_program::Seen;
use mpx_run::{Observer, Progress};
use mpx_words::flags_behind;
use std::alloc::Global;
use std::cell::Cell;
use std::io::{self, IsTerminal, Write};
use std::time::{Clock, Duration};

/// Keeps what is written, and is a terminal or not.
#[derive(Drop)]
pub struct Shown {
    pub text: Vec<u8>,
    pub is_terminal: bool,
}

impl Write for Shown {
    fn write(&mut self, buf: &[u8]) -> io::Result<usize> {
        self.text.extend_from_slice(buf)?;
        Ok(buf.len())
    }

    fn flush(&mut self) -> io::Result<()> {
        Ok(())
    }
}

impl IsTerminal for Shown {
    fn is_terminal(&self) -> bool {
        self.is_terminal
    }
}

/// A clock that leaps on by two seconds at each look.
#[derive(Drop)]
pub struct Leaping {
    seconds: Cell<u32>,
}

impl Leaping {
    /// At its start.
    pub fn new() -> Leaping {
        Leaping {
            seconds: Cell::new(0),
        }
    }
}

impl Clock for Leaping {
    fn monotonic(&self) -> io::Result<Duration> {
        let now = self.seconds.get().wrapping_add(2);
        self.seconds.set(now);
        Ok(Duration::from_secs(u64::from(now)))
    }

    fn since_1970(&self) -> io::Result<Duration> {
        self.monotonic()
    }
}

/// Shows on a terminal, once, how far a run in threads is when all its calls have begun, and then tells its gate.
#[derive(Drop)]
pub struct AllBegun<'a> {
    seen: Seen<'a, Leaping, Shown>,
    gate: &'a UntilTold,
}

impl<'a> AllBegun<'a> {
    /// Nothing was shown.
    pub fn new(alloc: Global, clock: &'a Leaping, gate: &'a UntilTold) -> AllBegun<'a> {
        let shown = Shown {
            text: Vec::new(alloc),
            is_terminal: true,
        };
        AllBegun {
            seen: Seen::of(flags_behind(&[]), alloc, clock, shown),
            gate,
        }
    }

    /// What was shown.
    pub fn into_text(self) -> Vec<u8> {
        self.seen.into_writer().text
    }
}

impl Observer for AllBegun<'_> {
    fn turn(&mut self, number: u32, progress: Progress) {
        self.seen.turn(number, progress);
    }

    fn follows_threads(&self) -> bool {
        self.seen.follows_threads()
    }

    fn goes_on(&mut self, progress: Progress) {
        if progress.done == progress.all && !self.gate.tell() {
            self.seen.goes_on(progress);
        }
    }

    fn over(&mut self) {
        self.seen.over();
    }
}
