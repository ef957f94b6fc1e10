//! How far a run is, on a terminal.
ghost use Rattle.std.specs.Prelude.{◌≡◌, None, false};

use mpx_sim::{Observer, Progress};
use std::io::{IsTerminal, Write};
use std::time::{Clock, Duration, Instant};

/// Where the writer is a terminal, tells there how far a run is, once a second, in a line that it wipes at the end.
#[derive(Drop)]
pub struct HowFar<'a, C: Clock, S: Write + IsTerminal> {
    clock: &'a C,
    out: S,
    /// When it told something last, or began: None where it tells nothing.
    last: Option<Instant>,
    told: bool,
}

impl<'a, C: Clock, S: Write + IsTerminal> HowFar<'a, C, S> {
    pub(crate) fn new(clock: &'a C, out: S) -> HowFar<'a, C, S>
        ensures { result.out ≡ out }
    {
        let last = if out.is_terminal() {
            Instant::now(clock).ok()
        } else {
            None
        };
        HowFar {
            clock,
            out,
            last,
            told: false,
        }
    }

    /// Gives the writer back.
    pub(crate) fn into_writer(self) -> S
        ensures { result ≡ self.entry.out }
    {
        self.out
    }

    // Whether it is time to tell something: never where it tells nothing.
    fn is_due(&self) -> bool
        ensures { self.now.last ≡ None → result ≡ false }
    {
        match &self.last {
            None => false,
            Some(last) => match last.elapsed(self.clock) {
                Ok(since) => since >= Duration::from_secs(1),
                Err(_) => false,
            },
        }
    }

    // Whether it tells something now.
    fn tells(&mut self) -> bool {
        if !self.is_due() {
            return false;
        }
        self.last = Instant::now(self.clock).ok();
        self.told = true;
        true
    }
}

impl<C: Clock, S: Write + IsTerminal + Drop> Observer for HowFar<'_, C, S> {
    fn turn(&mut self, number: u32, progress: Progress) {
        if !self.tells() {
            return;
        }
        let (finished, ranks) = (progress.finished, progress.ranks);
        let (done, all) = (progress.done, progress.all);
        let _ = write!(
            self.out,
            "\rturn {number}: {finished} of {ranks} ranks have finished, {done} of {all} statements done"
        );
    }

    fn follows_threads(&self) -> bool {
        self.last.is_some()
    }

    fn goes_on(&mut self, progress: Progress) {
        if !self.tells() {
            return;
        }
        let (ended, ranks) = (progress.finished, progress.ranks);
        let (begun, all) = (progress.done, progress.all);
        let _ = write!(
            self.out,
            "\r{ended} of {ranks} ranks have ended, {begun} of {all} calls begun"
        );
    }

    fn over(&mut self) {
        if self.told {
            let _ = self.out.write_all(b"\r\x1b[K");
        }
    }
}
