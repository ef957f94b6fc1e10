//! Who looks on at a run, by what is asked for beside it.
ghost use Rattle.std.specs.Prelude.{◌≡◌, ◌&&◌, not};
ghost use Rattle.mpx_program.specs.Showing.{shown_on, shows_lines, shows_rows};

use crate::progress::HowFar;
use mpx_meaning::Line;
use mpx_name::Name;
use mpx_node::Node;
use mpx_sim::{FrameSeen, Observer, Progress};
use mpx_trace::{Table, Trace};
use mpx_words::Flags;
use std::alloc::Global;
use std::io::{IsTerminal, Write};
use std::time::Clock;

/// Shows a run as it goes: with `--trace` each event in a line, with `--table` each turn in a row, else how far it is, where the writer is a terminal.
/// A run in threads is shown in the last way alone.
#[derive(Drop)]
pub enum Seen<'a, C: Clock, S: Write + IsTerminal> {
    Lines(Trace<S>),
    Rows(Table<S>),
    Progress(HowFar<'a, C, S>),
}

impl<'a, C: Clock, S: Write + IsTerminal> Seen<'a, C, S> {
    /// What is asked for.
    pub fn of(flags: Flags, alloc: Global, clock: &'a C, out: S) -> Seen<'a, C, S>
        ensures trace { shows_lines result ≡ flags.trace }
        ensures table { shows_rows result ≡ (not flags.trace && flags.table) }
        ensures on { shown_on result ≡ out }
    {
        if flags.trace {
            Seen::Lines(Trace::new(alloc, out))
        } else if flags.table {
            Seen::Rows(Table::new(alloc, out))
        } else {
            Seen::Progress(HowFar::new(clock, out))
        }
    }

    /// Gives the writer back: that which it is shown on, as it is then.
    pub fn into_writer(self) -> S
        ensures { result ≡ shown_on self.entry }
    {
        match self {
            Seen::Lines(trace) => trace.into_writer(),
            Seen::Rows(table) => table.into_writer(),
            Seen::Progress(far) => far.into_writer(),
        }
    }
}

impl<C: Clock, S: Write + IsTerminal + Drop> Observer for Seen<'_, C, S> {
    fn begins(&mut self, text: &[u8]) {
        match self {
            Seen::Lines(trace) => trace.begins(text),
            Seen::Rows(table) => table.begins(text),
            Seen::Progress(far) => far.begins(text),
        }
    }

    fn turn(&mut self, number: u32, progress: Progress) {
        match self {
            Seen::Lines(trace) => trace.turn(number, progress),
            Seen::Rows(table) => table.turn(number, progress),
            Seen::Progress(far) => far.turn(number, progress),
        }
    }

    fn follows_frames(&self) -> bool {
        match self {
            Seen::Lines(trace) => trace.follows_frames(),
            Seen::Rows(table) => table.follows_frames(),
            Seen::Progress(far) => far.follows_frames(),
        }
    }

    fn sent(&mut self, frame: FrameSeen, lost: bool) {
        match self {
            Seen::Lines(trace) => trace.sent(frame, lost),
            Seen::Rows(table) => table.sent(frame, lost),
            Seen::Progress(far) => far.sent(frame, lost),
        }
    }

    fn taken(&mut self, frame: FrameSeen, again: bool, node: &Node) {
        match self {
            Seen::Lines(trace) => trace.taken(frame, again, node),
            Seen::Rows(table) => table.taken(frame, again, node),
            Seen::Progress(far) => far.taken(frame, again, node),
        }
    }

    fn follows_posts(&self) -> bool {
        match self {
            Seen::Lines(trace) => trace.follows_posts(),
            Seen::Rows(table) => table.follows_posts(),
            Seen::Progress(far) => far.follows_posts(),
        }
    }

    fn posted(&mut self, turn: u32, rank: u8, name: &Name, call: u32, statement: usize) {
        match self {
            Seen::Lines(trace) => trace.posted(turn, rank, name, call, statement),
            Seen::Rows(table) => table.posted(turn, rank, name, call, statement),
            Seen::Progress(far) => far.posted(turn, rank, name, call, statement),
        }
    }

    fn told(&mut self, turn: u32, rank: u8, lines: &[Line]) {
        match self {
            Seen::Lines(trace) => trace.told(turn, rank, lines),
            Seen::Rows(table) => table.told(turn, rank, lines),
            Seen::Progress(far) => far.told(turn, rank, lines),
        }
    }

    fn follows_threads(&self) -> bool {
        match self {
            Seen::Lines(trace) => trace.follows_threads(),
            Seen::Rows(table) => table.follows_threads(),
            Seen::Progress(far) => far.follows_threads(),
        }
    }

    fn goes_on(&mut self, progress: Progress) {
        match self {
            Seen::Lines(trace) => trace.goes_on(progress),
            Seen::Rows(table) => table.goes_on(progress),
            Seen::Progress(far) => far.goes_on(progress),
        }
    }

    fn over(&mut self) {
        match self {
            Seen::Lines(trace) => trace.over(),
            Seen::Rows(table) => table.over(),
            Seen::Progress(far) => far.over(),
        }
    }
}
