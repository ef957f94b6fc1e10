//! A simulated run, a line an event.
ghost use Rattle.std.specs.Prelude.{◌≡◌, ◌&&◌, is_ok, true};

use crate::holding::{push_held, push_name};
use crate::news::News;
use crate::script_lines::ScriptLines;
use mpx_meaning::Line;
use mpx_name::Name;
use mpx_node::Node;
use mpx_sim::{FrameSeen, Observer, Progress};
use std::alloc::Global;
use std::io::{self, Write};

/// Tells each event of a simulated run in a line: `turn T: F -> D sent N bytes` where a frame goes out that comes in this turn, or `lost` in
/// place of `sent`; `turn T: F -> D taken: D has CALLS` where one comes for the first time, or `again`, with what the process then
/// holds; `turn T: rank R posts NAME CALL, line L: WORDS` for each call that a rank posts, with the script's line and its words; and
/// `turn T: rank R result LINE` for each new line of a rank.
#[derive(Drop)]
pub struct Trace<W: Write> {
    alloc: Global,
    out: W,
    news: News,
    script: ScriptLines,
    /// Whether all that was to be told so far is written.
    whole: bool,
}

impl<W: Write> Trace<W> {
    pub fn new(alloc: Global, out: W) -> Trace<W>
        ensures out { result.out ≡ out }
        ensures whole { result.whole ≡ true }
    {
        Trace {
            alloc,
            out,
            news: News::new(),
            script: ScriptLines::new(alloc),
            whole: true,
        }
    }

    /// Whether all that was to be told so far is written: neither was memory wanting for it, nor did the writer fail.
    pub fn is_whole(&self) -> bool
        ensures { result ≡ self.now.whole }
    {
        self.whole
    }

    /// Gives the writer back.
    pub fn into_writer(self) -> W
        ensures { result ≡ self.out }
    {
        self.out
    }

    // Keeps in mind whether this is written.
    fn note(&mut self, written: &io::Result<()>)
        ensures { self.new.whole ≡ (self.old.whole && is_ok written.now) }
    {
        self.whole = self.whole && written.is_ok();
    }

    fn tell_sent(&mut self, frame: FrameSeen, lost: bool) -> io::Result<()> {
        let what = if lost { "lost" } else { "sent" };
        let (turn, from, to, bytes) = (frame.turn, frame.from, frame.to, frame.bytes);
        let mut line = Vec::new(self.alloc);
        writeln!(line, "turn {turn}: {from} -> {to} {what} {bytes} bytes")?;
        self.out.write_all(&line)
    }

    fn tell_taken(&mut self, frame: FrameSeen, again: bool, node: &Node) -> io::Result<()> {
        let what = if again { "again" } else { "taken" };
        let (turn, from, to) = (frame.turn, frame.from, frame.to);
        let mut line = Vec::new(self.alloc);
        write!(line, "turn {turn}: {from} -> {to} {what}: {to} has ")?;
        push_held(node.board(), &mut line)?;
        line.extend_from_slice(b"\n")?;
        self.out.write_all(&line)
    }

    fn tell_post(
        &mut self,
        turn: u32,
        rank: u8,
        name: &Name,
        call: u32,
        statement: usize,
    ) -> io::Result<()> {
        let mut text = Vec::new(self.alloc);
        write!(text, "turn {turn}: rank {rank} posts ")?;
        push_name(name, &mut text)?;
        write!(text, " {call}, ")?;
        self.script
            .push_statement(self.alloc, rank, statement, &mut text)?;
        text.extend_from_slice(b"\n")?;
        self.out.write_all(&text)
    }

    fn tell_line(&mut self, turn: u32, rank: u8, line: &Line) -> io::Result<()> {
        let Ok(line) = line.text(self.alloc) else {
            return Err(io::Error::from(io::ErrorKind::OutOfMemory));
        };
        let mut text = Vec::new(self.alloc);
        writeln!(text, "turn {turn}: rank {rank} result {line}")?;
        self.out.write_all(&text)
    }
}

impl<W: Write + Drop> Observer for Trace<W> {
    fn begins(&mut self, text: &[u8]) {
        let read = self.script.read(self.alloc, text);
        self.note(&read);
    }

    fn turn(&mut self, _number: u32, _progress: Progress) {}

    fn sent(&mut self, frame: FrameSeen, lost: bool) {
        let written = self.tell_sent(frame, lost);
        self.note(&written);
    }

    fn follows_frames(&self) -> bool {
        true
    }

    fn taken(&mut self, frame: FrameSeen, again: bool, node: &Node) {
        let written = self.tell_taken(frame, again, node);
        self.note(&written);
    }

    fn follows_posts(&self) -> bool {
        true
    }

    fn posted(&mut self, turn: u32, rank: u8, name: &Name, call: u32, statement: usize) {
        let written = self.tell_post(turn, rank, name, call, statement);
        self.note(&written);
    }

    fn missed(&mut self) {
        self.whole = false;
    }

    fn told(&mut self, turn: u32, rank: u8, lines: &[Line]) {
        for line in self.news.of(rank, lines) {
            let written = self.tell_line(turn, rank, line);
            self.note(&written);
        }
    }

    fn over(&mut self) {
        let flushed = self.out.flush();
        self.note(&flushed);
    }
}
