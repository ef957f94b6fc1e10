//! A simulated run, a row a turn.
ghost use Rattle.std.specs.Prelude.{◌≡◌, ◌&&◌, is_ok, true};

use crate::cells::Cell;
use crate::columns::Columns;
use crate::script_lines::ScriptLines;
use mpx_name::Name;
use mpx_node::Node;
use mpx_sim::{FrameSeen, Observer, Progress};
use std::alloc::Global;
use std::io::{self, Write};

/// Shows a simulated run as a table with a row for each turn: of each rank the script's line of its newest call, and whose posts to that
/// call it has. Where that doesn't fit into 80 columns, a rank has one mark: whether it has all of these posts.
#[derive(Drop)]
pub struct Table<W: Write> {
    alloc: Global,
    out: W,
    script: ScriptLines,
    /// Of each process, what is shown; of relays that isn't written.
    cells: Vec<Cell>,
    /// How many ranks there are, as far as is known.
    ranks: usize,
    /// Where columns begin, once the head is written.
    columns: Option<Columns>,
    /// How many rows were written.
    rows: u32,
    /// Whether all that was to be shown so far is written.
    whole: bool,
}

impl<W: Write> Table<W> {
    pub fn new(alloc: Global, out: W) -> Table<W>
        ensures out { result.out ≡ out }
        ensures whole { result.whole ≡ true }
    {
        Table {
            alloc,
            out,
            script: ScriptLines::new(alloc),
            cells: Vec::new(alloc),
            ranks: 0,
            columns: None,
            rows: 0,
            whole: true,
        }
    }

    /// Whether all that was to be shown so far is written: neither was memory wanting for it, nor did the writer fail.
    pub fn is_whole(&self) -> bool
        ensures { result ≡ self.now.whole }
    {
        self.whole
    }

    /// Gives the writer back.
    pub fn into_writer(self) -> W
        ensures { result ≡ self.out }
    {
        self.out
    }

    // Keeps in mind whether this is written.
    fn note(&mut self, written: &io::Result<()>)
        ensures { self.new.whole ≡ (self.old.whole && is_ok written.now) }
    {
        self.whole = self.whole && written.is_ok();
    }

    // There are cells up to this process.
    fn reach(&mut self, process: u8) -> io::Result<()> {
        for _ in self.cells.len()..usize::from(process).saturating_add(1) {
            self.cells.push(Cell::new(self.alloc))?;
        }
        Ok(())
    }

    fn take(&mut self, frame: FrameSeen, node: &Node) -> io::Result<()> {
        self.reach(frame.to)?;
        if let Some(cell) = self.cells.get_mut(usize::from(frame.to)) {
            cell.meet(self.alloc, node.board())?;
        }
        Ok(())
    }

    fn post(&mut self, rank: u8, name: &Name, call: u32, statement: usize) -> io::Result<()> {
        let line = self
            .script
            .number_of(self.alloc, rank, statement)?
            .unwrap_or(0);
        self.ranks = self.ranks.max(usize::from(rank).saturating_add(1));
        self.reach(rank)?;
        if let Some(cell) = self.cells.get_mut(usize::from(rank)) {
            cell.post(self.alloc, rank, name, call, line)?;
        }
        Ok(())
    }

    // Writes a row, and before the first one the table's head.
    fn write_row(&mut self, turn: u32) -> io::Result<()> {
        let alloc = self.alloc;
        let mut text = Vec::new(alloc);
        let columns = match self.columns {
            Some(columns) => columns,
            None => {
                let columns = Columns::new(self.ranks, self.script.digits(alloc)?);
                columns.push_head(alloc, &mut text)?;
                columns
            }
        };
        let cells = self.cells.get(..self.ranks).unwrap_or(&self.cells);
        columns.push_turn(alloc, turn, cells, &mut text)?;
        self.columns = Some(columns);
        self.rows = self.rows.saturating_add(1);
        for cell in &mut self.cells {
            cell.is_new = false;
        }
        self.out.write_all(&text)
    }
}

impl<W: Write + Drop> Observer for Table<W> {
    fn begins(&mut self, text: &[u8]) {
        let read = self.script.read(self.alloc, text);
        self.note(&read);
    }

    fn turn(&mut self, number: u32, progress: Progress) {
        self.ranks = progress.ranks;
        let written = self.write_row(number);
        self.note(&written);
    }

    fn follows_frames(&self) -> bool {
        true
    }

    fn taken(&mut self, frame: FrameSeen, _again: bool, node: &Node) {
        let taken = self.take(frame, node);
        self.note(&taken);
    }

    fn follows_posts(&self) -> bool {
        true
    }

    fn posted(&mut self, _turn: u32, rank: u8, name: &Name, call: u32, statement: usize) {
        let posted = self.post(rank, name, call, statement);
        self.note(&posted);
    }

    fn missed(&mut self) {
        self.whole = false;
    }

    fn over(&mut self) {
        if self.cells.iter().any(|cell| cell.is_new) {
            let written = self.write_row(self.rows.saturating_add(1));
            self.note(&written);
        }
        let flushed = self.out.flush();
        self.note(&flushed);
    }
}
