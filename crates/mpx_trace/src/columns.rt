//! The columns of a table of turns, and its rows as text.

use crate::cells::{Cell, HERE, MISSING, UNKNOWN};
use std::alloc::Global;
use std::io::{self, Write};

// How many columns a terminal has.
const WIDTH: usize = 80;

const WIDE: &str = "Columns are ranks. \"line 3\": the rank makes the call in line 3 of the script.
Below, a mark for each rank from 0 on: # its post to that call has come,
. its post is missing, - it isn't in the communicator, blank: not known yet.
";

const NARROW: &str = "Columns are ranks: # all posts to the rank's newest call have come, . some are
missing. \"lines\": the first and the last line of the script where ranks are.
";

/// Where the columns of a table begin.
#[derive(Clone, Copy)]
pub(crate) struct Columns {
    ranks: usize,
    /// Whether a rank has one column, as more don't fit.
    is_narrow: bool,
    /// Where the first rank begins, and how far the next one is.
    first: usize,
    step: usize,
}

impl Columns {
    /// For that many ranks, and line numbers of that many digits.
    pub(crate) fn new(ranks: usize, digits: usize) -> Columns {
        let width = ranks.max(digits.saturating_add(5));
        let most = WIDTH.saturating_sub(5);
        if ranks.saturating_mul(width.saturating_add(1)) > most {
            return Columns {
                ranks,
                is_narrow: true,
                first: digits.saturating_mul(2).saturating_add(7).max(11),
                step: 1,
            };
        }
        let has_room = ranks.saturating_mul(width.saturating_add(2)) <= most;
        Columns {
            ranks,
            is_narrow: false,
            first: 6,
            step: width.saturating_add(if has_room { 2 } else { 1 }),
        }
    }

    // Where the column of a rank begins.
    fn start(&self, rank: usize) -> usize {
        self.first.saturating_add(self.step.saturating_mul(rank))
    }

    /// Adds what the marks mean, and the numbers of the ranks.
    pub(crate) fn push_head(&self, alloc: Global, text: &mut Vec<u8>) -> io::Result<()> {
        let mut line = Vec::new(alloc);
        if self.is_narrow {
            text.extend_from_slice(NARROW.as_bytes())?;
            line.extend_from_slice(b"turn lines")?;
        } else {
            text.extend_from_slice(WIDE.as_bytes())?;
            line.extend_from_slice(b"turn")?;
        }
        for rank in 0..self.ranks {
            if !self.is_narrow || rank % 8 == 0 {
                pad(&mut line, self.start(rank))?;
                write!(line, "{rank}")?;
            }
        }
        push_line(&line, text)
    }

    /// Adds what is shown of a turn.
    pub(crate) fn push_turn(
        &self,
        alloc: Global,
        turn: u32,
        cells: &[Cell],
        text: &mut Vec<u8>,
    ) -> io::Result<()> {
        if self.is_narrow {
            return self.push_narrow(alloc, turn, cells, text);
        }
        self.push_calls(alloc, cells, text)?;
        let mut line = Vec::new(alloc);
        push_turn(turn, &mut line)?;
        for (rank, cell) in cells.iter().enumerate() {
            if let Some(marks) = cell.marks() {
                pad(&mut line, self.start(rank))?;
                line.extend_from_slice(marks.get(..self.ranks).unwrap_or(&[]))?;
            }
        }
        push_line(&line, text)
    }

    // Adds where ranks made calls after the last turn, if one did.
    fn push_calls(&self, alloc: Global, cells: &[Cell], text: &mut Vec<u8>) -> io::Result<()> {
        if !cells.iter().any(|cell| cell.is_new) {
            return Ok(());
        }
        let mut line = Vec::new(alloc);
        for (rank, cell) in cells.iter().enumerate() {
            if cell.is_new {
                pad(&mut line, self.start(rank))?;
                write!(line, "line {}", cell.line)?;
            }
        }
        push_line(&line, text)
    }

    fn push_narrow(
        &self,
        alloc: Global,
        turn: u32,
        cells: &[Cell],
        text: &mut Vec<u8>,
    ) -> io::Result<()> {
        let mut line = Vec::new(alloc);
        push_turn(turn, &mut line)?;
        line.extend_from_slice(b" ")?;
        push_lines(cells, &mut line)?;
        for (rank, cell) in cells.iter().enumerate() {
            pad(&mut line, self.start(rank))?;
            let mark = match cell.marks() {
                None => UNKNOWN,
                Some(_) if cell.is_full(self.ranks) => HERE,
                Some(_) => MISSING,
            };
            line.push(mark)?;
        }
        push_line(&line, text)
    }
}

// Adds the number of a turn.
fn push_turn(turn: u32, line: &mut Vec<u8>) -> io::Result<()> {
    write!(line, "{turn:>4}")
}

// Adds the first and the last line of the script at which ranks are.
fn push_lines(cells: &[Cell], line: &mut Vec<u8>) -> io::Result<()> {
    let (mut first, mut last) = (u32::MAX, 0);
    for cell in cells {
        if cell.marks().is_some() {
            first = first.min(cell.line);
            last = last.max(cell.line);
        }
    }
    if first < last {
        write!(line, "{first}-{last}")
    } else if first == last {
        write!(line, "{first}")
    } else {
        Ok(())
    }
}

// Adds spaces up to a column.
fn pad(line: &mut Vec<u8>, column: usize) -> io::Result<()> {
    for _ in line.len()..column {
        line.push(b' ')?;
    }
    Ok(())
}

// Adds a line without spaces at its end.
fn push_line(line: &[u8], text: &mut Vec<u8>) -> io::Result<()> {
    let mut end: usize = 0;
    for (place, byte) in line.iter().enumerate() {
        if *byte != b' ' {
            end = place.saturating_add(1);
        }
    }
    text.extend_from_slice(line.get(..end).unwrap_or(line))?;
    text.extend_from_slice(b"\n")?;
    Ok(())
}
