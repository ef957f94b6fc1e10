//! The lines of the script that a run is of.

use mpx_script::statement_lines;
use std::alloc::Global;
use std::io::{self, Write};

/// The text of a run's script, where each line of it begins, and for each rank the numbers of the lines that give it its statements.
#[derive(Drop)]
pub(crate) struct ScriptLines {
    text: Vec<u8>,
    starts: Vec<usize>,
    numbers: Vec<Vec<u32>>,
}

impl ScriptLines {
    /// None was read yet.
    pub(crate) fn new(alloc: Global) -> ScriptLines {
        ScriptLines {
            text: Vec::new(alloc),
            starts: Vec::new(alloc),
            numbers: Vec::new(alloc),
        }
    }

    /// The script is read from this text.
    pub(crate) fn read(&mut self, alloc: Global, text: &[u8]) -> io::Result<()> {
        let mut read = ScriptLines::new(alloc);
        read.text.extend_from_slice(text)?;
        read.starts.push(0)?;
        for place in 0..text.len() {
            if text[place] == b'\n' {
                read.starts.push(place + 1)?;
            }
        }
        *self = read;
        Ok(())
    }

    /// Adds which line gives a rank the statement at this place, and the words of it after its label. An `Err` is want of memory, or of such a line.
    pub(crate) fn push_statement(
        &mut self,
        alloc: Global,
        rank: u8,
        statement: usize,
        told: &mut Vec<u8>,
    ) -> io::Result<()> {
        let Some(number) = self.number_of(alloc, rank, statement)? else {
            return Err(io::Error::from(io::ErrorKind::NotFound));
        };
        write!(told, "line {number}:")?;
        push_words(self.line(number), told)
    }

    /// How many digits the number of its last line has.
    pub(crate) fn digits(&self, alloc: Global) -> io::Result<usize> {
        let mut number = Vec::new(alloc);
        write!(number, "{}", self.starts.len())?;
        Ok(number.len())
    }

    /// The number of the line that gives a rank the statement of this number, where there is one. The lines of a rank are looked up once.
    pub(crate) fn number_of(
        &mut self,
        alloc: Global,
        rank: u8,
        statement: usize,
    ) -> io::Result<Option<u32>> {
        let place = usize::from(rank);
        for next in self.numbers.len()..place + 1 {
            let rank = u8::try_from(next).unwrap_or(u8::MAX);
            let Ok(numbers) = statement_lines(alloc, &self.text, rank) else {
                return Err(io::Error::from(io::ErrorKind::OutOfMemory));
            };
            self.numbers.push(numbers)?;
        }
        match self.numbers.get(place) {
            Some(numbers) => Ok(numbers.get(statement).copied()),
            None => Ok(None),
        }
    }

    // The line with this number, from 1 on, or nothing where there is none.
    fn line(&self, number: u32) -> &[u8] {
        let Some(start) = self.starts.get((number as usize).wrapping_sub(1)) else {
            return &[];
        };
        let rest = self.text.get(*start..).unwrap_or(&[]);
        match rest.iter().position(|byte| *byte == b'\n') {
            Some(end) => &rest[..end],
            None => rest,
        }
    }
}

// Adds the words of a line but the first one, with a space in front of each.
fn push_words(line: &[u8], told: &mut Vec<u8>) -> io::Result<()> {
    let line = match line {
        [front @ .., b'\r'] => front,
        _ => line,
    };
    let mut is_label = true;
    let mut is_between = true;
    for byte in line {
        if *byte == b' ' || *byte == b'\t' {
            is_label &= is_between;
            is_between = true;
        } else {
            if is_between && !is_label {
                told.extend_from_slice(b" ")?;
            }
            is_between = false;
            if !is_label {
                told.push(*byte)?;
            }
        }
    }
    Ok(())
}
