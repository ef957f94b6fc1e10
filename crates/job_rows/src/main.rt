//! The program `job_rows`: reads rows on the standard input and prints what each comes to. A row is a line `> WORDS` and
//! a script, which ends before the line feed in front of the next row; a line `>* WORDS` has a script that is made of pieces
//! ([`lines::push_all_pieces`]); a line `>> WORDS` asks for the script above once more. Behind each row's own line stand the text
//! that is printed, what the standard error is told, and `= STATUS`, or `= as above`, where the script's row before came to the
//! same. Words that are no call of the program, as `statements` or `reader 5 run`, are told in [`calls`]. Of each script the first run
//! that ends well is made in threads too, and where an evaluation ends well before any run, a run is made ([`more_runs`]): where
//! that comes to something else, this stands behind `in another run:`. The last line of all tells how many were made so.
#![tactic(auto)]

mod begins;
mod calls;
mod dead;
mod gated_runs;
mod gates;
mod lines;
mod more_runs;
mod program;
mod statements;
mod streams;
mod terminals;

use crate::calls::told;
use crate::lines::{ended, push_all_pieces};
use crate::more_runs::MoreRuns;
use mpx_affine::Affine;
use mpx_num::{Ops, OwnOp};
use std::alloc::Global;
use std::io;
use std::io::{Read, Write};
use std::process::ExitCode;
use std::sync::Wait;
use std::thread::Threads;

/// The row that is read, its script, what the row before came to, and what was told of all rows.
#[derive(Drop)]
struct Rows {
    call: Vec<u8>,
    script: Vec<u8>,
    is_first_line: bool,
    last: Vec<u8>,
    more: MoreRuns,
    text: Vec<u8>,
}

impl Rows {
    /// None yet.
    fn new(alloc: Global) -> Rows {
        Rows {
            call: Vec::new(alloc),
            script: Vec::new(alloc),
            is_first_line: true,
            last: Vec::new(alloc),
            more: MoreRuns::new(),
            text: Vec::new(alloc),
        }
    }

    /// A row begins with this line.
    fn begin(&mut self, line: &[u8]) -> io::Result<()> {
        if !line.starts_with(b">> ") {
            self.script.clear();
            self.last.clear();
            self.more.begin_script();
        }
        self.call.clear();
        self.call.extend_from_slice(line)?;
        self.is_first_line = true;
        Ok(())
    }

    /// The script has one more line.
    fn add_line(&mut self, line: &[u8]) -> io::Result<()> {
        if !self.is_first_line {
            self.script.push(b'\n')?;
        }
        self.script.extend_from_slice(line)?;
        self.is_first_line = false;
        Ok(())
    }

    /// The row ends: adds its line, and what its call comes to, where that isn't what the row before came to.
    fn end<T: Threads + Wait + Sync>(
        &mut self,
        rt: &T,
        alloc: Global,
        ops: &Ops,
    ) -> io::Result<()> {
        if self.call.starts_with(b">* ") {
            self.take_pieces(alloc)?;
        }
        self.text.extend_from_slice(&self.call)?;
        self.text.push(b'\n')?;
        let came = told(rt, alloc, &self.call, &self.script, ops)?;
        let pushed = self.push_came(&came);
        self.last = came;
        pushed?;
        self.run_more(rt, alloc, ops)
    }

    // Makes the script of its pieces.
    fn take_pieces(&mut self, alloc: Global) -> io::Result<()> {
        let mut script = Vec::new(alloc);
        let pushed = push_all_pieces(&mut script, &self.script);
        self.script = ended(script, pushed)?;
        Ok(())
    }

    // Adds what the call comes to.
    fn push_came(&mut self, came: &[u8]) -> io::Result<()> {
        if came == self.last.as_slice() {
            Ok(self.text.extend_from_slice(b"= as above\n")?)
        } else {
            Ok(self.text.extend_from_slice(came)?)
        }
    }

    // Adds what another run comes to, where that isn't the same.
    fn run_more<T: Threads + Wait + Sync>(
        &mut self,
        rt: &T,
        alloc: Global,
        ops: &Ops,
    ) -> io::Result<()> {
        let again = self
            .more
            .make(rt, alloc, &self.call, &self.script, &self.last, ops)?;
        match again {
            Some(again) => {
                let pushed = self.push_again(&again);
                drop(again);
                pushed
            }
            None => Ok(()),
        }
    }

    fn push_again(&mut self, again: &[u8]) -> io::Result<()> {
        self.text.extend_from_slice(b"in another run:\n")?;
        Ok(self.text.extend_from_slice(again)?)
    }

    /// Does what the line asks for.
    fn read_line<T: Threads + Wait + Sync>(
        &mut self,
        rt: &T,
        alloc: Global,
        line: &[u8],
        ops: &Ops,
    ) -> io::Result<()> {
        if !line.starts_with(b"> ") && !line.starts_with(b">* ") && !line.starts_with(b">> ") {
            return self.add_line(line);
        }
        if !self.call.is_empty() {
            self.end(rt, alloc, ops)?;
        }
        self.begin(line)
    }
}

/// Reads the rows, and tells what all of them come to, one after the other.
fn read_all<T: Threads + Wait + Sync>(
    rt: &T,
    alloc: Global,
    rows: &mut Rows,
    text: &[u8],
    ops: &Ops,
) -> io::Result<()> {
    for line in text.split(|byte| *byte == b'\n') {
        rows.read_line(rt, alloc, line, ops)?;
    }
    rows.end(rt, alloc, ops)?;
    writeln!(
        rows.text,
        "{} runs were made in threads too, and {} after an evaluation",
        rows.more.threaded(),
        rows.more.simulated(),
    )
}

fn print_rows<T: Threads + Wait + Sync, R: Read, W: Write>(
    rt: &T,
    alloc: Global,
    reader: &mut R,
    writer: &mut W,
    ops: &Ops,
) -> io::Result<()> {
    let mut text = Vec::new(alloc);
    let printed = match reader.read_to_end(&mut text) {
        Ok(_) => print_text(rt, alloc, &text, writer, ops),
        Err(error) => Err(error),
    };
    drop(text);
    printed
}

fn print_text<T: Threads + Wait + Sync, W: Write>(
    rt: &T,
    alloc: Global,
    text: &[u8],
    writer: &mut W,
    ops: &Ops,
) -> io::Result<()> {
    let mut rows = Rows::new(alloc);
    let printed = match read_all(rt, alloc, &mut rows, text, ops) {
        Ok(()) => writer.write_all(&rows.text),
        Err(error) => Err(error),
    };
    drop(rows);
    printed?;
    writer.flush()
}

/// Words of the rows' scripts that name an operation of a job's own name the composition of affine maps, `affine`.
fn main(rt: HostRuntime) -> ExitCode {
    let alloc = rt.alloc();
    let mut list: Vec<Box<dyn OwnOp + Send + Sync + Drop>> = Vec::new(alloc);
    let Ok(affine) = Box::new(alloc, Affine::of_programs()) else {
        return ExitCode::FAILURE;
    };
    if list.push(affine).is_err() {
        return ExitCode::FAILURE;
    }
    let Ok(ops) = Ops::new(list) else {
        return ExitCode::FAILURE;
    };
    match print_rows(&rt, alloc, &mut rt.reader(), &mut io::writer(&rt), &ops) {
        Ok(()) => ExitCode::SUCCESS,
        Err(_) => ExitCode::FAILURE,
    }
}
