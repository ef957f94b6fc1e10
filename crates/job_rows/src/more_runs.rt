//! Runs that no row asks for. Of each script the first run that ends well is made once more, in threads. Where an evaluation ends
//! well before any run, the script is run.
use crate::calls::told;
use crate::lines::word_at;
use mpx_num::Ops;
use std::alloc::Global;
use std::io;
use std::sync::Wait;
use std::thread::Threads;

// Scripts that are longer are not run after an evaluation.
const LONGEST: usize = 2_000;

/// How many such runs were made.
#[derive(Drop)]
pub struct MoreRuns {
    threaded: usize,
    simulated: usize,
    // whether this script was run in threads, and whether it was run
    is_threaded: bool,
    is_run: bool,
}

impl MoreRuns {
    /// None yet.
    pub fn new() -> MoreRuns {
        MoreRuns {
            threaded: 0,
            simulated: 0,
            is_threaded: false,
            is_run: false,
        }
    }

    /// How many were made in threads.
    pub fn threaded(&self) -> usize {
        self.threaded
    }

    /// How many were made after an evaluation.
    pub fn simulated(&self) -> usize {
        self.simulated
    }

    /// The rows of another script begin.
    pub fn begin_script(&mut self) {
        self.is_threaded = false;
        self.is_run = false;
    }

    /// Makes the run that belongs to this row, where there is one. Gives what it comes to, where that isn't what the row came to.
    pub fn make<T: Threads + Wait + Sync>(
        &mut self,
        rt: &T,
        alloc: Global,
        line: &[u8],
        script: &[u8],
        came: &[u8],
        ops: &Ops,
    ) -> io::Result<Option<Vec<u8>>> {
        if !has_ended_well(came) {
            return Ok(None);
        }
        if is_run(line) && !self.is_threaded {
            self.is_threaded = true;
            self.is_run = true;
            self.threaded = self.threaded.saturating_add(1);
            run_in_threads(rt, alloc, line, script, came, ops)
        } else if is_evaluation(line) && !self.is_run && script.len() <= LONGEST {
            self.is_run = true;
            self.simulated = self.simulated.saturating_add(1);
            other_than(came, told(rt, alloc, b"> run", script, ops))
        } else {
            Ok(None)
        }
    }
}

// Makes the run of this row in threads.
fn run_in_threads<T: Threads + Wait + Sync>(
    rt: &T,
    alloc: Global,
    line: &[u8],
    script: &[u8],
    came: &[u8],
    ops: &Ops,
) -> io::Result<Option<Vec<u8>>> {
    let mut call = Vec::new(alloc);
    let again = match push_threaded(&mut call, line) {
        Ok(()) => told(rt, alloc, &call, script, ops),
        Err(error) => Err(error),
    };
    drop(call);
    other_than(came, again)
}

fn push_threaded(call: &mut Vec<u8>, line: &[u8]) -> io::Result<()> {
    call.extend_from_slice(line)?;
    Ok(call.extend_from_slice(b" --threads --turns 10000000")?)
}

// What another run came to, where that isn't the same.
fn other_than(came: &[u8], again: io::Result<Vec<u8>>) -> io::Result<Option<Vec<u8>>> {
    let again = again?;
    if again.as_slice() == came {
        drop(again);
        return Ok(None);
    }
    Ok(Some(again))
}

// Whether the row is a run without threads, with streams as they mostly are, that nobody is shown.
fn is_run(line: &[u8]) -> bool {
    word_at(line, 1) == b"run".as_slice()
        && !has_word(line, b"--threads")
        && !has_word(line, b"--trace")
        && !has_word(line, b"--table")
}

// Whether the row is an evaluation, of which nothing is explained.
fn is_evaluation(line: &[u8]) -> bool {
    word_at(line, 1) == b"eval".as_slice() && !has_word(line, b"--explain")
}

// Whether the text ends with the status 0.
fn has_ended_well(came: &[u8]) -> bool {
    came == b"= 0\n".as_slice() || came.ends_with(b"\n= 0\n")
}

// Whether this is one of the line's words.
fn has_word(line: &[u8], wanted: &[u8]) -> bool {
    for word in line.split(|byte| *byte == b' ') {
        if word == wanted {
            return true;
        }
    }
    false
}
