//! The program's own call, as its `main` makes it, over streams in memory.
use crate::terminals::{Leaping, Shown};
use mpx_program::{
    Streams, asks_for_threads, exit_code, exit_code_in_threads, say_how_to_give, seen_by,
};
use mpx_words::call_of;
use std::alloc::Global;
use std::io::{Read, Write};
use std::process::ExitCode;
use std::sync::Wait;
use std::thread::Threads;

/// How a call exited.
#[derive(Drop)]
pub struct Exited {
    /// The status of the process; 255 for one that the program doesn't have.
    pub status: u8,
    /// What its run was shown on.
    pub shown: Vec<u8>,
}

/// Makes the call with these words, or with some that are no text, from what is a terminal or isn't, and shown there.
pub fn call_program<T: Threads + Wait + Sync, R: Read, W: Write>(
    rt: &T,
    alloc: Global,
    words: Result<Vec<String>, clap::Error>,
    reader: &mut R,
    out: &mut W,
    said: &mut Vec<u8>,
    is_terminal: bool,
) -> Exited {
    let shown = Shown {
        text: Vec::new(alloc),
        is_terminal,
    };
    let clock = Leaping::new();
    let asked = match words {
        Ok(words) => call_of(alloc, &words),
        Err(why) => Err(why),
    };
    say_how_to_give(&asked, &shown, said);
    let mut seen = seen_by(&asked, alloc, &clock, shown);
    let mut streams = Streams {
        reader,
        out,
        err: said,
    };
    let code = if asks_for_threads(&asked) {
        exit_code_in_threads(rt, alloc, &asked, &mut streams, &mut seen)
    } else {
        exit_code(rt, alloc, &asked, &mut streams, &mut seen)
    };
    drop(streams);
    drop(asked);
    Exited {
        status: number_of(code),
        shown: seen.into_writer().text,
    }
}

// The number of a status.
fn number_of(code: ExitCode) -> u8 {
    for number in 0..=6u8 {
        if code == ExitCode::from(number) {
            return number;
        }
    }
    255
}
