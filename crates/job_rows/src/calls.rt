//! What a row asks for: a call of the program, with streams as they mostly are or with such as fail, or what no call shows.
use crate::begins::{begins, status};
use crate::dead::dead;
use crate::gated_runs::{both_asked, counted, strange_job, told_meanwhile};
use crate::lines::{ended, joined, many_words, number_of, word_at, words_of};
use crate::program::{Exited, call_program};
use crate::statements::{Asked, told_of};
use crate::streams::{Failing, Holding, Limited};
use mpx_num::Ops;
use mpx_script::ReadScriptError;
use mpx_words::not_text;
use std::alloc::Global;
use std::io::{self, Read, Write};
use std::sync::Wait;
use std::thread::Threads;

/// What the row of this line comes to, with its status.
pub fn told<T: Threads + Wait + Sync>(
    rt: &T,
    alloc: Global,
    line: &[u8],
    script: &[u8],
    ops: &Ops,
) -> io::Result<Vec<u8>> {
    let word = word_at(line, 1);
    if word == b"statements".as_slice() {
        told_of(alloc, script, Asked::Statements, ops)
    } else if word == b"sizes".as_slice() {
        told_of(alloc, script, Asked::Sizes, ops)
    } else if word == b"last".as_slice() {
        told_of(alloc, script, Asked::Last, ops)
    } else if word == b"job".as_slice() {
        strange_job(rt, alloc, word_at(line, 2), script, ops)
    } else if word == b"gate".as_slice() {
        counted(rt, alloc, script, true, ops)
    } else if word == b"steps".as_slice() {
        counted(rt, alloc, script, false, ops)
    } else if word == b"both".as_slice() {
        both_asked(rt, alloc, script, ops)
    } else if word == b"meanwhile".as_slice() {
        told_meanwhile(rt, alloc, script, ops)
    } else if word == b"begins".as_slice() {
        begins(rt, alloc, line, script)
    } else if word == b"dead".as_slice() {
        dead(rt, alloc, line, script, ops)
    } else if word == b"no-text".as_slice() {
        no_text(rt, alloc)
    } else if word == b"memory".as_slice() {
        Ok(format!(in alloc; "{}\n= 0\n", ReadScriptError::OutOfMemory)?.into_bytes())
    } else {
        streamed(rt, alloc, word, line, script)
    }
}

// A call, with the streams that the first word tells. `terminal WORDS` is shown on a terminal, whose clock leaps on by two seconds at each
// look; `many N WORDS` has `--seed 1` so many times behind its words.
fn streamed<T: Threads + Wait + Sync>(
    rt: &T,
    alloc: Global,
    word: &[u8],
    line: &[u8],
    script: &[u8],
) -> io::Result<Vec<u8>> {
    let first = number_of(word_at(line, 2));
    if word == b"reader".as_slice() {
        from_failing(rt, alloc, line, script, first)
    } else if word == b"endless".as_slice() {
        from_endless(rt, alloc, line)
    } else if word == b"writer".as_slice() {
        into_limited(rt, alloc, line, script, first)
    } else if word == b"holding".as_slice() {
        into_holding(rt, alloc, line, script, first == 1)
    } else if word == b"length".as_slice() {
        length(rt, alloc, line, script)
    } else if word == b"status".as_slice() {
        status(rt, alloc, line, script)
    } else if word == b"terminal".as_slice() {
        called(rt, alloc, words_of(alloc, line, 2)?, script, true)
    } else if word == b"many".as_slice() {
        called(rt, alloc, many_words(alloc, line, first)?, script, false)
    } else {
        called(rt, alloc, words_of(alloc, line, 1)?, script, false)
    }
}

// Makes the call that these words ask for, shown on what is a terminal or isn't.
fn called<T: Threads + Wait + Sync>(
    rt: &T,
    alloc: Global,
    words: Vec<String>,
    script: &[u8],
    is_terminal: bool,
) -> io::Result<Vec<u8>> {
    let mut out = Vec::new(alloc);
    let mut reader = script;
    let said = shown_on(rt, alloc, words, &mut reader, &mut out, is_terminal);
    joined(Ok(out), said)
}

// Makes the call that the line's words from this place on ask for, over these streams. Gives what the standard error is told, and the status.
fn said_by<T: Threads + Wait + Sync, R: Read, W: Write>(
    rt: &T,
    alloc: Global,
    line: &[u8],
    from: usize,
    reader: &mut R,
    out: &mut W,
) -> io::Result<Vec<u8>> {
    shown_on(rt, alloc, words_of(alloc, line, from)?, reader, out, false)
}

// The same, where the run is shown on what is a terminal or isn't: what it was shown comes first, and then what the standard error is told.
fn shown_on<T: Threads + Wait + Sync, R: Read, W: Write>(
    rt: &T,
    alloc: Global,
    words: Vec<String>,
    reader: &mut R,
    out: &mut W,
    is_terminal: bool,
) -> io::Result<Vec<u8>> {
    let mut said = Vec::new(alloc);
    let exited = call_program(rt, alloc, Ok(words), reader, out, &mut said, is_terminal);
    with_said(exited, said)
}

// What a run was shown on, then what was said, and the status.
fn with_said(exited: Exited, said: Vec<u8>) -> io::Result<Vec<u8>> {
    let Exited { status, shown } = exited;
    let mut text = shown;
    let pushed = push_said(&mut text, &said, status);
    drop(said);
    ended(text, pushed)
}

// What was said, and the status.
fn push_said(text: &mut Vec<u8>, said: &[u8], status: u8) -> io::Result<()> {
    text.extend_from_slice(said)?;
    writeln!(text, "= {status}")
}

// `reader N WORDS`: the reader's call N fails. How many bytes were not read stands behind what is printed.
fn from_failing<T: Threads + Wait + Sync>(
    rt: &T,
    alloc: Global,
    line: &[u8],
    bytes: &[u8],
    calls: usize,
) -> io::Result<Vec<u8>> {
    let mut reader = Failing { bytes, calls };
    let mut out = Vec::new(alloc);
    let said = said_by(rt, alloc, line, 3, &mut reader, &mut out);
    let left = writeln!(out, "{} bytes left", reader.bytes.len());
    joined(ended(out, left), said)
}

// `endless WORDS`: the reader gives `#` without end.
fn from_endless<T: Threads + Wait + Sync>(
    rt: &T,
    alloc: Global,
    line: &[u8],
) -> io::Result<Vec<u8>> {
    let mut reader = io::repeat(b'#');
    let mut out = Vec::new(alloc);
    let said = said_by(rt, alloc, line, 2, &mut reader, &mut out);
    joined(Ok(out), said)
}

// `writer ROOM PIECE WORDS`: the writer takes so many bytes in all, and so many a call.
fn into_limited<T: Threads + Wait + Sync>(
    rt: &T,
    alloc: Global,
    line: &[u8],
    script: &[u8],
    room: usize,
) -> io::Result<Vec<u8>> {
    let mut writer = Limited {
        held: Vec::new(alloc),
        piece: number_of(word_at(line, 3)),
        room,
    };
    let mut reader = script;
    let said = said_by(rt, alloc, line, 4, &mut reader, &mut writer);
    joined(Ok(writer.held), said)
}

// `holding 0 WORDS`: the writer gives on what is flushed alone; `holding 1 WORDS`: and its flush fails.
fn into_holding<T: Threads + Wait + Sync>(
    rt: &T,
    alloc: Global,
    line: &[u8],
    script: &[u8],
    fails: bool,
) -> io::Result<Vec<u8>> {
    let mut writer = Holding {
        held: Vec::new(alloc),
        out: Vec::new(alloc),
        fails,
    };
    let mut reader = script;
    let said = said_by(rt, alloc, line, 3, &mut reader, &mut writer);
    joined(Ok(writer.into_text()), said)
}

// `length WORDS`: in place of what is printed, how long it is.
fn length<T: Threads + Wait + Sync>(
    rt: &T,
    alloc: Global,
    line: &[u8],
    script: &[u8],
) -> io::Result<Vec<u8>> {
    let mut out = Vec::new(alloc);
    let mut reader = script;
    let said = said_by(rt, alloc, line, 2, &mut reader, &mut out);
    let bytes = out.len();
    out.clear();
    let told = writeln!(out, "{bytes} bytes");
    joined(ended(out, told), said)
}

// `no-text`: what is said where a word of the call isn't UTF-8.
fn no_text<T: Threads + Wait + Sync>(rt: &T, alloc: Global) -> io::Result<Vec<u8>> {
    let mut said = Vec::new(alloc);
    let mut out = Vec::new(alloc);
    let mut reader = b"".as_slice();
    let words = Err(not_text(alloc));
    let exited = call_program(rt, alloc, words, &mut reader, &mut out, &mut said, false);
    drop(out);
    with_said(exited, said)
}
