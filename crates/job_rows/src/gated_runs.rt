//! Runs that a row makes by the library: with options that can't be, and in threads with a gate that holds or ends them.
use crate::gates::{Both, Counting, UntilTold};
use crate::lines::{ended, joined};
use crate::terminals::{AllBegun, Leaping};
use mpx_num::Ops;
use mpx_program::{status_of, write_message};
use mpx_run::{
    Command, End, Gate, Job, Observer, Options, RunError, Unobserved, run_text, run_text_observed,
};
use std::alloc::Global;
use std::io;
use std::io::Write;
use std::sync::Wait;
use std::thread::Threads;

// Options of a run that can't be: with one rank there are too many processes, and no frame comes.
const STRANGE: Options = Options {
    threads: false,
    seed: 1,
    loss: 100,
    relays: 63,
    turns: 100_000,
    workers: None,
};

/// `job WORD`: the job of this word with strange options, which do nothing for a check and an evaluation.
pub fn strange_job<T: Threads + Wait + Sync>(
    rt: &T,
    alloc: Global,
    word: &[u8],
    script: &[u8],
    ops: &Ops,
) -> io::Result<Vec<u8>> {
    let command = if word == b"check".as_slice() {
        Command::Check
    } else if word == b"eval".as_slice() {
        Command::Eval
    } else {
        Command::Run
    };
    let job = Job {
        command,
        options: STRANGE,
    };
    let mut reader = script;
    let mut out = Vec::new(alloc);
    let answer = run_text(rt, alloc, &job, &mut reader, &mut out, ops);
    with_answer(out, answer)
}

// What a job printed, with the message and the status of its answer.
fn with_answer(mut text: Vec<u8>, answer: Result<End, RunError>) -> io::Result<Vec<u8>> {
    let pushed = push_answer(&mut text, &answer);
    drop(answer);
    ended(text, pushed)
}

fn push_answer(text: &mut Vec<u8>, answer: &Result<End, RunError>) -> io::Result<()> {
    match write_message(answer, text) {
        Ok(()) => writeln!(text, "= {}", status_of(answer, false)),
        Err(_) => Err(io::Error::from(io::ErrorKind::WriteZero)),
    }
}

/// `both`: a run in threads in which ranks 0 and 1 are held until both have asked for their first frame.
pub fn both_asked<T: Threads + Wait + Sync>(
    rt: &T,
    alloc: Global,
    script: &[u8],
    ops: &Ops,
) -> io::Result<Vec<u8>> {
    let gate = Both::new();
    let mut out = Vec::new(alloc);
    let answer = in_threads(rt, alloc, script, 0, &mut out, &mut Unobserved, &gate, ops);
    let told = push_asked(&mut out, &answer, gate.were_asked());
    drop(answer);
    ended(out, told)
}

fn push_asked(text: &mut Vec<u8>, answer: &Result<End, RunError>, asked: bool) -> io::Result<()> {
    push_answer(text, answer)?;
    if asked {
        return Ok(());
    }
    writeln!(text, "not asked")
}

/// `gate`: a run of three ranks and two relays in threads, which a gate ends at the fifth push of rank 0; `steps`: the same with a gate
/// that lets all pass. Behind it stands of each process whether the gate was asked for each of its steps.
pub fn counted<T: Threads + Wait + Sync>(
    rt: &T,
    alloc: Global,
    script: &[u8],
    gives_up: bool,
    ops: &Ops,
) -> io::Result<Vec<u8>> {
    let counting = Counting::new(alloc, 5, gives_up)?;
    let mut out = Vec::new(alloc);
    let told = push_counted(rt, alloc, script, &counting, &mut out, ops);
    drop(counting);
    ended(out, told)
}

fn push_counted<T: Threads + Wait + Sync>(
    rt: &T,
    alloc: Global,
    script: &[u8],
    counting: &Counting,
    out: &mut Vec<u8>,
    ops: &Ops,
) -> io::Result<()> {
    let answer = in_threads(rt, alloc, script, 2, out, &mut Unobserved, counting, ops);
    let told = push_answer(out, &answer);
    drop(answer);
    told?;
    counting.tell(TURNS, out)
}

/// `meanwhile`: what is told on a terminal of a run in threads that is held until all its calls have begun.
pub fn told_meanwhile<T: Threads + Wait + Sync>(
    rt: &T,
    alloc: Global,
    script: &[u8],
    ops: &Ops,
) -> io::Result<Vec<u8>> {
    let clock = Leaping::new();
    let gate = UntilTold::new();
    let mut begun = AllBegun::new(alloc, &clock, &gate);
    let mut out = Vec::new(alloc);
    let answer = in_threads(rt, alloc, script, 0, &mut out, &mut begun, &gate, ops);
    joined(
        joined(Ok(out), Ok(begun.into_text())),
        with_answer(Vec::new(alloc), answer),
    )
}

// How many turns a process makes at most in a run that has a gate.
const TURNS: u32 = 20_000;

// A run in threads that this gate may end, while somebody looks on: what is printed goes to `out`.
fn in_threads<T: Threads + Wait + Sync, G: Gate + Sync>(
    rt: &T,
    alloc: Global,
    script: &[u8],
    relays: u8,
    out: &mut Vec<u8>,
    observer: &mut dyn Observer,
    gate: &G,
    ops: &Ops,
) -> Result<End, RunError> {
    let job = Job {
        command: Command::Run,
        options: Options {
            threads: true,
            relays,
            turns: TURNS,
            ..STRANGE
        },
    };
    let mut reader = script;
    run_text_observed(rt, alloc, &job, &mut reader, out, observer, gate, ops)
}
