//! What the boards of a simulated run say at its end of contexts that were freed.
ghost use Rattle.std.specs.Prelude.{◌≡◌};

use crate::lines::{ended, number_of, word_at};
use join_nest::Lift;
use mpx_board::Board;
use mpx_node::Node;
use mpx_num::Ops;
use mpx_run::{InThreads, Options, Unobserved, run_sim};
use mpx_script::{ReadScriptError, Script, read_script};
use std::alloc::Global;
use std::io::{self, Write};
use std::thread::Threads;

// A run in which half of all frames are lost, and three processes only carry frames.
fn options(seed: usize) -> Options
    ensures { result.relays ≡ 3 }
{
    Options {
        threads: false,
        seed: seed as u64,
        loss: 50,
        relays: 3,
        turns: 100_000,
        workers: None,
    }
}

// How many contexts the board knows, and how many of them it says are dead, of which it says nothing else.
fn push_board(text: &mut Vec<u8>, process: usize, board: &Board) -> io::Result<()> {
    let mut contexts: usize = 0;
    let mut dead: usize = 0;
    for (_, known) in board.pair().first.entries() {
        contexts = contexts.wrapping_add(1);
        if matches!(known, Lift::Dead) {
            dead = dead.wrapping_add(1);
        }
    }
    writeln!(text, "process {process}: {contexts} contexts, {dead} dead")
}

fn push_nodes(text: &mut Vec<u8>, nodes: &[Node]) -> io::Result<()> {
    for (process, node) in nodes.iter().enumerate() {
        push_board(text, process, node.board())?;
    }
    Ok(())
}

fn push_run<T: Threads + Sync>(
    rt: &T,
    alloc: Global,
    text: &mut Vec<u8>,
    script: &Script,
    seed: usize,
    ops: &Ops,
) -> io::Result<()> {
    if script.ranks() > 61 {
        return writeln!(text, "too many processes");
    }
    let Ok(run) = run_sim(
        &InThreads { rt },
        alloc,
        script,
        &options(seed),
        &mut Unobserved,
        ops,
    ) else {
        return writeln!(text, "out of memory");
    };
    let pushed = push_nodes(text, &run.nodes);
    run.let_go();
    pushed
}

// What is told of a script that was read.
fn push_dead<T: Threads + Sync>(
    rt: &T,
    alloc: Global,
    text: &mut Vec<u8>,
    read: &Result<Script, ReadScriptError>,
    seed: usize,
    ops: &Ops,
) -> io::Result<()> {
    match read {
        Ok(script) => push_run(rt, alloc, text, script, seed, ops)?,
        Err(error) => writeln!(text, "{error}")?,
    }
    Ok(text.extend_from_slice(b"= 0\n")?)
}

/// `dead SEED`: of each process how many contexts its board knows at the end of such a run, and how many of these are dead there.
pub fn dead<T: Threads + Sync>(
    rt: &T,
    alloc: Global,
    line: &[u8],
    script: &[u8],
    ops: &Ops,
) -> io::Result<Vec<u8>> {
    let mut text = Vec::new(alloc);
    let read = read_script(alloc, script, ops);
    let seed = number_of(word_at(line, 2));
    let pushed = push_dead(rt, alloc, &mut text, &read, seed, ops);
    drop(read);
    ended(text, pushed)
}
