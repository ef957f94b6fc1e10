//! The program `programs`: small programs by `ranks`, as the tutorials of MPI have them, each in a file of its own, and four whose boards the
//! program carries by hand. By the words `pipe 0` and `pipe 1` it is one of two processes that add their numbers, on its standard streams.
#![tactic(auto)]

mod asks;
mod calls;
mod desks;
mod flight;
mod hist;
mod inbox;
mod nodes;
mod paths;
mod pipe;
mod ring;
mod scan;
mod sort;
mod waiting;
mod why;

use asks::Asks;
use calls::Calls;
use desks::sum_by_hand;
use flight::Flight;
use hist::Histogram;
use matrix_product::Product;
use mpx_job::{GivesUp, job};
use mpx_num::{Ops, OwnOp};
use mpx_ranks::{Program, RanksError, ranks};
use nodes::sums_of_own_nodes;
use paths::Paths;
use pipe::{process, sums_by_lines};
use ring::Ring;
use scan::Scan;
use sort::Sort;
use std::alloc::Global;
use std::io::{Input, Write};
use std::process::ExitCode;
use std::sync::Wait;
use std::thread::Threads;
use std::{env, io};
use waiting::sum_from_inbox;
use why::Why;

/// So many turns a call waits at most.
pub const TURNS: u64 = 1_000_000;

// Runs a program by its desks, on so many ranks.
fn desk_job<P, R: Threads + Wait + Sync>(
    rt: &R,
    alloc: Global,
    count: u8,
    program: &P,
    ops: &Ops,
) -> Result<Vec<Result<String, Why>>, RanksError>
where
    P: Program<Answer = Result<String, Why>> + Sync,
{
    Ok(ranks(rt, alloc, count, 0, program, ops)?.into_answers())
}

// Prints what each rank of a job answers. Where ranks gave up, the error is one that names no other rank, if there is one: the cause.
fn print_answers<W: Write>(
    out: &mut W,
    name: &str,
    ran: Result<Vec<Result<String, Why>>, RanksError>,
) -> Result<(), Why> {
    let mut named = None;
    for (rank, answer) in ran?.into_iter().enumerate() {
        match answer {
            Ok(text) => writeln!(out, "{name}, rank {rank}: {text}")?,
            Err(why) => {
                if why.quitter().is_none() {
                    return Err(why);
                }
                named = Some(why);
            }
        }
    }
    match named {
        Some(why) => Err(why),
        None => Ok(()),
    }
}

fn print_all<R: Threads + Wait + Sync, W: Write>(
    rt: &R,
    alloc: Global,
    out: &mut W,
    ops: &Ops,
) -> Result<(), Why> {
    print_answers(out, "scan", job(rt, alloc, 6, &Scan, ops))?;
    print_answers(out, "sort", job(rt, alloc, 16, &Sort { each: 200 }, ops))?;
    print_answers(out, "paths", job(rt, alloc, 8, &Paths, ops))?;
    print_answers(out, "flight", job(rt, alloc, 3, &Flight, ops))?;
    print_answers(
        out,
        "hist",
        job(rt, alloc, 6, &Histogram { each: 1_000 }, ops),
    )?;
    print_answers(out, "ring", job(rt, alloc, 5, &Ring, ops))?;
    print_answers(out, "asks", desk_job(rt, alloc, 3, &Asks, ops))?;
    print_answers(out, "calls", desk_job(rt, alloc, 3, &Calls, ops))?;
    print_by_hand(alloc, out, ops)?;
    Ok(out.flush()?)
}

// What comes of boards that go by hand.
fn print_by_hand<W: Write>(alloc: Global, out: &mut W, ops: &Ops) -> Result<(), Why> {
    writeln!(out, "by hand {}", sum_by_hand(alloc, ops)?)?;
    let (sum, boards) = sum_from_inbox(alloc, ops)?;
    writeln!(out, "inbox {sum} {boards}")?;
    let (left, right) = sums_of_own_nodes(alloc, ops)?;
    writeln!(out, "nodes {left} {right}")?;
    let (first, last) = sums_by_lines(alloc, ops)?;
    writeln!(out, "pipe {first} {last}")?;
    Ok(())
}

// What the words ask for: all programs, or one of the two processes.
#[derive(Clone, Copy)]
enum Asked {
    All,
    Rank0,
    Rank1,
}

fn process_asked(rank: &str) -> Option<Asked> {
    if rank == "0" {
        Some(Asked::Rank0)
    } else if rank == "1" {
        Some(Asked::Rank1)
    } else {
        None
    }
}

fn asked_of(rt: &HostRuntime) -> Option<Asked> {
    let words: Vec<String> = env::args(rt).ok()?.collect(rt.alloc()).ok()?;
    match words.as_slice() {
        [_] => Some(Asked::All),
        [_, pipe, rank] if pipe.as_str() == "pipe" => process_asked(rank.as_str()),
        _ => None,
    }
}

// Does what is asked for.
fn answer<R: Threads + Wait + Input + Sync, W: Write>(
    rt: &R,
    alloc: Global,
    asked: Asked,
    out: &mut W,
    ops: &Ops,
) -> Result<(), Why> {
    let sum = match asked {
        Asked::All => return print_all(rt, alloc, out, ops),
        Asked::Rank0 => process(alloc, 0, ops, rt.reader(), out)?,
        Asked::Rank1 => process(alloc, 1, ops, rt.reader(), out)?,
    };
    sum.ok_or(Why::NoAnswer)?;
    Ok(())
}

// Makes the list of the job's own operations, and answers by it.
fn go<R: Threads + Wait + Input + Sync, W: Write>(
    rt: &R,
    alloc: Global,
    asked: Asked,
    out: &mut W,
) -> Result<(), Why> {
    let mut list: Vec<Box<dyn OwnOp + Send + Sync + Drop>> = Vec::new(alloc);
    list.push(Box::new(alloc, Product)?)?;
    let ops = Ops::new(list)?;
    answer(rt, alloc, asked, out, &ops)
}

fn main(rt: HostRuntime) -> ExitCode {
    let Some(asked) = asked_of(&rt) else {
        let _told = writeln!(rt.stderr(), "programs takes no words, or pipe 0, or pipe 1");
        return ExitCode::from(2);
    };
    match go(&rt, rt.alloc(), asked, &mut io::writer(&rt)) {
        Ok(()) => ExitCode::SUCCESS,
        Err(why) => {
            let _told = writeln!(rt.stderr(), "gave up: {why}");
            ExitCode::FAILURE
        }
    }
}
