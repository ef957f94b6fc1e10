//! Two reductions in flight beside a rank's own work.
use crate::why::Why;
use mpx_job::RankProgram;
use mpx_num::Op;
use mpx_program_rank::{Done, Host, Pending, Rank};

// How many pieces of its own work a rank has at most.
const PIECES: u64 = 1_000_000;

pub struct Flight;

impl RankProgram for Flight {
    type Answer = String;

    type Error = Why;

    fn run<H: Host>(&self, rank: &mut Rank<'_, H>) -> Result<String, Why> {
        drop(post(rank, Op::Sum)?);
        drop(post(rank, Op::Max)?);
        let sum = polled(rank)?;
        let most = rank.waitany()?.ok_or(Why::NoAnswer)?;
        let most = number_of(rank, &most)?;
        Ok(format!(in rank.alloc; "sum {sum}, most {most}")?)
    }
}

// Posts the rank's number. It waits for nobody.
fn post<H: Host>(rank: &mut Rank<'_, H>, op: Op) -> Result<Pending<i32>, Why> {
    let mine = i32::from(rank.number()) + 3;
    Ok(rank.iallreduce(rank.world(), op, &[mine])?)
}

// The number of the first open call that is done. Each look makes a turn, and after it the rank does a piece of its own work.
fn polled<H: Host>(rank: &mut Rank<'_, H>) -> Result<i32, Why> {
    for _ in 0..PIECES {
        if let Some(done) = rank.testany()? {
            return number_of(rank, &done);
        }
        // here stands a piece of the rank's own work
    }
    Err(Why::NoAnswer)
}

// The number that a call gave.
fn number_of<H: Host>(rank: &Rank<'_, H>, done: &Done) -> Result<i32, Why> {
    let list = done.list(rank.alloc)?;
    list.first().copied().ok_or(Why::NoAnswer)
}
