//! A sum in flight while a group is made: what a rank may ask of its requests, and of a communicator.
use crate::TURNS;
use crate::calls::post_sum;
use crate::why::Why;
use mpx_comm::{Comm, Desk, Host, Request};
use mpx_num::{Numbers, Ops};
use mpx_ranks::Program;
use std::alloc::Global;

pub struct Asks;

impl Program for Asks {
    type Answer = Result<String, Why>;

    fn run<H: Host>(
        &self,
        alloc: Global,
        desk: &mut Desk<H>,
        world: &Comm,
        ops: &Ops,
    ) -> Result<String, Why> {
        let mine = i128::from(world.rank()) + 3;
        drop(post_sum(alloc, desk, world, mine, ops)?);
        let request = start_group(alloc, desk, world, ops)?;
        let done = both_done(alloc, desk, ops)?;
        let is_done = desk.status(alloc, &request, ops)?;
        let (mine, more) = (
            group_size(alloc, desk, request, ops)?,
            count_more(alloc, desk, ops)?,
        );
        let all = count_members(alloc, desk, world)?;
        Ok(format!(in alloc; "{done} done, {is_done}, {more} more, in a group of {mine} of {all}")?)
    }

    fn gives_up(&self, answer: &Result<String, Why>) -> bool {
        answer.is_err()
    }
}

// Ranks 0 and 1 make a group, and each other rank one of itself alone. It waits for nobody.
fn start_group<H: Host>(
    alloc: Global,
    desk: &mut Desk<H>,
    world: &Comm,
    ops: &Ops,
) -> Result<Request, Why> {
    let rank = i128::from(world.rank());
    let ranks = if rank < 2 {
        Numbers::from_slice(alloc, &[0u8, 1])?
    } else {
        Numbers::one(rank)
    };
    Ok(desk.start_create_group(alloc, world, 7, ranks, ops)?)
}

// How many calls were done when none of two was left.
fn both_done<H: Host>(alloc: Global, desk: &mut Desk<H>, ops: &Ops) -> Result<usize, Why> {
    let mut count: usize = 0;
    for _ in 0..2 {
        if count < 2 {
            count = count.saturating_add(count_done(alloc, desk, ops)?);
        }
    }
    Ok(count)
}

// How many calls are done when one is.
fn count_done<H: Host>(alloc: Global, desk: &mut Desk<H>, ops: &Ops) -> Result<usize, Why> {
    let done = desk.waitsome(alloc, TURNS, ops)?;
    let count = done.len();
    drop(done);
    Ok(count)
}

// How many ranks the new communicator has. Its result is had once more, and then let go with all that are older.
fn group_size<H: Host>(
    alloc: Global,
    desk: &mut Desk<H>,
    request: Request,
    ops: &Ops,
) -> Result<u8, Why> {
    let made = desk.wait_and_forget(alloc, request, 0, ops)?;
    let comm = Comm::of(alloc, &made);
    drop(made);
    Ok(comm?.ok_or(Why::NoAnswer)?.size())
}

// How many more are done, without a turn.
fn count_more<H: Host>(alloc: Global, desk: &mut Desk<H>, ops: &Ops) -> Result<usize, Why> {
    let done = desk.testsome(alloc, ops)?;
    let count = done.len();
    drop(done);
    Ok(count)
}

// How many ranks the communicator's group has.
fn count_members<H: Host>(alloc: Global, desk: &Desk<H>, comm: &Comm) -> Result<u8, Why> {
    let group = desk.group(alloc, comm)?;
    let count = group.size();
    drop(group);
    Ok(count)
}
