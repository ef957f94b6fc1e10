//! Jobs of ranks by size: 20,000 calls on one communicator whose results are all kept, and lists of more than a million bytes.
use mpx_comm::{Comm, Desk, Host, Request};
use mpx_num::{Numbers, Ops, Ty};
use mpx_ranks::{Program, numbers_of, ranks};
use std::alloc::Global;
use std::sync::Wait;
use std::test::Fail;
use std::thread::Threads;

// A call waits at most this number of turns.
const TURNS: u64 = 1_000_000;

// The greatest number of an i64. A frame spells it in nine bytes.
const GREATEST: i128 = 9_223_372_036_854_775_807;

// This number of barriers, one after the other. No result is let go. A rank answers how many ended.
#[derive(Drop)]
struct Barriers {
    calls: u32,
}

impl Program for Barriers {
    type Answer = u32;

    fn run<H: Host>(&self, alloc: Global, desk: &mut Desk<H>, world: &Comm, ops: &Ops) -> u32 {
        for call in 0..self.calls {
            if desk.barrier(alloc, world, TURNS, ops).is_err() {
                return call;
            }
        }
        self.calls
    }
}

// This number of barriers, all posted before the first wait. A rank answers how many ended.
#[derive(Drop)]
struct OpenBarriers {
    calls: u32,
}

impl Program for OpenBarriers {
    type Answer = usize;

    fn run<H: Host>(&self, alloc: Global, desk: &mut Desk<H>, world: &Comm, ops: &Ops) -> usize {
        let mut requests = Vec::new(alloc);
        for _ in 0..self.calls {
            let Ok(request) = desk.ibarrier(alloc, world, ops) else {
                return 0;
            };
            if requests.push(request).is_err() {
                return 0;
            }
        }
        match desk.waitall(alloc, requests, TURNS, ops) {
            Ok(all) => all.len(),
            Err(_) => 0,
        }
    }
}

// This number of allgathers, each of 4,096 items a rank, all posted before the first wait. A rank answers how many items it has in the end.
#[derive(Drop)]
struct Gathers {
    calls: u32,
}

impl Program for Gathers {
    type Answer = usize;

    fn run<H: Host>(&self, alloc: Global, desk: &mut Desk<H>, world: &Comm, ops: &Ops) -> usize {
        match all_posted(alloc, desk, world, self.calls, ops) {
            Some(requests) => count_items(alloc, desk, requests, ops),
            None => 0,
        }
    }
}

// The requests of this number of allgathers.
fn all_posted<H: Host>(
    alloc: Global,
    desk: &mut Desk<H>,
    world: &Comm,
    calls: u32,
    ops: &Ops,
) -> Option<Vec<Request>> {
    let mut requests = Vec::new(alloc);
    for _ in 0..calls {
        let list = vec![in alloc; GREATEST; 4_096].ok()?;
        let items = Numbers::new(alloc, list).ok()?;
        let request = desk.iallgather(alloc, world, Ty::I64, items, ops).ok()?;
        requests.push(request).ok()?;
    }
    Some(requests)
}

// How many items of the greatest number the results of these calls have.
fn count_items<H: Host>(
    alloc: Global,
    desk: &mut Desk<H>,
    requests: Vec<Request>,
    ops: &Ops,
) -> usize {
    let Ok(all) = desk.waitall(alloc, requests, TURNS, ops) else {
        return 0;
    };
    let mut count: usize = 0;
    for finished in all.iter() {
        if let Ok(numbers) = numbers_of(finished) {
            count = count.saturating_add(numbers.iter().filter(|it| **it == GREATEST).count());
        }
    }
    count
}

// What each of this number of ranks answers, if the job ends well.
fn answers_of<P: Program + Sync, R: Threads + Wait + Sync>(
    rt: &R,
    alloc: Global,
    count: u8,
    program: &P,
) -> Option<Vec<P::Answer>>
where
    P::Answer: Send + Drop,
{
    let ops = Ops::none(alloc);
    let ran = ranks(rt, alloc, count, 0, program, &ops).ok()?;
    Some(ran.into_answers())
}

#[test]
fn results_of_20_000_calls_are_kept(rt: HostRuntime) -> Result<(), Fail> {
    let alone = answers_of(&rt, rt.alloc(), 1, &Barriers { calls: 20_000 });
    let wanted = vec![in rt.alloc(); 20_000u32]?;
    assert_eq!(rt; alone, Some(wanted));
    let both = answers_of(&rt, rt.alloc(), 2, &OpenBarriers { calls: 20_000 });
    let wanted = vec![in rt.alloc(); 20_000usize, 20_000]?;
    assert_eq!(rt; both, Some(wanted));
    Ok(())
}

// Both ranks have more than a million bytes of posts to send, so their frames are as long as they may be.
#[test]
fn lists_of_a_million_bytes_reach_both_ranks(rt: HostRuntime) -> Result<(), Fail> {
    let answers = answers_of(&rt, rt.alloc(), 2, &Gathers { calls: 30 });
    let wanted = vec![in rt.alloc(); 245_760, 245_760]?;
    assert_eq!(rt; answers, Some(wanted));
    Ok(())
}
