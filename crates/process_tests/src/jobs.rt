//! Jobs of ranks in threads: how many there may be, a rank that returns before others post, one that gives up, ranks that ask again
//! where memory was wanting, ranks that let results go, and what a relay hears.
use mpx_board::Board;
use mpx_comm::{Comm, Desk, Host, Request, WaitError};
use mpx_group::Proc;
use mpx_name::Name;
use mpx_num::{Numbers, Op, Ops, Ty};
use mpx_post::PostError;
use mpx_ranks::{Program, RanksError, numbers_of, ranks};
use std::alloc::Global;
use std::sync::Wait;
use std::test::Fail;
use std::thread::{Parker, Threads};
use std::time::Duration;

// So many turns, 20 seconds and more, a call waits at most.
const TURNS: u64 = 20_000;

// The sum of all ranks. Rank 0 posts and returns at once; rank 3 posts so many milliseconds later.
#[derive(Drop)]
struct Leaves<'a, R> {
    rt: &'a R,
    late: u64,
}

impl<'a, R: Wait> Program for Leaves<'a, R> {
    type Answer = Option<i128>;

    fn run<H: Host>(
        &self,
        alloc: Global,
        desk: &mut Desk<H>,
        world: &Comm,
        ops: &Ops,
    ) -> Option<i128> {
        if world.rank() == 0 {
            drop(posted(alloc, desk, world, ops)?);
            return Some(0);
        }
        if world.rank() == 3 {
            Parker::new().park_timeout(self.rt, Duration::from_millis(self.late));
        }
        sum_of(alloc, desk, world, TURNS, ops)
    }
}

// Whether a rank hears that another gave up, while it waits for the sum of all for as long as it takes. Rank 1 gives up at once.
#[derive(Drop)]
struct GivesUp;

impl Program for GivesUp {
    type Answer = bool;

    fn run<H: Host>(&self, alloc: Global, desk: &mut Desk<H>, world: &Comm, ops: &Ops) -> bool {
        world.rank() != 1 && hears_of_it(alloc, desk, world, ops)
    }

    fn gives_up(&self, answer: &bool) -> bool {
        !*answer
    }
}

// Each rank answers its number at once. Rank 0 gives up.
#[derive(Drop)]
struct LeavesAtOnce;

impl Program for LeavesAtOnce {
    type Answer = u8;

    fn run<H: Host>(&self, _alloc: Global, _desk: &mut Desk<H>, world: &Comm, _ops: &Ops) -> u8 {
        world.rank()
    }

    fn gives_up(&self, answer: &u8) -> bool {
        *answer == 0
    }
}

// Two sums of all ranks, one behind the other.
#[derive(Drop)]
struct Sums;

impl Program for Sums {
    type Answer = Option<(i128, i128)>;

    fn run<H: Host>(
        &self,
        alloc: Global,
        desk: &mut Desk<H>,
        world: &Comm,
        ops: &Ops,
    ) -> Option<(i128, i128)> {
        let first = sum_of(alloc, desk, world, TURNS, ops)?;
        Some((first, sum_of(alloc, desk, world, TURNS, ops)?))
    }
}

// So many sums of all ranks, one behind the other. Each rank lets go what came before. It answers whether it has them all.
#[derive(Drop)]
struct LetsGo {
    calls: u32,
}

impl Program for LetsGo {
    type Answer = bool;

    fn run<H: Host>(&self, alloc: Global, desk: &mut Desk<H>, world: &Comm, ops: &Ops) -> bool {
        for _ in 0..self.calls {
            let Some(request) = posted(alloc, desk, world, ops) else {
                return false;
            };
            let waited = desk.wait_and_forget(alloc, request, TURNS, ops);
            if waited.is_err() {
                return false;
            }
        }
        true
    }
}

// Posts the rank's number to a sum, and once more where memory was wanting.
fn posted<H: Host>(alloc: Global, desk: &mut Desk<H>, world: &Comm, ops: &Ops) -> Option<Request> {
    for _ in 0..2 {
        let mine = Numbers::one(i128::from(world.rank()));
        match desk.iallreduce(alloc, world, Op::Sum, Ty::I64, mine, ops) {
            Ok(request) => return Some(request),
            Err(PostError::OutOfMemory) => {}
            Err(_) => return None,
        }
    }
    None
}

// The sum of the ranks' numbers: a wait, of at most so many turns, is made again where memory was wanting.
fn sum_of<H: Host>(
    alloc: Global,
    desk: &mut Desk<H>,
    world: &Comm,
    turns: u64,
    ops: &Ops,
) -> Option<i128> {
    let mut request = posted(alloc, desk, world, ops)?;
    for _ in 0..3 {
        match desk.wait(alloc, request, turns, ops) {
            Ok(finished) => return numbers_of(&finished).ok()?.first().copied(),
            Err(WaitError::OutOfMemory(again)) => request = again,
            Err(_) => return None,
        }
    }
    None
}

// Whether a wait without end is ended since rank 1 gave up. It is made again where memory was wanting.
fn hears_of_it<H: Host>(alloc: Global, desk: &mut Desk<H>, world: &Comm, ops: &Ops) -> bool {
    let Some(mut request) = posted(alloc, desk, world, ops) else {
        return false;
    };
    for _ in 0..3 {
        match desk.wait(alloc, request, u64::MAX, ops) {
            Err(WaitError::OutOfMemory(again)) => request = again,
            Err(WaitError::GaveUp(_, rank)) => return rank == 1,
            Ok(_) | Err(_) => return false,
        }
    }
    false
}

// What so many ranks and relays come to.
fn answers_of<P: Program + Sync, R: Threads + Wait + Sync>(
    rt: &R,
    alloc: Global,
    counts: (u8, u8),
    program: &P,
) -> Result<Vec<P::Answer>, RanksError>
where
    P::Answer: Send + Drop,
{
    let ops = Ops::none(alloc);
    Ok(ranks(rt, alloc, counts.0, counts.1, program, &ops)?.into_answers())
}

// How many ranks have both sums, where there are four ranks and a relay. A job for which memory or a thread was wanting is run again.
fn both_sums<R: Threads + Wait + Sync>(rt: &R, alloc: Global) -> Result<usize, RanksError> {
    let answers = match answers_of(rt, alloc, (4, 1), &Sums) {
        Ok(answers) => answers,
        Err(RanksError::BadCount) => return Err(RanksError::BadCount),
        Err(_) => answers_of(rt, alloc, (4, 1), &Sums)?,
    };
    let mut count: usize = 0;
    for answer in answers.iter() {
        if *answer == Some((6, 6)) {
            count = count.saturating_add(1);
        }
    }
    Ok(count)
}

// Whether forty jobs of 12 ranks and 20 relays, in each of which rank 0 gives up at once, give an answer of each rank.
fn all_answer<R: Threads + Wait + Sync>(rt: &R, alloc: Global) -> Result<bool, RanksError> {
    for _ in 0..40 {
        let answers = answers_of(rt, alloc, (12, 20), &LeavesAtOnce)?;
        if answers.len() != 12 {
            return Ok(false);
        }
    }
    Ok(true)
}

// How many results three ranks have let go in the end, all together.
fn count_let_go<R: Threads + Wait + Sync>(
    rt: &R,
    alloc: Global,
    calls: u32,
) -> Result<u32, RanksError> {
    let ops = Ops::none(alloc);
    let ran = ranks(rt, alloc, 3, 0, &LetsGo { calls }, &ops)?;
    let world = Name::world(alloc);
    let mut count: u32 = 0;
    for node in ran.nodes.iter() {
        count = count.saturating_add(node.forgotten(&world));
    }
    Ok(count)
}

// Whether each of three ranks has dropped posts in the end.
fn all_drop_posts<R: Threads + Wait + Sync>(
    rt: &R,
    alloc: Global,
    calls: u32,
) -> Result<bool, RanksError> {
    let ops = Ops::none(alloc);
    let ran = ranks(rt, alloc, 3, 0, &LetsGo { calls }, &ops)?;
    let world = Name::world(alloc);
    for node in ran.nodes.iter() {
        if node.board().dropped(&world) == 0 {
            return Ok(false);
        }
    }
    Ok(true)
}

// Whether each rank of a job but rank 1, which gives up, is told so, and of which.
fn all_hear_of_rank_1<R: Threads + Wait + Sync>(
    rt: &R,
    alloc: Global,
    counts: (u8, u8),
) -> Result<bool, RanksError> {
    let answers = answers_of(rt, alloc, counts, &GivesUp)?;
    for (rank, heard) in answers.iter().enumerate() {
        if *heard != (rank != 1) {
            return Ok(false);
        }
    }
    Ok(answers.len() == usize::from(counts.0))
}

// Whether a board has a post of a first call, or had one.
fn has_heard(board: &Board, name: &Name) -> bool {
    for rank in 0..4 {
        if board.holds(name, 0, Proc::new(rank)).is_some() {
            return true;
        }
    }
    board.dropped(name) > 0
}

// Whether a relay beside four ranks hears of their call, while they wait so many milliseconds for the last of them. Where memory or a
// thread was wanting it doesn't.
fn relay_hears<R: Threads + Wait + Sync>(rt: &R, alloc: Global, late: u64) -> bool {
    let ops = Ops::none(alloc);
    let Ok(ran) = ranks(rt, alloc, 4, 1, &Leaves { rt, late }, &ops) else {
        return false;
    };
    let world = Comm::world(alloc, 4, 0);
    match ran.nodes.last() {
        Some(node) => has_heard(node.board(), world.name()),
        None => false,
    }
}

#[test]
fn four_ranks_have_two_sums(rt: HostRuntime) -> Result<(), Fail> {
    assert_eq!(rt; both_sums(&rt, rt.alloc()), Ok(4));
    Ok(())
}

#[test]
fn a_rank_that_returned_is_heard(rt: HostRuntime) -> Result<(), Fail> {
    let answers = answers_of(&rt, rt.alloc(), (4, 0), &Leaves { rt: &rt, late: 50 });
    let wanted = vec![in rt.alloc(); Some(0), Some(6), Some(6), Some(6)]?;
    assert_eq!(rt; answers, Ok(wanted));
    Ok(())
}

// It may be long until a relay's thread is let run: the job is run again, each time longer.
#[test]
fn a_relay_hears_of_a_call(rt: HostRuntime) -> Result<(), Fail> {
    let mut heard = false;
    for late in [50u64, 500, 5_000, 10_000] {
        if !heard {
            heard = relay_hears(&rt, rt.alloc(), late);
        }
    }
    assert!(rt; heard);
    Ok(())
}

#[test]
fn nobody_waits_for_one_that_gives_up(rt: HostRuntime) -> Result<(), Fail> {
    for counts in [(4u8, 1u8), (40, 0)] {
        assert_eq!(rt; all_hear_of_rank_1(&rt, rt.alloc(), counts), Ok(true));
    }
    Ok(())
}

// Most threads look once more only behind the moment at which rank 0 has given up: none of them may take that for a thread that was refused.
#[test]
fn a_rank_that_gives_up_at_once_is_no_refused_thread(rt: HostRuntime) -> Result<(), Fail> {
    assert_eq!(rt; all_answer(&rt, rt.alloc()), Ok(true));
    Ok(())
}

// Each rank has let go all results but the newest.
#[test]
fn ranks_let_results_go(rt: HostRuntime) -> Result<(), Fail> {
    assert_eq!(rt; count_let_go(&rt, rt.alloc(), 20), Ok(57));
    Ok(())
}

#[test]
fn ranks_drop_posts(rt: HostRuntime) -> Result<(), Fail> {
    assert_eq!(rt; all_drop_posts(&rt, rt.alloc(), 20), Ok(true));
    Ok(())
}

#[test]
fn a_job_has_1_to_64_processes(rt: HostRuntime) -> Result<(), Fail> {
    for counts in [(0u8, 0u8), (0, 1), (65, 0), (64, 1), (1, 64), (255, 255)] {
        let answers = answers_of(&rt, rt.alloc(), counts, &Sums);
        assert_eq!(rt; answers.err(), Some(RanksError::BadCount));
    }
    let alone = answers_of(&rt, rt.alloc(), (1, 0), &Sums);
    let wanted = vec![in rt.alloc(); Some((0, 0))]?;
    assert_eq!(rt; alone, Ok(wanted));
    Ok(())
}
