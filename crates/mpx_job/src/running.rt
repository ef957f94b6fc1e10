//! What every rank of a job runs, and how.
ghost use Rattle.std.specs.Prelude.{◌≡◌, IfOk, length};

use crate::printing::print_answers;
use mpx_comm::{Comm, Desk, Host};
use mpx_num::{Listing, Ops};
use mpx_program_rank::{CallError, Rank};
use mpx_ranks::{Program, RanksError, ranks};
use std::alloc::Global;
use std::fmt::Display;
use std::process::ExitCode;
use std::sync::Wait;
use std::thread::Threads;

/// An error with which a rank gives up.
pub trait GivesUp: Display {
    /// The other rank that gave up, where that is why.
    fn quitter(&self) -> Option<u8>;
}

impl GivesUp for CallError {
    fn quitter(&self) -> Option<u8> {
        CallError::quitter(self)
    }
}

/// What every rank of a job runs. It is written once, over any host.
pub trait RankProgram {
    /// What a rank answers.
    type Answer;

    /// Why a rank gives up: [`CallError`], or the program's own.
    type Error: GivesUp;

    /// The part of one rank. A rank that returns an `Err` ends the others' waits.
    fn run<H: Host>(&self, rank: &mut Rank<'_, H>) -> Result<Self::Answer, Self::Error>;

    /// How many turns a call waits at most.
    fn turns(&self) -> u64 {
        1_000_000
    }
}

// A program by its calls of a desk.
struct Ranked<'p, P> {
    program: &'p P,
}

impl<'p, P: RankProgram> Program for Ranked<'p, P> {
    type Answer = Result<P::Answer, P::Error>;

    fn run<H: Host>(
        &self,
        alloc: Global,
        desk: &mut Desk<H>,
        world: &Comm,
        _ops: &Ops,
    ) -> Result<P::Answer, P::Error> {
        let turns = self.program.turns();
        let mut rank = Rank {
            desk,
            alloc,
            world,
            turns,
        };
        self.program.run(&mut rank)
    }

    fn gives_up(&self, answer: &Result<P::Answer, P::Error>) -> bool {
        answer.is_err()
    }
}

/// Runs a program on this number of ranks, each in a thread of its own: what each of them answers, in rank order.
pub fn job<P: RankProgram + Sync, R: Threads + Wait + Sync>(
    rt: &R,
    alloc: Global,
    count: u8,
    program: &P,
    ops: &Ops,
) -> Result<Vec<Result<P::Answer, P::Error>>, RanksError>
where
    P::Answer: Send + Drop,
    P::Error: Send + Drop,
    ensures { IfOk result (λ answers. length answers.items ≡ count) }
{
    let ranked = Ranked { program };
    let ran = ranks(rt, alloc, count, 0, &ranked, ops);
    let Ranked { program: _ } = ranked;
    match ran {
        Ok(ran) => Ok(ran.into_answers()),
        Err(e) => Err(e),
    }
}

/// A job without operations of its own, and what [`print_answers`] prints of it. It fails where a rank gave up, or where there was no job, and then it
/// prints why.
pub fn run<P: RankProgram + Sync, R: Threads + Wait + Print + Eprint + Sync>(
    rt: &R,
    alloc: Global,
    count: u8,
    program: &P,
) -> ExitCode
where
    P::Answer: Display + Send + Drop,
    P::Error: Send + Drop,
{
    let ops = Ops::none(alloc);
    match job(rt, alloc, count, program, &ops) {
        Ok(answers) => print_answers(rt, &answers),
        Err(e) => {
            let _printed = eprintln!(rt; "no job: {e}");
            ExitCode::FAILURE
        }
    }
}
