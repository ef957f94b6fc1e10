//! The program `first_sum`: four ranks, each in a thread of its own, add their numbers, split, and gather.
#![tactic(auto)]

use mpx_job::{CallError, Host, Op, Rank, RankProgram, run};
use std::process::ExitCode;

struct FirstSum;

impl RankProgram for FirstSum {
    type Answer = String;

    type Error = CallError;

    fn run<H: Host>(&self, rank: &mut Rank<'_, H>) -> Result<String, CallError> {
        let world = rank.world();
        let mine = i64::from(world.rank()) + 1;
        let sum = rank.allreduce_one(world, Op::Sum, mine)?;
        let half = rank.split_by(world, mine % 2, 0)?;
        let all = rank.gather(&half, 0, &[mine])?;
        Ok(format!(in rank.alloc; "{sum}, {} of {}, {all:?}", half.rank(), half.size())?)
    }
}

fn main(rt: HostRuntime) -> ExitCode {
    run(&rt, rt.alloc(), 4, &FirstSum)
}
