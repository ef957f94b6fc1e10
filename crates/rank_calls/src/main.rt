//! The program `rank_calls`: two ranks make calls of each sort, some of them of more than 4,096 items, and say what these gave.
#![tactic(auto)]

mod comms;
mod counts;
mod later;
mod long;
mod neighbours;
mod short;

use mpx_job::{RankProgram, job, print_answers};
use mpx_num::Ops;
use mpx_program_rank::{CallError, Host, Rank};
use mpx_ranks::RanksError;
use std::process::ExitCode;

struct RankCalls;

impl RankProgram for RankCalls {
    type Answer = String;

    type Error = CallError;

    fn run<H: Host>(&self, rank: &mut Rank<'_, H>) -> Result<String, CallError> {
        let errors = comms::errors(rank)?;
        let short = short::calls(rank)?;
        let later = short::calls_without_waiting(rank)?;
        let long = long::calls(rank)?;
        let others = others(rank)?;
        Ok(format!(in rank.alloc; "{short} {later} {long:?}{others}\n  {errors}")?)
    }
}

// What the other calls give, in a line each.
fn others<H: Host>(rank: &mut Rank<'_, H>) -> Result<String, CallError> {
    let counts = counts::calls(rank)?;
    let later = later::calls(rank)?;
    let neighbours = neighbours::calls(rank)?;
    let comms = comms::calls(rank)?;
    Ok(format!(in rank.alloc; "\n  {counts}\n  {later}\n  {neighbours}\n  {comms}")?)
}

fn main(rt: HostRuntime) -> Result<ExitCode, RanksError> {
    let ops = Ops::none(rt.alloc());
    let answers = job(&rt, rt.alloc(), 2, &RankCalls, &ops)?;
    Ok(print_answers(&rt, &answers))
}
