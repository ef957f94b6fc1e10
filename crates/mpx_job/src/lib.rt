//! A job of ranks whose program is written by [`Rank`](mpx_program_rank::Rank): what every rank runs, and what is printed of it.
//!
//! In the order of reading: [`RankProgram`]; [`run`], which runs it and prints what comes of it; [`job`], which runs it in threads, and
//! [`print_answers`], which prints every rank's answer or error, first the causes.
#![tactic(auto)]

mod printing;
mod running;

pub use mpx_num::{Op, Ops};
pub use mpx_program_rank::{CallError, Comm, Host, Rank};
pub use printing::{cause_of, print_answers};
pub use running::{GivesUp, RankProgram, job, run};
