//! What a call of the program does, over any streams: from its words to its exit status, with what it prints and says.
//!
//! In the order of reading: [`invocation_of`], what the words of a process ask for, which are read once; [`exit_code`], which a `main` calls with
//! that, its [`Streams`] and who looks on ([`seen_by`], [`Seen`]), or [`exit_code_in_threads`], where that [`asks_for_threads`]. They bring the
//! programs' own operation (`answering.rt`) to [`run_job`], which answers an [`Exit`], or, for a run in threads, to [`run_job_in_threads`], the
//! only one that may wait; [`refuse`] is for words that ask for no job. [`status_of`] and [`write_message`] are their parts. A script is read in
//! `prepared.rt`, once; `--strict` is decided in `found.rt`, and what `--explain` tells stands in `explaining.rt`. [`say_how_to_give`] is for a script
//! that comes from a terminal.
#![tactic(auto)]

mod answering;
mod explaining;
mod found;
mod job;
mod prepared;
mod process;
mod progress;
mod reason;
mod seen;
mod status;

pub use job::{Exit, Streams, refuse, run_job, run_job_in_threads};
pub use process::{
    asks_for_threads, exit_code, exit_code_in_threads, invocation_of, say_how_to_give, seen_by,
};
pub use seen::Seen;
pub use status::{status_of, write_message};
