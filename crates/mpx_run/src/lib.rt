//! What is done with a script: it is run, evaluated or checked, from the bytes that are read to those that are written.
//!
//! In the order of reading: [`Options`], [`run_sim`], which answers a [`Run`], [`run_threads`], which answers a [`ThreadRun`], and
//! [`run_text`], which reads a script, runs, evaluates or checks it as a [`Job`] says, writes what comes of it, and answers an
//! [`End`] with its [`Cause`], or a [`RunError`]. Its parts are [`read_bytes`], [`print_job`] or, of a run in threads, [`print_job_in_threads`],
//! which answer what is [`Printed`], and [`write_printed`]. Only what has `in_threads` in its name, `run_threads` and `run_text` may wait. The law
//! [`every_run_begins_the_evaluation`] is of all simulated runs.
#![tactic(auto)]

mod check;
mod end;
mod follows;
mod jobs;
mod report;
mod streams;
mod texts;

pub use end::{Cause, End};
pub use jobs::{is_in_threads, print_job, print_job_in_threads};
pub use mpx_sim::{
    FrameSeen, InOneThread, InThreads, Observer, Progress, Run, Unobserved, Workers, run_sim,
};
pub use mpx_statement::{Command, Job, Options};
pub use mpx_system::every_run_begins_the_evaluation;
pub use mpx_threads::{
    BusStep, Gate, NobodyLooks, Onlooker, OpenGate, Pass, SoFar, ThreadRun, ThreadsError,
    run_threads,
};
pub use report::{Left, Printed};
pub use streams::{ReadFault, WriteFault, read_bytes, write_bytes};
pub use texts::{RunError, run_text, run_text_observed, write_printed};
